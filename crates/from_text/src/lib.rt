// From text to bytes. On bad text one line goes to the file for complaints, and no byte is written.
#![tactic(auto)]

mod bytes;
mod faults;

use bytes::Bytes;
use faults::Fault;
use input::{CHUNK_ROOM, Line, Lines};
use std::io::{Read, Write};

// The byte order mark, which may stand before the first line.
const MARK: [u8; 3] = [0xEF, 0xBB, 0xBF];

fn without_mark(line: &[u8], number: u64) -> &[u8] {
    if number == 1 {
        return line.strip_prefix(&MARK).unwrap_or(line);
    }
    line
}

// A word that is no number, by what stands behind it in its line.
fn bad_word(number: u64, line: &[u8], word: &[u8], behind: &[u8]) -> Fault {
    let before = line.len().saturating_sub(word.len() + behind.len());
    Fault::NoNumber {
        line: number,
        column: before + 1,
    }
}

// Puts the bytes of a line's numbers behind those before.
fn put_line(number: u64, line: &[u8], bytes: &mut Bytes) -> Result<(), Fault> {
    let room = bytes.capacity();
    let mut rest = line;
    while let Some((word, behind)) = text::next_word(rest) {
        let Some(value) = text::number(word) else {
            return Err(bad_word(number, line, word, behind));
        };
        bytes
            .put(value)
            .map_err(|_| Fault::TooManyBytes { line: number, room })?;
        rest = behind;
    }
    Ok(())
}

// Puts the bytes of the text's numbers, line by line.
fn put_lines<R: Read>(source: &mut R, buffer: &mut [u8], bytes: &mut Bytes) -> Result<(), Fault> {
    let room = buffer.len();
    let mut lines = Lines::<_, CHUNK_ROOM>::new(source);
    for number in 1..=u64::MAX {
        let Some(line) = lines.next_line(buffer).map_err(|_| Fault::Unread)? else {
            break;
        };
        match line {
            Line::Whole(line) => put_line(number, without_mark(line, number), bytes)?,
            Line::Long(_) => return Err(Fault::LongLine { line: number, room }),
        }
    }
    Ok(())
}

fn write_bytes<W: Write>(output: &mut W, bytes: &[u8]) -> Result<(), Fault> {
    if bytes.is_empty() {
        return Err(Fault::Empty);
    }
    output.write_all(bytes).map_err(|_| Fault::Unwritten)
}

fn turn_whole<R: Read, W: Write>(
    source: &mut R,
    output: &mut W,
    line: &mut [u8],
    out: &mut [u8],
) -> Result<(), Fault> {
    let mut bytes = Bytes::new(out);
    put_lines(source, line, &mut bytes)?;
    write_bytes(output, bytes.as_slice())
}

// Turns the text of a study, or of any row of numbers, into its bytes. A line has to fit its buffer, and the bytes theirs.
// Stays: fixed memory. A library takes no heap, so the caller lends both buffers.
pub fn turn<R: Read, W: Write, E: Write>(
    source: &mut R,
    output: &mut W,
    errors: &mut E,
    line: &mut [u8],
    out: &mut [u8],
) {
    if let Err(fault) = turn_whole(source, output, line, out) {
        let _ = writeln!(errors, "study_from_text: {fault}");
    }
}
