// Tries what the programs for people share, as the records on standard input say, one a line of at most 64 bytes:
//     from-text TEXT STUDY [LINE-ROOM [BYTE-ROOM]]    to-text STUDY
// turn files of the working directory into others, and print what the programs study_from_text and study_to_text would write and complain.
// Any other record is told to be none, and where it differs from its first byte outside places 1 to 3.
#![tactic(auto)]

use input::{LINE_ROOM, Lines, STUDY_ROOM};
use std::io;
use std::io::Write;
use std::rt::Files;

// Turns a text into a study's file, by buffers of the given rooms.
fn from_file<R: Files, W: Write>(
    rt: &R,
    output: &mut W,
    text: &[u8],
    study: &[u8],
    [line_room, byte_room]: [u32; 2],
) {
    let mut line = [0; LINE_ROOM];
    let mut out = [0; STUDY_ROOM];
    let mut source = input::open(rt, text);
    let mut target = input::create(rt, study);
    if let Some(line) = line.get_mut(..line_room as usize) {
        if let Some(out) = out.get_mut(..byte_room as usize) {
            from_text::turn(&mut source, &mut target, output, line, out);
        }
    }
}

fn play_from<R: Files, W: Write>(rt: &R, output: &mut W, rest: &[u8]) -> io::Result<()> {
    let (text, rest) = text::next_word(rest).unwrap_or_default();
    let (study, rest) = text::next_word(rest).unwrap_or_default();
    match records::numbers(rest, [LINE_ROOM as u32, STUDY_ROOM as u32]) {
        Some(rooms) => {
            from_file(rt, output, text, study, rooms);
            Ok(())
        }
        None => writeln!(output, "not a record"),
    }
}

fn play_to<R: Files + Print>(rt: &R, rest: &[u8]) {
    let (study, _) = text::next_word(rest).unwrap_or_default();
    to_text::turn(
        &mut input::open(rt, study),
        &mut io::writer(rt),
        &mut io::writer(rt),
        &mut [0; STUDY_ROOM],
    );
}

// The record again, on a line. Where that cannot be printed it is lost, and the call is made all the same.
fn say_line<W: Write>(output: &mut W, record: &[u8]) {
    let _ = output.write_all(record);
    let _ = writeln!(output);
}

// Tells that a record is none, and where it differs from its first byte.
fn say_no_record<W: Write>(output: &mut W, record: &[u8]) -> io::Result<()> {
    records::say_record(output, record);
    write!(output, "not a record")?;
    if let Some(first) = record.first() {
        records::say_altered(output, record, *first, 1, 3);
    }
    writeln!(output)
}

fn play<R: Files + Print, W: Write>(rt: &R, output: &mut W, record: &[u8]) -> io::Result<()> {
    let (name, rest) = text::next_word(record).unwrap_or_default();
    match name {
        b"from-text" => {
            say_line(output, record);
            play_from(rt, output, rest)
        }
        b"to-text" => {
            say_line(output, record);
            play_to(rt, rest);
            Ok(())
        }
        _ => say_no_record(output, record),
    }
}

fn main(rt: HostRuntime) {
    records::play_all_tried(
        &mut Lines::<_, 7>::new(&mut rt.stdin()),
        &mut [0; 64],
        &mut rt.stdout(),
        &mut rt.stderr(),
        |output, record| play(&rt, output, record),
    );
}
