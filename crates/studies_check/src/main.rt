// Runs every study on standard input, one a line, and prints its name and its listing, its letters period by period, or its picture:
//     NAME HEX    NAME first HEX    NAME letters HEX    NAME contour HEX
// HEX is the study's bytes in hexadecimal. One of the first layout is converted to the second, and where that is refused, the refusal is
// printed.
#![tactic(auto)]

use convert::Way;
use input::{CHUNK_ROOM, LINE_ROOM, Lines, STUDY_ROOM};
use std::io;
use std::io::Write;

// Prints the listing of a study of the first layout.
fn print_first<W: Write>(output: &mut W, study: &[u8]) -> io::Result<()> {
    let mut second = [0; STUDY_ROOM];
    match convert::convert(Way::ToSecond, study, &mut second) {
        Ok(count) => listing::print_study(output, &second[..count]),
        Err(refused) => writeln!(output, "{refused}"),
    }
}

// Prints the listing of the study that is left of a record, as its layout is printed.
fn play_study<W: Write, P: FnOnce(&mut W, &[u8]) -> io::Result<()>>(
    output: &mut W,
    rest: &[u8],
    print: P,
) -> io::Result<()>
    requires { P.IsAlwaysCallable print }
{
    let mut room = [0; STUDY_ROOM];
    match records::only_bytes(rest, &mut room) {
        Some(study) => print(output, study),
        None => writeln!(output, "not a study's bytes"),
    }
}

// Plays a record: its name, and its study.
fn play<W: Write>(output: &mut W, record: &[u8]) -> io::Result<()> {
    let (name, rest) = text::next_word(record).unwrap_or_default();
    output.write_all(name)?;
    writeln!(output)?;
    match text::next_word(rest) {
        Some((b"first", rest)) => play_study(output, rest, print_first),
        Some((b"letters", rest)) => play_study(output, rest, drawing::print_letters),
        Some((b"contour", rest)) => play_study(output, rest, drawing::print_contour),
        _ => play_study(output, rest, listing::print_study),
    }
}

fn main(rt: HostRuntime) {
    records::play_all_tried(
        &mut Lines::<_, CHUNK_ROOM>::new(&mut rt.stdin()),
        &mut [0; LINE_ROOM],
        &mut rt.stdout(),
        &mut rt.stderr(),
        |output, record| play(output, record),
    );
}
