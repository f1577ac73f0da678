// Converts studies as the records on standard input say, one a line:
//     to-second HEX room N    to-first HEX room N
// print the record with its answer. HEX is a study's bytes in hexadecimal, `-` for none. The target is the first N bytes of a buffer of
// 100,000 bytes aa, and it is told where one is altered that had to stay.
//     turn-to-second FILE [OUTPUT]    turn-to-first FILE [OUTPUT]
// turn a file of the working directory into another, out.study by default, and print what the programs study_from_first and
// study_to_first would complain, and the bytes of OUTPUT in hexadecimal.
#![tactic(auto)]

use convert::Way;
use input::{CHUNK_ROOM, LINE_ROOM, Lines, STUDY_ROOM};
use records::{FILL, Hexadecimal};
use std::io;
use std::io::Write;
use std::rt::Files;

// Converts a study into so many bytes of a filled buffer, and looks at all of it; none where what is left of the record does not say both.
fn convert_study<W: Write>(output: &mut W, way: Way, rest: &[u8]) -> Option<io::Result<()>> {
    let (word, rest) = text::next_word(rest)?;
    let (key, rest) = text::next_word(rest)?;
    if !text::same(key, b"room") {
        return None;
    }
    let room = records::only_number(rest)?;
    let mut bytes = [0; STUDY_ROOM];
    let study = records::bytes_of(word, &mut bytes)?;
    let mut buffer = [FILL; 100_000];
    let Some(target) = buffer.get_mut(..room as usize) else {
        return Some(write!(output, "room above 100000"));
    };
    let written = convert::convert(way, study, target);
    Some(records::say_written(output, written, &buffer, 0))
}

// The bytes of a file, as far as it can be read.
fn say_file<R: Files, W: Write>(rt: &R, output: &mut W, name: &[u8]) -> io::Result<()> {
    let mut buffer = [0; STUDY_ROOM];
    let bytes = match input::read_to_end(&mut input::open(rt, name), &mut buffer) {
        Ok(bytes) => bytes,
        Err(cut) => cut.bytes,
    };
    write!(output, "{}", Hexadecimal(bytes))
}

// Turns a file into another, and prints what stands in that.
fn turn_file<R: Files, W: Write>(rt: &R, output: &mut W, way: Way, rest: &[u8]) -> io::Result<()> {
    let (source, rest) = text::next_word(rest).unwrap_or_default();
    let target = match text::next_word(rest) {
        Some((target, _)) => target,
        None => b"out.study",
    };
    converter::turn(
        way,
        &mut input::open(rt, source),
        &mut input::create(rt, target),
        output,
    );
    say_file(rt, output, target)
}

// The record with what converting its study gives.
fn say_converted<W: Write>(output: &mut W, record: &[u8], way: Way, rest: &[u8]) -> io::Result<()> {
    records::say_answer(
        output,
        record,
        |output| convert_study(output, way, rest),
        "not a record",
    )
}

// The record, and what turning its file gives. Where the record cannot be printed it is lost, and the file is turned all the same.
fn say_turned<R: Files, W: Write>(
    rt: &R,
    output: &mut W,
    record: &[u8],
    way: Way,
    rest: &[u8],
) -> io::Result<()> {
    let _ = output.write_all(record);
    let _ = writeln!(output);
    turn_file(rt, output, way, rest)?;
    writeln!(output)
}

// Plays a record, and prints it with its answer.
fn play<R: Files, W: Write>(rt: &R, output: &mut W, record: &[u8]) -> io::Result<()> {
    let (name, rest) = text::next_word(record).unwrap_or_default();
    match name {
        b"to-second" => say_converted(output, record, Way::ToSecond, rest),
        b"to-first" => say_converted(output, record, Way::ToFirst, rest),
        b"turn-to-second" => say_turned(rt, output, record, Way::ToSecond, rest),
        b"turn-to-first" => say_turned(rt, output, record, Way::ToFirst, rest),
        _ => records::say_answer(output, record, |_| None, "not a record"),
    }
}

fn main(rt: HostRuntime) {
    records::play_all_tried(
        &mut Lines::<_, CHUNK_ROOM>::new(&mut rt.stdin()),
        &mut [0; LINE_ROOM],
        &mut rt.stdout(),
        &mut rt.stderr(),
        |output, record| play(&rt, output, record),
    );
}
