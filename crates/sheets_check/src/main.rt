// Reads and writes numbers and sheets, good and damaged, as the records on standard input say, one a line, and prints each with its answer:
//     read-number HEX PLACE    write-number VALUE ROOM PLACE    read-road HEX    read-period HEX ROAD    read-first-period HEX ROAD
//     write-road HEX ROOM PLACE    write-period HEX ROAD ROOM PLACE
// Numbers that are not given are 0, and those that a call has no use for are not looked at.
// HEX is bytes in hexadecimal, `-` for none; ROAD is those of a road sheet, and one that is refused is a road of zeros. A sheet is written
// after it is read. A buffer has ROOM bytes aa, up to 1,024, and is printed whole.
#![tactic(auto)]

use input::{CHUNK_ROOM, LINE_ROOM, Lines, STUDY_ROOM};
use records::{FILL, Hexadecimal};
use refusals::{Refusal, Refused};
use sheets::{Layout, Sheet};
use std::io;
use std::io::Write;

fn say_refused<W: Write>(output: &mut W, refusal: Refusal) -> io::Result<()> {
    write!(output, "refused {refusal}")
}

// A sheet's numbers, or its refusal and offset; a number behind the sheet's own that is not zero is told.
fn say_sheet<W: Write, L: Fn(u32) -> Layout>(
    output: &mut W,
    sheet: Result<Sheet, Refused>,
    layout: L,
) -> io::Result<()>
    requires { L.IsAlwaysCallable layout }
{
    match sheet {
        Ok(sheet) => {
            let count = layout(sheet.numbers[0]).count();
            write!(output, "used {}", sheet.used)?;
            for value in sheet.numbers.iter().take(count) {
                write!(output, " {value}")?;
            }
            for _ in sheet
                .numbers
                .iter()
                .skip(count)
                .filter(|value| **value != 0)
            {
                write!(output, " not zero")?;
            }
            Ok(())
        }
        Err(refused) => write!(output, "{refused}"),
    }
}

// The numbers of a sheet that was read, zeros of one that was refused.
// Stays: no plainer. A refused road is one of zeros, so that every record has its answer.
fn row_of(sheet: Result<Sheet, Refused>) -> [u32; 452] {
    sheet.map_or([0; 452], |sheet| sheet.numbers)
}

// The sheet that is read of a word's bytes; none of a word that is no bytes in hexadecimal. It is never made part of its caller, so that the
// buffer of a road's bytes is given back before that of a period's is taken.
#[inline(never)]
fn sheet_of<F: FnOnce(&[u8]) -> Result<Sheet, Refused>>(
    word: &[u8],
    read: F,
) -> Option<Result<Sheet, Refused>>
    requires { F.IsAlwaysCallable read }
{
    let mut buffer = [0; STUDY_ROOM];
    let bytes = records::bytes_of(word, &mut buffer)?;
    Some(read(bytes))
}

// The road that a word's bytes give.
fn road_of(word: &[u8]) -> Option<[u32; 452]> {
    Some(row_of(sheet_of(word, sheets::read_road)?))
}

// What a writing gave, and the buffer after it.
fn say_written<W: Write>(
    output: &mut W,
    written: Result<usize, Refusal>,
    buffer: &[u8],
) -> io::Result<()> {
    match written {
        Ok(count) => write!(output, "count {count}")?,
        Err(refusal) => say_refused(output, refusal)?,
    }
    write!(output, " {}", Hexadecimal(buffer))
}

fn read_number<W: Write>(output: &mut W, word: &[u8], rest: &[u8]) -> Option<io::Result<()>> {
    let [place, _] = records::numbers(rest, [0, 0])?;
    let mut buffer = [0; STUDY_ROOM];
    let bytes = records::bytes_of(word, &mut buffer)?;
    Some(match numbers::read(bytes, place as usize) {
        Ok(number) => write!(output, "value {} next {}", number.value, number.next),
        Err(refusal) => say_refused(output, refusal),
    })
}

// Writes to a filled buffer of the room and from the place that are left of a record.
fn write_to<W: Write, F: FnOnce(&mut [u8], usize) -> Option<Result<usize, Refusal>>>(
    output: &mut W,
    rest: &[u8],
    write: F,
) -> Option<io::Result<()>>
    requires { F.IsAlwaysCallable write }
{
    let [room, place] = records::numbers(rest, [0, 0])?;
    let mut buffer = [FILL; 1024];
    let Some(part) = buffer.get_mut(..room as usize) else {
        return Some(write!(output, "room above 1024"));
    };
    let written = write(&mut *part, place as usize)?;
    Some(say_written(output, written, part))
}

fn write_number<W: Write>(output: &mut W, word: &[u8], rest: &[u8]) -> Option<io::Result<()>> {
    write_to(output, rest, |buffer, place| {
        Some(numbers::write(buffer, place, text::number(word)?))
    })
}

fn read_road<W: Write>(output: &mut W, word: &[u8], rest: &[u8]) -> Option<io::Result<()>> {
    records::numbers(rest, [0, 0])?;
    let sheet = sheet_of(word, sheets::read_road)?;
    Some(say_sheet(output, sheet, Layout::Road))
}

fn write_road<W: Write>(output: &mut W, word: &[u8], rest: &[u8]) -> Option<io::Result<()>> {
    let row = road_of(word)?;
    write_to(output, rest, |buffer, place| {
        Some(sheets::write_sheet(buffer, place, Layout::Road(row[0]), &row))
    })
}

// Reads a period of a layout; behind its bytes stands the road.
fn read_period<W: Write, L: Fn(u32) -> Layout>(
    output: &mut W,
    word: &[u8],
    rest: &[u8],
    layout: L,
) -> Option<io::Result<()>>
    requires { L.IsAlwaysCallable layout }
{
    let (road, rest) = text::next_word(rest)?;
    let road = road_of(road)?;
    records::numbers(rest, [0, 0])?;
    let before = layout(road[0]);
    let sheet = sheet_of(word, |bytes| sheets::read_sheet(bytes, before, &road))?;
    Some(say_sheet(output, sheet, layout))
}

// Stays: no plainer. Writing a road is as short and has no road behind its bytes; one for both would take the way of reading.
fn write_period<W: Write>(output: &mut W, word: &[u8], rest: &[u8]) -> Option<io::Result<()>> {
    let (road, rest) = text::next_word(rest)?;
    let road = road_of(road)?;
    let row = row_of(sheet_of(word, |bytes| sheets::read_period(bytes, &road))?);
    write_to(output, rest, |buffer, place| {
        Some(sheets::write_sheet(buffer, place, Layout::Period(row[0]), &row))
    })
}

// Answers a record; none where it is no call.
fn answer<W: Write>(output: &mut W, record: &[u8]) -> Option<io::Result<()>> {
    let (name, rest) = text::next_word(record)?;
    let (word, rest) = text::next_word(rest)?;
    match name {
        b"read-number" => read_number(output, word, rest),
        b"write-number" => write_number(output, word, rest),
        b"read-road" => read_road(output, word, rest),
        b"write-road" => write_road(output, word, rest),
        b"read-period" => read_period(output, word, rest, Layout::Period),
        b"read-first-period" => read_period(output, word, rest, Layout::FirstPeriod),
        b"write-period" => write_period(output, word, rest),
        _ => None,
    }
}

// Plays a record, and prints its answer.
fn play<W: Write>(output: &mut W, record: &[u8]) -> io::Result<()> {
    records::say_answer(
        output,
        record,
        |output| answer(output, record),
        "not a call",
    )
}

fn main(rt: HostRuntime) {
    records::play_all_tried(
        &mut Lines::<_, CHUNK_ROOM>::new(&mut rt.stdin()),
        &mut [0; LINE_ROOM],
        &mut rt.stdout(),
        &mut rt.stderr(),
        |output, record| play(output, record),
    );
}
