// From bytes to text: a study's numbers in decimal, one to a line, each with a comment that names it. Of a study that is refused the
// fields before the bad one, and a comment on that.
#![tactic(auto)]

mod check;
mod fields;
mod told;

use fields::{Field, Part};
use input::Tried;
use numbers::Number;
use refusals::{Refusal, Refused};
use std::io;
use std::io::{Read, Write};
use told::Found;

// A study has at most 4 + 7 × 64 and 96 × (3 + 3 × 64) fields.
const FIELDS: u32 = 19172;

// No period comes behind the 96th.
const LAST: Part = Part::Period(96);

// Where the writer stands: the next field with its first byte, and the road's NS, once that was read.
#[derive(Clone, Copy)]
struct Stand {
    field: Field,
    at: usize,
    segments: u32,
}

impl Stand {
    // At the start of the road.
    fn start() -> Stand {
        Stand {
            field: Field::first_of(Part::Road),
            at: 0,
            segments: 0,
        }
    }

    // Behind the number of its field.
    fn after(self, number: Number) -> Stand {
        let segments = if self.field == Field::first_of(Part::Road) {
            number.value
        } else {
            self.segments
        };
        Stand {
            field: self.field.next(segments),
            at: number.next,
            segments,
        }
    }

    // Whether a part starts here: bytes follow, and it is none behind the last.
    fn starts_part(self, bytes: &[u8]) -> bool {
        self.field.place == 0 && self.at < bytes.len() && self.field.part <= LAST
    }
}

// Writes a field: its number, and its name in a comment; and the comment before the part that starts behind it.
fn say_field<W: Write>(
    output: &mut W,
    bytes: &[u8],
    stand: Stand,
    number: Number,
) -> io::Result<Stand> {
    let value = number.value;
    let field = stand.field;
    writeln!(output, "{value} # {field}")?;
    let next = stand.after(number);
    if next.starts_part(bytes) {
        let part = next.field.part;
        writeln!(output, "# {part}")?;
    }
    Ok(next)
}

// Writes the fields before a place of the bytes.
fn say_fields<W: Write>(output: &mut W, bytes: &[u8], stop: usize) -> io::Result<Stand> {
    let mut stand = Stand::start();
    writeln!(output, "# road")?;
    for _ in 0..FIELDS {
        if stop <= stand.at {
            break;
        }
        let Ok(number) = numbers::read(bytes, stand.at) else {
            break;
        };
        stand = say_field(output, bytes, stand, number)?;
    }
    Ok(stand)
}

// A comment on the field that is refused: the refusal with its place, the field, what was read, its range.
fn say_refused<W: Write>(
    output: &mut W,
    bytes: &[u8],
    road: &[u32; 452],
    stand: Stand,
    refused: Refused,
) -> io::Result<()> {
    let Refused { refusal, offset } = refused;
    write!(output, "# refused {refusal} at byte {offset}, ")?;
    if refusal == Refusal::TooManyPeriods {
        return writeln!(output, "96 periods are taken, and more bytes follow");
    }
    let reason = told::reason(refusal);
    let field = stand.field;
    let part = field.part;
    let found = Found {
        bytes: bytes.get(offset..).unwrap_or_default(),
    };
    let range = field.range(stand.segments, road);
    let low = range.low;
    let high = range.high;
    writeln!(
        output,
        "{reason}: {part}: {field}: read {found}, its range is {low} to {high}"
    )
}

// Writes the fields, of a refused study those before the bad one with a comment on that.
fn say_study<W: Write>(
    output: &mut W,
    bytes: &[u8],
    road: &[u32; 452],
    refused: Option<Refused>,
) -> io::Result<()> {
    let Some(refused) = refused else {
        say_fields(output, bytes, bytes.len())?;
        return Ok(());
    };
    let stand = say_fields(output, bytes, refused.offset)?;
    say_refused(output, bytes, road, stand, refused)
}

fn complain<W: Write>(errors: &mut W, what: &str) {
    let _ = writeln!(errors, "study_to_text: {what}");
}

fn say_or_complain<W: Write, E: Write>(output: &mut W, errors: &mut E, bytes: &[u8]) {
    let read = sheets::read_road(bytes);
    // Stays: no plainer. A road that is refused has no numbers, and its ranges ask for none.
    let road = read.map_or([0; 452], |sheet| sheet.numbers);
    let refused = check::study(bytes, read).err();
    let mut tried = Tried::new(output);
    let _ = say_study(&mut tried, bytes, &road, refused);
    if tried.finish().is_err() {
        complain(errors, "cannot write the text");
    }
    if let Some(refused) = refused {
        let _ = writeln!(
            errors,
            "study_to_text: {refused}, as the end of the text says"
        );
    }
}

// Turns the bytes of a study into text. The buffer has to hold the study, or as much as its refusal takes to be told.
pub fn turn<R: Read, W: Write, E: Write>(
    source: &mut R,
    output: &mut W,
    errors: &mut E,
    buffer: &mut [u8],
) {
    match input::read_to_end(source, buffer) {
        Ok(bytes) => say_or_complain(output, errors, bytes),
        Err(_) => complain(errors, "cannot read the study"),
    }
}
