// Plays planning sheets from standard input, one a line: a name, the sheet's bytes in hexadecimal, `carry`, and the carryover: numbers with
// commas between them, `-` for none, or `=` for what the sheet before left. Prints each with what it gives: every f64 as the 16 hexadecimal
// digits of its bits, and a line for each section. A carryover has at most 65 numbers; a record that is none leaves none.
#![tactic(auto)]

ghost use Rattle.std.specs.Prelude.{◌≤◌, length};

use input::{CHUNK_ROOM, LINE_ROOM, Lines, STUDY_ROOM};
use planning::Planned;
use refusals::Refused;
use sections::answer::Answer;
use std::io::Write;
use std::{fmt, io};

// An f64 that prints as its bits.
#[derive(Clone, Copy)]
struct Bits(f64);

impl fmt::Display for Bits {
    fn fmt<W: fmt::Write>(&self, f: &mut fmt::Formatter<W>) -> fmt::Result {
        if self.0.is_nan() {
            return write!(f, "nan");
        }
        let bits = self.0.to_bits();
        write!(f, "{bits:016x}")
    }
}

// An answer that prints as its case and its numbers.
#[derive(Clone, Copy)]
struct Told(Answer);

impl fmt::Display for Told {
    fn fmt<W: fmt::Write>(&self, f: &mut fmt::Formatter<W>) -> fmt::Result {
        match self.0 {
            Answer::Free { speed, density } => {
                write!(f, "free {} {}", Bits(speed), Bits(density))
            }
            Answer::Slowed {
                under,
                speed,
                density,
            } => write!(
                f,
                "slowed {} {} {}",
                Bits(under),
                Bits(speed),
                Bits(density)
            ),
            Answer::Queued {
                under,
                over,
                speed,
                density,
            } => write!(
                f,
                "queued {} {} {} {}",
                Bits(under),
                Bits(over),
                Bits(speed),
                Bits(density)
            ),
        }
    }
}

// A carryover.
// Stays: no plainer. A list of at most 65 numbers; the kit's `arrayvec` would be one crate more to build on, for it alone.
#[derive(Clone, Copy)]
struct Carryover {
    numbers: [u32; 65],
    count: usize,
    ghost within: { count ≤ 65 },
}

// Numbers with commas between them, or `-` for none.
impl fmt::Display for Carryover {
    fn fmt<W: fmt::Write>(&self, f: &mut fmt::Formatter<W>) -> fmt::Result {
        if self.count == 0 {
            return write!(f, "-");
        }
        for (i, number) in self.numbers[..self.count].iter().enumerate() {
            if 0 < i {
                write!(f, ",")?;
            }
            write!(f, "{number}")?;
        }
        Ok(())
    }
}

impl Carryover {
    // One of no number.
    fn none() -> Self {
        Carryover {
            numbers: [0; 65],
            count: 0,
        }
    }

    // Puts one more number behind the others: none where there is no room.
    fn push(&mut self, number: u32) -> Option<()> {
        if self.count == 65 {
            return None;
        }
        self.numbers[self.count] = number;
        self.count += 1;
        Some(())
    }

    // The carryover that a word says, where the sheet before left one: none of a word that says none.
    fn of(word: &[u8], left: &Carryover) -> Option<Self> {
        match word {
            b"=" => Some(*left),
            b"-" => Some(Carryover::none()),
            _ => {
                let mut carryover = Carryover::none();
                for number in word.split(|b| *b == b',') {
                    carryover.push(text::number(number)?)?;
                }
                Some(carryover)
            }
        }
    }

    // Works a sheet out with this carryover, and keeps the one that it leaves.
    fn plan(&mut self, bytes: &[u8]) -> Result<Planned, Refused> {
        let mut numbers = self.numbers;
        let planned = planning::plan(bytes, &mut numbers[..self.count]);
        self.numbers = numbers;
        planned
    }
}

// A record as it stands up to its mark, its sheet's word, and its carryover.
#[derive(Clone, Copy)]
struct Asked<'a> {
    start: &'a [u8],
    sheet: &'a [u8],
    carryover: Carryover,
}

impl Asked<'_> {
    // What a record asks, where the sheet before left a carryover: a name, bytes, `carry` and a carryover.
    fn of<'a>(record: &'a [u8], left: &Carryover) -> Option<Asked<'a>> {
        let (_, rest) = text::next_word(record)?;
        let (sheet, rest) = text::next_word(rest)?;
        let (mark, rest) = text::next_word(rest)?;
        if !text::same(mark, b"carry") {
            return None;
        }
        let carryover = Carryover::of(records::only_word(rest)?, left)?;
        Some(Asked {
            start: &record[..record.len() - rest.len()],
            sheet,
            carryover,
        })
    }
}

// What a sheet gives, the carryover that it leaves, and a line for each section.
fn say_plan<W: Write>(output: &mut W, planned: &Planned, carryover: &Carryover) -> io::Result<()> {
    let used = planned.used;
    let density = Bits(planned.density);
    let level = planned.level;
    writeln!(
        output,
        "ok used {used} density {density} letter {level} carry {carryover}"
    )?;
    for (number, answer) in (1..=64).zip(planned.answers.iter().take(carryover.count)) {
        let told = Told(*answer);
        writeln!(output, "  {number} {told}")?;
    }
    Ok(())
}

// Plays a sheet with a carryover.
fn play_sheet<W: Write>(output: &mut W, sheet: &[u8], carryover: &mut Carryover) -> io::Result<()> {
    let mut room = [0; STUDY_ROOM];
    let Some(bytes) = records::bytes_of(sheet, &mut room) else {
        return writeln!(output, "not a sheet's bytes");
    };
    match carryover.plan(bytes) {
        Ok(planned) => say_plan(output, &planned, carryover),
        Err(refused) => writeln!(output, "{refused}"),
    }
}

// Plays a record with the carryover that the sheet before left.
fn play<W: Write>(output: &mut W, record: &[u8], carryover: &mut Carryover) -> io::Result<()> {
    match Asked::of(record, carryover) {
        Some(asked) => {
            *carryover = asked.carryover;
            output.write_all(asked.start)?;
            write!(output, " {carryover} -> ")?;
            play_sheet(output, asked.sheet, carryover)
        }
        None => {
            *carryover = Carryover::none();
            records::say_record(output, record);
            writeln!(output, "not a record")
        }
    }
}

fn main(rt: HostRuntime) {
    let mut carryover = Carryover::none();
    records::play_all_tried(
        &mut Lines::<_, CHUNK_ROOM>::new(&mut rt.stdin()),
        &mut [0; LINE_ROOM],
        &mut rt.stdout(),
        &mut rt.stderr(),
        |output, record| play(output, record, &mut carryover),
    );
}
