// The table of letters: a line of the segments' numbers, and a line for each period with its number and every segment's letter.

use overview::{Course, Mark};
use std::io;
use std::io::Write;

// The segments' numbers, each behind a space.
fn print_numbers<W: Write>(output: &mut W, segments: u32) -> io::Result<()> {
    write!(output, "  ")?;
    for segment in 1..=segments {
        write!(output, " {segment}")?;
    }
    writeln!(output)
}

// A period's number and its letters, each in a column as wide as its segment's number.
fn print_row<W: Write>(output: &mut W, period: u32, segments: u32, row: &[Mark]) -> io::Result<()> {
    write!(output, "{period:2}")?;
    for (segment, mark) in (1..=segments).zip(row) {
        let letter = mark.letter;
        if segment < 10 {
            write!(output, " {letter}")?;
        } else {
            write!(output, "  {letter}")?;
        }
    }
    writeln!(output)
}

pub fn print<W: Write>(output: &mut W, course: &Course) -> io::Result<()> {
    let segments = course.road[0];
    print_numbers(output, segments)?;
    for (period, row) in (1..=course.periods).zip(&course.rows) {
        print_row(output, period, segments, row)?;
    }
    Ok(())
}
