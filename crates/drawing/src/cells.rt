// The grid: for each period a row, in it a cell for each segment, in the colour of its letter, hatched where lanes are closed.

use crate::scale::{Column, Scale};
use levels::Level;
use overview::{Course, Mark};
use std::io;
use std::io::Write;

// The narrowest and the lowest cell that have room for a letter, and how far below a cell's middle its letter stands.
const ROOM: u64 = 130;

pub const HIGH: u64 = 180;

pub const BELOW: u64 = 40;

// The narrowest cell that has a white edge; of a narrower one the edges would leave little.
const EDGED: u64 = 60;

// What a cell shows: its segment and period, and its mark.
#[derive(Clone, Copy)]
struct Cell {
    segment: u32,
    period: u64,
    column: Column,
    mark: Mark,
}

// What is told of a cell where it is pointed at.
fn print_told<W: Write>(output: &mut W, cell: Cell) -> io::Result<()> {
    let Cell {
        segment,
        period,
        ..
    } = cell;
    let Mark { letter, lanes } = cell.mark;
    let all = cell.column.lanes;
    write!(
        output,
        "<title>segment {segment}, period {period}: {letter}, {lanes} of {all} lanes open</title>"
    )
}

// A letter in the middle of a cell, on a field of the cell's colour that stands out from the hatch.
fn print_letter<W: Write>(
    output: &mut W,
    letter: Level,
    column: Column,
    middle: u64,
) -> io::Result<()> {
    let x = column.middle();
    let y = middle.saturating_add(BELOW);
    let left = x.saturating_sub(60);
    let top = middle.saturating_sub(70);
    write!(
        output,
        "<rect x='{left}' y='{top}' width='120' height='140'/>"
    )?;
    write!(
        output,
        "<text class='middle' x='{x}' y='{y}'>{letter}</text>"
    )
}

fn print_cell<W: Write>(output: &mut W, scale: &Scale, cell: Cell) -> io::Result<()> {
    let letter = cell.mark.letter;
    let x = cell.column.from;
    let width = cell.column.width();
    let high = scale.height;
    let y = scale.down(cell.period.saturating_sub(1));
    write!(output, "<g class='{letter}'>")?;
    print_told(output, cell)?;
    let edge = if EDGED <= width { "edge" } else { "bare" };
    write!(
        output,
        "<rect class='{edge}' x='{x}' y='{y}' width='{width}' height='{high}'/>"
    )?;
    if cell.mark.lanes < cell.column.lanes {
        write!(
            output,
            "<rect class='closed' x='{x}' y='{y}' width='{width}' height='{high}'/>"
        )?;
    }
    if ROOM <= width && HIGH <= high {
        print_letter(output, letter, cell.column, y.saturating_add(high / 2))?;
    }
    writeln!(output, "</g>")
}

fn print_row<W: Write>(output: &mut W, scale: &Scale, period: u64, row: &[Mark]) -> io::Result<()> {
    let columns = scale.columns.iter().take(scale.segments);
    for (segment, (column, mark)) in (1..).zip(columns.zip(row)) {
        let cell = Cell {
            segment,
            period,
            column: *column,
            mark: *mark,
        };
        print_cell(output, scale, cell)?;
    }
    Ok(())
}

pub fn print<W: Write>(output: &mut W, scale: &Scale, course: &Course) -> io::Result<()> {
    for (period, row) in (1..=scale.periods).zip(&course.rows) {
        print_row(output, scale, period, row)?;
    }
    Ok(())
}
