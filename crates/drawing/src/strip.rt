// The road above the grid: each segment's lanes, its ramps, and its number.

use crate::scale::{Column, LEFT, Scale};
use std::io;
use std::io::Write;

// Where the road's right-hand side is, how wide a lane is drawn, and where the numbers of lanes and segments stand.
const SHOULDER: u64 = 1250;

const LANE: u64 = 50;

const LANES: u64 = 800;

const NUMBERS: u64 = 1690;

// The narrowest column that has room for one digit, for two, and for the number of every fifth segment.
const ONE_DIGIT: u64 = 75;

const TWO_DIGITS: u64 = 135;

const A_FIFTH: u64 = 30;

// How wide and how high half a ramp's triangle is where there is room.
pub const HALF: u64 = 65;

const HIGH: u64 = 150;

// A triangle that points into the road, with its tip so far to the right and so far down.
pub fn print_on_ramp<W: Write>(output: &mut W, at: u64, top: u64, half: u64) -> io::Result<()> {
    let base = half.saturating_mul(2);
    writeln!(
        output,
        "<path class='on' d='M{at} {top} l-{half} {HIGH} h{base} z'><title>on-ramp</title></path>"
    )
}

// One that points away from it.
pub fn print_off_ramp<W: Write>(output: &mut W, at: u64, top: u64, half: u64) -> io::Result<()> {
    let base = half.saturating_mul(2);
    let foot = top.saturating_add(HIGH);
    writeln!(
        output,
        "<path class='off' d='M{at} {foot} l-{half} -{HIGH} h{base} z'><title>off-ramp</title></path>"
    )
}

// A segment's ramps: narrow where its column is, so that the two stand beside each other.
fn print_ramps<W: Write>(output: &mut W, column: Column) -> io::Result<()> {
    let half = (column.width() / 4).min(HALF);
    let inside = half.saturating_add(10);
    let top = SHOULDER.saturating_add(20);
    if column.on_ramp {
        print_on_ramp(output, column.from.saturating_add(inside), top, half)?;
    }
    if column.off_ramp {
        print_off_ramp(output, column.to.saturating_sub(inside), top, half)?;
    }
    Ok(())
}

// The lines between the lanes of a segment.
fn print_lanes<W: Write>(output: &mut W, column: Column) -> io::Result<()> {
    let Column { from, to, .. } = column;
    for lane in 1..u64::from(column.lanes) {
        let y = SHOULDER.saturating_sub(LANE.saturating_mul(lane));
        writeln!(output, "<path class='lane' d='M{from} {y} H{to}'/>")?;
    }
    Ok(())
}

// Whether a segment's number has room, in its own column or, where columns are narrow, as every fifth's.
fn has_room(number: u32, width: u64) -> bool {
    let digits = if number < 10 { ONE_DIGIT } else { TWO_DIGITS };
    digits <= width || (number % 5 == 0 && A_FIFTH <= width)
}

fn print_numbers<W: Write>(output: &mut W, number: u32, column: Column) -> io::Result<()> {
    let x = column.middle();
    let lanes = column.lanes;
    if ONE_DIGIT <= column.width() {
        writeln!(
            output,
            "<text class='middle' x='{x}' y='{LANES}'>{lanes}</text>"
        )?;
    }
    if has_room(number, column.width()) {
        writeln!(
            output,
            "<text class='middle' x='{x}' y='{NUMBERS}'>{number}</text>"
        )?;
    }
    Ok(())
}

fn print_segment<W: Write>(output: &mut W, number: u32, column: Column) -> io::Result<()> {
    let Column { from, to, .. } = column;
    let width = column.width();
    let high = LANE.saturating_mul(u64::from(column.lanes));
    let y = SHOULDER.saturating_sub(high);
    writeln!(
        output,
        "<rect class='road' x='{from}' y='{y}' width='{width}' height='{high}'/>"
    )?;
    print_lanes(output, column)?;
    print_ramps(output, column)?;
    print_numbers(output, number, column)
}

pub fn print<W: Write>(output: &mut W, scale: &Scale) -> io::Result<()> {
    let end = LEFT.saturating_sub(100);
    writeln!(
        output,
        "<text class='end' x='{end}' y='{LANES}'>lanes</text>"
    )?;
    writeln!(
        output,
        "<text class='end' x='{end}' y='1180'>road, ramps</text>"
    )?;
    writeln!(
        output,
        "<text class='end' x='{end}' y='{NUMBERS}'>segment</text>"
    )?;
    for (number, column) in (1..).zip(scale.columns.iter().take(scale.segments)) {
        print_segment(output, number, *column)?;
    }
    Ok(())
}
