// The axes: periods with the time since the study's start to the left, miles below.

ghost use Rattle.std.specs.Prelude.{◌<◌};

use crate::cells::{BELOW, HIGH};
use crate::scale::{LEFT, Scale, WIDTH};
use std::io;
use std::io::Write;

// A tenth of a mile in feet.
const TENTH: u64 = 528;

// Four periods to an hour.
const HOUR: u64 = 4;

// The numbers of the periods, each row's where rows are high, else one an hour.
fn print_periods<W: Write>(output: &mut W, scale: &Scale) -> io::Result<()> {
    let end = LEFT.saturating_sub(100);
    for period in 1..=scale.periods {
        if HIGH <= scale.height || period % HOUR == 0 {
            let middle = scale.down(period).saturating_sub(scale.height / 2);
            let y = middle.saturating_add(BELOW);
            writeln!(
                output,
                "<text class='end' x='{end}' y='{y}'>{period}</text>"
            )?;
        }
    }
    Ok(())
}

// The time at the start and after every hour, with a line.
fn print_hours<W: Write>(output: &mut W, scale: &Scale) -> io::Result<()> {
    for hour in 0..=scale.periods / HOUR {
        let line = scale.down(HOUR.saturating_mul(hour));
        let y = line.saturating_add(BELOW);
        writeln!(output, "<path class='axis' d='M520 {line} h100'/>")?;
        writeln!(output, "<text class='end' x='490' y='{y}'>{hour}:00</text>")?;
    }
    Ok(())
}

// What the two columns to the left are, below them.
fn print_names<W: Write>(output: &mut W, scale: &Scale) -> io::Result<()> {
    let y = scale.down(scale.periods).saturating_add(170);
    let end = LEFT.saturating_sub(100);
    writeln!(output, "<text class='end' x='490' y='{y}'>hours</text>")?;
    writeln!(output, "<text class='end' x='{end}' y='{y}'>period</text>")
}

// The step of the axis of miles of a road of so many tenths, itself in tenths: 0.1, 0.2, 0.5, 1, 2, 5, 10 or 50 miles, so that there are at most twelve
// up to 120 miles.
fn step_of(tenths: u64) -> u64
    ensures { 0 < result }
{
    match tenths {
        0..=12 => 1,
        13..=24 => 2,
        25..=60 => 5,
        61..=120 => 10,
        121..=240 => 20,
        241..=600 => 50,
        601..=1200 => 100,
        _ => 500,
    }
}

fn print_miles<W: Write>(output: &mut W, scale: &Scale) -> io::Result<()> {
    let whole = scale.feet / TENTH;
    let step = step_of(whole);
    let line = scale.down(scale.periods).saturating_add(60);
    let y = line.saturating_add(230);
    writeln!(output, "<path class='axis' d='M{LEFT} {line} h{WIDTH}'/>")?;
    for k in 0..=whole / step {
        let tenths = step.saturating_mul(k);
        let x = scale.across(TENTH.saturating_mul(tenths));
        let miles = tenths / 10;
        let tenth = tenths % 10;
        writeln!(output, "<path class='axis' d='M{x} {line} v80'/>")?;
        if step < 10 {
            writeln!(
                output,
                "<text class='middle' x='{x}' y='{y}'>{miles}.{tenth}</text>"
            )?;
        } else {
            writeln!(
                output,
                "<text class='middle' x='{x}' y='{y}'>{miles}</text>"
            )?;
        }
    }
    let behind = LEFT.saturating_add(WIDTH).saturating_add(110);
    writeln!(output, "<text x='{behind}' y='{y}'>miles</text>")
}

pub fn print<W: Write>(output: &mut W, scale: &Scale) -> io::Result<()> {
    print_periods(output, scale)?;
    print_hours(output, scale)?;
    print_names(output, scale)?;
    print_miles(output, scale)
}
