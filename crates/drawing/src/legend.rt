// The legend: the letters' colours with their limits, and the marks of ramps and closed lanes.

use crate::strip;
use levels::Level;
use std::io;
use std::io::Write;

// A letter's colour, and what it stands for.
fn print_letter<W: Write>(
    output: &mut W,
    letter: Level,
    limit: &str,
    x: u64,
    y: u64,
) -> io::Result<()> {
    write!(
        output,
        "<g class='{letter}'><rect class='edge' x='{x}' y='{y}' width='300' height='300'/>"
    )?;
    let middle = x.saturating_add(150);
    let line = y.saturating_add(190);
    writeln!(
        output,
        "<text class='middle' x='{middle}' y='{line}'>{letter}</text></g>"
    )?;
    let behind = x.saturating_add(360);
    writeln!(output, "<text x='{behind}' y='{line}'>{limit}</text>")
}

const LETTERS: [(Level, &str); 6] = [
    (Level::A, "to 11, free"),
    (Level::B, "to 18"),
    (Level::C, "to 26"),
    (Level::D, "to 35"),
    (Level::E, "to 45"),
    (Level::F, "above, jammed"),
];

fn print_letters<W: Write>(output: &mut W, y: u64) -> io::Result<()> {
    let mut x: u64 = 1000;
    for (letter, limit) in LETTERS {
        print_letter(output, letter, limit, x, y)?;
        x = x.saturating_add(1450);
    }
    Ok(())
}

fn print_marks<W: Write>(output: &mut W, y: u64) -> io::Result<()> {
    let line = y.saturating_add(140);
    strip::print_on_ramp(output, 1080, y, strip::HALF)?;
    writeln!(output, "<text x='1220' y='{line}'>on-ramp</text>")?;
    strip::print_off_ramp(output, 2080, y, strip::HALF)?;
    writeln!(output, "<text x='2220' y='{line}'>off-ramp</text>")?;
    writeln!(
        output,
        "<g class='A'><rect x='3000' y='{y}' width='300' height='180'/><rect class='closed' x='3000' y='{y}' width='300' height='180'/></g>"
    )?;
    writeln!(output, "<text x='3360' y='{line}'>lanes closed</text>")
}

// Below the grid, whose foot is at so many down.
pub fn print<W: Write>(output: &mut W, foot: u64) -> io::Result<()> {
    let title = foot.saturating_add(750);
    writeln!(
        output,
        "<text x='1000' y='{title}'>Vehicles per mile and open lane:</text>"
    )?;
    print_letters(output, foot.saturating_add(880))?;
    print_marks(output, foot.saturating_add(1450))
}
