// Prints a forecast as the manual shows it (9.2): the listing, or the one line of a refusal.
#![tactic(auto)]

use facility::Sums;
use input::Tried;
use std::io;
use std::io::Write;
use study::{Line, Listing};

// A segment's line: its number, n, q, the letter and the part-feet.
fn print_line<W: Write>(output: &mut W, segment: u32, line: Line) -> io::Result<()> {
    let Line {
        n,
        q,
        level,
        partfeet,
    } = line;
    writeln!(output, "{segment} {n} {q} {level} {partfeet}")
}

fn print_listing<W: Write>(output: &mut W, listing: &Listing) -> io::Result<()> {
    let Sums {
        arrived,
        left,
        stored,
        partsteps,
        partfeet,
    } = listing.totals;
    let origin = listing.origin;
    writeln!(output, "arrived {arrived}")?;
    writeln!(output, "left {left}")?;
    writeln!(output, "stored {stored}")?;
    writeln!(output, "partsteps {partsteps}")?;
    writeln!(output, "origin {origin}")?;
    for (segment, line) in (1..).zip(listing.lines.iter().flatten()) {
        print_line(output, segment, *line)?;
    }
    writeln!(output, "partfeet {partfeet}")
}

fn print_forecast<W: Write>(output: &mut W, bytes: &[u8]) -> io::Result<()> {
    match study::forecast(bytes) {
        Ok(listing) => print_listing(output, &listing),
        Err(refused) => writeln!(output, "{refused}"),
    }
}

// Prints the forecast of a study: each line of it, also behind one that cannot be written.
pub fn print_study<W: Write>(output: &mut W, bytes: &[u8]) -> io::Result<()> {
    let mut tried = Tried::new(output);
    print_forecast(&mut tried, bytes)?;
    tried.finish()
}
