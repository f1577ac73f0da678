// Prints the course of a study for people: a table of letters, and a picture. A refused study is the one line of its refusal, as in a listing.
#![tactic(auto)]

mod axes;
mod cells;
mod legend;
mod picture;
mod scale;
mod strip;
mod table;

use std::io;
use std::io::Write;

// Prints the letters of a study, period by period.
pub fn print_letters<W: Write>(output: &mut W, study: &[u8]) -> io::Result<()> {
    match overview::course_of(study) {
        Ok(course) => table::print(output, &course),
        Err(refused) => writeln!(output, "{refused}"),
    }
}

// Prints the picture of a study, a standalone SVG.
pub fn print_contour<W: Write>(output: &mut W, study: &[u8]) -> io::Result<()> {
    match overview::course_of(study) {
        Ok(course) => picture::print(output, &course),
        Err(refused) => writeln!(output, "{refused}"),
    }
}
