// What is wrong with a text, as its line of complaint tells it.

use std::error::Error;
use std::fmt;

// Lines and columns are counted from 1, a room in bytes.
#[derive(Clone, Copy, Debug, PartialEq, Eq)]
pub enum Fault {
    // A word is no number.
    NoNumber { line: u64, column: usize },
    // The bytes of the numbers up to a line do not fit.
    TooManyBytes { line: u64, room: usize },
    // A line does not fit.
    LongLine { line: u64, room: usize },
    // There is no number.
    Empty,
    // The text cannot be read.
    Unread,
    // The bytes cannot be written.
    Unwritten,
}

impl fmt::Display for Fault {
    fn fmt<W: fmt::Write>(&self, f: &mut fmt::Formatter<W>) -> fmt::Result {
        match self {
            Fault::NoNumber { line, column } => write!(
                f,
                "line {line}, column {column}: not a decimal number up to 4294967295"
            ),
            Fault::TooManyBytes { line, room } => write!(
                f,
                "line {line}: up to here the numbers take more than {room} bytes"
            ),
            Fault::LongLine { line, room } => write!(f, "line {line}: longer than {room} bytes"),
            Fault::Empty => write!(f, "there is no number in the text"),
            Fault::Unread => write!(f, "cannot read the text"),
            Fault::Unwritten => write!(f, "cannot write the bytes"),
        }
    }
}

impl Error for Fault {}
