// A study from one file to another in the other layout of its period sheets. Of a study that does not convert no byte is written, and one
// line with its refusal goes to the file for complaints.
#![tactic(auto)]

use convert::Way;
use refusals::Refused;
use std::io::{Read, Write};

// Why no study was written.
#[derive(Clone, Copy)]
enum TurnError {
    NotRead,
    NotConverted(Refused),
    NotWritten,
}

// The program that leads that way, which stands before what it complains of.
fn program(way: Way) -> &'static str {
    match way {
        Way::ToSecond => "study_from_first",
        Way::ToFirst => "study_to_first",
    }
}

fn complain<W: Write>(way: Way, complaints: &mut W, error: TurnError) {
    let program = program(way);
    let _ = match error {
        TurnError::NotRead => writeln!(complaints, "{program}: cannot read the study"),
        TurnError::NotConverted(refused) => writeln!(complaints, "{refused}"),
        TurnError::NotWritten => writeln!(complaints, "{program}: cannot write the study"),
    };
}

// The buffers serve every study: the longest that converts has 26,149 bytes in the first layout and 32,293 in the second, and the refusal of a
// longer one is decided before.
fn write_turned<R: Read, W: Write>(
    way: Way,
    source: &mut R,
    output: &mut W,
) -> Result<(), TurnError> {
    let mut study = [0u8; input::STUDY_ROOM];
    let mut target = [0u8; input::STUDY_ROOM];
    let bytes = input::read_to_end(source, &mut study).map_err(|_| TurnError::NotRead)?;
    let count = convert::convert(way, bytes, &mut target).map_err(TurnError::NotConverted)?;
    output
        .write_all(&target[..count])
        .map_err(|_| TurnError::NotWritten)
}

// Turns a study of one layout into the other.
pub fn turn<R: Read, W: Write, E: Write>(
    way: Way,
    source: &mut R,
    output: &mut W,
    complaints: &mut E,
) {
    if let Err(error) = write_turned(way, source, output) {
        complain(way, complaints, error);
    }
}
