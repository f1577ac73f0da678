// Whether bytes are a study: its road and its periods, sheet by sheet as the calls on a facility read them.

ghost use Rattle.std.specs.Prelude.{◌≤◌, length, MatchResult};

use refusals::{Refusal, Refused};
use sheets::Sheet;

// Whether bytes are a study, by what its road was read as.
pub fn study(bytes: &[u8], road: Result<Sheet, Refused>) -> Result<(), Refused> {
    let road = road?;
    periods(bytes, road.used, &road.numbers)
}

// Whether the bytes from a place on are periods of a road, at most 96.
fn periods(bytes: &[u8], start: usize, road: &[u32; 452]) -> Result<(), Refused> {
    let mut at = start;
    for _ in 0..96 {
        if bytes.len() <= at {
            return Ok(());
        }
        at = period_end(bytes, at, road)?;
    }
    if bytes.len() <= at {
        return Ok(());
    }
    Err(Refused {
        refusal: Refusal::TooManyPeriods,
        offset: at,
    })
}

// Reads a period; its end, or its bad field, lies within the bytes.
fn read_period(bytes: &[u8], road: &[u32; 452]) -> Result<usize, Refused>
    ensures { MatchResult result (λ used. used ≤ length bytes.now) (λ refused. refused.offset ≤ length bytes.now) }
{
    let sheet = sheets::read_period(bytes, road)?;
    Ok(sheet.used)
}

// Where the period ends that starts at a place.
fn period_end(bytes: &[u8], at: usize, road: &[u32; 452]) -> Result<usize, Refused>
    requires { at ≤ length bytes.now }
{
    let used = read_period(&bytes[at..], road).map_err(|refused| refused.moved_by(at))?;
    Ok(at + used)
}
