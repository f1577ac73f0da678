// The planning sheet: the section count, then four numbers of each section, then the two flows of each.
#![tactic(auto)]

ghost use Rattle.std.specs.Prelude.{◌≡◌};
ghost use Rattle.planning_sheet.specs.Sheet.{sections_from, read_sheet};
ghost use Rattle.planning_sheet.specs.View.{sheet_reading};

pub mod list;
mod places;

use list::Sections;
use numbers::{Range, reader};
use places::Places;
use refusals::{Refusal, Refused};

// The sections of a sheet and how many bytes it took.
#[derive(Clone, Copy)]
pub struct Sheet {
    pub sections: Sections,
    pub used: usize,
}

// Reads the numbers of a sheet's places.
#[tactic(auto, using(crate::proofs::Ranges::filled_good), unfolding(crate::specs::Sheet::sections_from, crate::specs::Sheet::sections_of))]
fn read_sections(places: &Places, bytes: &[u8], first: usize) -> Result<Sheet, Refused>
    ensures { sheet_reading result ≡ sections_from places.now.count bytes.now first }
{
    let row = reader::read_fields(places, bytes, first, 6 * places.count)?;
    Ok(Sheet {
        sections: Sections::of(places, &row.numbers),
        used: row.used,
    })
}

// Reads the sheet at the start of the bytes.
#[tactic(auto, using(crate::proofs::Ranges::count_few), unfolding(crate::specs::Sheet::read_sheet, crate::specs::Sheet::sheet_from))]
pub fn read_sheet(bytes: &[u8]) -> Result<Sheet, Refused>
    ensures { sheet_reading result ≡ read_sheet bytes.now }
{
    let range = Range {
        low: 1,
        high: 64,
        refusal: Refusal::OutOfRange,
    };
    let count = numbers::read_field(bytes, 0, range)?;
    let places = Places {
        count: count.value as usize,
    };
    read_sections(&places, bytes, count.next)
}
