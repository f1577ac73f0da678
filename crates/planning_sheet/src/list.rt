// The sections of a sheet in order, at most 64.
ghost use Rattle.std.specs.Prelude.{◌≤◌};

use crate::places::Places;
use sections::section::Section;

// Stays: fixed memory. With no heap, a list is an array with its count beside it; callers see the list alone.
#[derive(Clone, Copy)]
pub struct Sections {
    count: usize,
    each: [Section; 64],
    pub ghost few: { count ≤ 64 },
}

// What stands past the count.
const NO_SECTION: Section = Section {
    length: 0,
    lanes: 0,
    ffs: 55,
    caf: 0,
    inflow: 0,
    outflow: 0,
};

impl Sections {
    ghost use Rattle.std.specs.Prelude.{◌≡◌, ◌<◌, length};
    ghost use Rattle.sections.specs.Numbers.{numbers_of};
    ghost use Rattle.planning_sheet.specs.Listing.{first};
    ghost use Rattle.planning_sheet.specs.Sheet.{section_of, section_at};
    ghost use Rattle.planning_sheet.specs.Good.{GoodSections};
    ghost use Rattle.planning_sheet.specs.View.{sections_in};

    // The sections of a row of numbers.
    pub(crate) fn of(places: &Places, row: &[u32; 384]) -> Self
        requires { GoodSections places.now.count row.now }
        ensures { sections_in result ≡ first places.now.count (section_of places.now.count row.now) }
    {
        let count = places.count;
        let mut each = [NO_SECTION; 64];
        for i in 0..count {
            each[i] = places.section_in(row, i);
        }
        Sections { count, each }
    }

    pub fn count(&self) -> usize
        ensures few { result ≤ 64 }
        ensures count { result ≡ length (sections_in self.now) }
    {
        self.count
    }

    // Section i, from 0.
    pub fn at(&self, i: usize) -> Section
        requires { i < length (sections_in self.now) }
        ensures { numbers_of result ≡ section_at (sections_in self.now) i }
    {
        self.each[i]
    }
}
