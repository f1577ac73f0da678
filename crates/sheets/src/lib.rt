// Road and period sheets: rows of numbers in field order, each in the range that the sheet's layout gives its place.
#![tactic(auto)]

pub mod places;
mod writing;

ghost use Rattle.std.specs.Prelude.{◌≡◌, ◌<◌, ◌≤◌, length, take};
ghost use Rattle.numbers.specs.Filled.{rows, filled};
ghost use Rattle.numbers.specs.Writing.{writing, write_answer, write_into};
ghost use Rattle.sheets.specs.Layout.{range_of, count_of};
ghost use Rattle.sheets.specs.Read.{field_of, read_row, read_road, read_period};
ghost use Rattle.sheets.specs.Write.{row_bytes};

use numbers::reader::{Fields, Row};
use numbers::{Number, Range};
use refusals::{Refusal, Refused};

// A sheet that was read: its numbers in field order with zeros after them, and the count of bytes used.
// Stays: fixed memory. With no heap, sheets of every layout share a row of the largest one's 452 numbers, and a number is found by its place; the layout counts them.
pub type Sheet = Row<452>;

// A road of so many segments, or a period of a road of so many; the first layout of a period has no open lanes.
#[derive(Clone, Copy, Debug, PartialEq, Eq)]
pub enum Layout {
    Road(u32),
    Period(u32),
    FirstPeriod(u32),
}

impl Layout {
    // How many numbers a sheet of the layout has.
    #[tactic(auto, unfolding(crate::specs::Layout::count_of))]
    pub fn count(self) -> usize
        ensures { result ≡ count_of self }
    {
        match self {
            Layout::Road(ns) => 4 + 7 * places::segments(ns),
            Layout::Period(ns) => 3 + 3 * places::segments(ns),
            Layout::FirstPeriod(ns) => 3 + 2 * places::segments(ns),
        }
    }

    // The range of the place k: a period's by its road too, a road's own by no road.
    // Stays: no plainer. That k is a place of a row is asked here and of each function below, as of every index: what is known of a lent row is not its length.
    #[tactic(auto, unfolding(crate::specs::Layout::range_of))]
    pub fn range_at(self, road: &[u32; 452], k: usize) -> Range
        requires { k < 452 }
        ensures { result ≡ range_of self road.now k }
    {
        match self {
            Layout::Road(_) => places::road_range(k),
            Layout::Period(ns) => places::period_range(ns, road, k),
            Layout::FirstPeriod(ns) => places::first_range(ns, road, k),
        }
    }
}

// How each place of a sheet of a layout on a road is read: by its range.
#[derive(Clone, Copy)]
struct OnRoad<'a> {
    layout: Layout,
    road: &'a [u32; 452],
}

impl Fields<452> for OnRoad<'_> {
    ghost field = { λ s. field_of s.layout s.road.now };

    fn read_place(&self, bytes: &[u8], k: usize, at: usize) -> Result<Number, Refusal> {
        numbers::read_field(bytes, at, self.layout.range_at(self.road, k))
    }
}

// Reads a sheet of a layout on a road.
#[tactic(auto, using(crate::proofs::Ranges::count_most), unfolding(crate::specs::Read::read_row))]
pub fn read_sheet(bytes: &[u8], layout: Layout, road: &[u32; 452]) -> Result<Sheet, Refused>
    ensures { rows result ≡ filled 452 (read_row layout road.now bytes.now) }
{
    numbers::reader::read_fields(&OnRoad { layout, road }, bytes, 0, layout.count())
}

// Reads a road sheet. Its first number says how many segments follow, and its ranges ask for no road.
#[tactic(auto, using(crate::proofs::Turns::road_alone), unfolding(crate::specs::Read::read_road, crate::specs::Read::road_from, numbers::specs::Filled::filled))]
pub fn read_road(bytes: &[u8]) -> Result<Sheet, Refused>
    ensures { rows result ≡ filled 452 (read_road bytes.now) }
{
    let segments = numbers::read_field(bytes, 0, places::road_range(0))?;
    // Stays: no plainer. A row of zeros is no road: a layout that held its road would lend it to the writer too, which asks for none.
    read_sheet(bytes, Layout::Road(segments.value), &[0u32; 452])
}

// Reads a period sheet of a road.
#[tactic(auto, unfolding(crate::specs::Read::read_period))]
pub fn read_period(bytes: &[u8], road: &[u32; 452]) -> Result<Sheet, Refused>
    ensures { rows result ≡ filled 452 (read_period road.now bytes.now) }
{
    read_sheet(bytes, Layout::Period(road[0]), road)
}

// How many bytes the first n numbers of a row take.
pub fn bytes_of(row: &[u32; 452], n: usize) -> usize
    requires { n ≤ 452 }
    ensures { result ≡ length (row_bytes (take n row.now)) }
{
    writing::row_length(&row[..n])
}

// Writes the numbers of a row that its layout counts, and says how many bytes; the buffer stays as it was where the rest is too short.
#[tactic(auto, using(crate::proofs::Ranges::count_most))]
pub fn write_sheet(
    buffer: &mut [u8],
    at: usize,
    layout: Layout,
    row: &[u32; 452],
) -> Result<usize, Refusal>
    ensures { (writing result ≡ write_answer buffer.old at (row_bytes (take (count_of layout) row.now)))
        × (buffer.new ≡ write_into buffer.old at (row_bytes (take (count_of layout) row.now))) }
{
    writing::write_row(buffer, at, &row[..layout.count()])
}
