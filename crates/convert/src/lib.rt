// A whole study in the other layout of its period sheets: from the first, without open lanes, to the second with every lane open, and back.
#![tactic(auto)]

ghost use Rattle.std.specs.Prelude.{◌≡◌, ◌+◌, ◌^◌, ◌<◌, ◌≤◌, get_or, length, take, drop, IfOk, MatchOption};
ghost use Rattle.numbers.specs.Writing.{write_into};
ghost use Rattle.sheets.specs.Read.{padded};
ghost use Rattle.numbers.specs.Filled.{rows, filled};
ghost use Rattle.convert.specs.Sheet.{number_in_second, number_in_first, number_to, layout_from, layout_to, converted_row, first_closed, converted_from, converted_sheet};
ghost use Rattle.convert.specs.Convert.{sheets_from, behind, conversion_of, told, convert_of, export_of};
ghost use Rattle.convert.specs.Walked.{walked_of, Filled, placed_rows};

use refusals::{Refusal, Refused};
use sheets::{Layout, Sheet, places};

// A study has at most so many period sheets.
const MOST_SHEETS: usize = 96;

// Where a conversion leads: to the second layout, with open lanes, or to the first, without.
// Stays: no plainer. Four small matches; a trait of two types would state each clause twice.
#[derive(Clone, Copy, Debug, PartialEq, Eq)]
pub enum Way {
    ToSecond,
    ToFirst,
}

impl Way {
    // The layout that a study has before, on a road of so many segments.
    fn layout_from(self, ns: u32) -> Layout
        ensures { result ≡ layout_from self ns }
    {
        match self {
            Way::ToSecond => Layout::FirstPeriod(ns),
            Way::ToFirst => Layout::Period(ns),
        }
    }

    // And the one that it gets.
    fn layout_to(self, ns: u32) -> Layout
        ensures { result ≡ layout_to self ns }
    {
        match self {
            Way::ToSecond => Layout::Period(ns),
            Way::ToFirst => Layout::FirstPeriod(ns),
        }
    }
}

// The number at the place k in the second layout, by the sheet's row in the first.
// Stays: no plainer. This and the next are each the other's way: three numbers a segment by two, with the open lanes of the road, and two by three.
#[tactic(auto, unfolding(crate::specs::Sheet::number_in_second))]
fn number_in_second(road: &[u32; 452], first: &[u32; 452], k: usize) -> u32
    requires { k < 452 }
    ensures { result ≡ number_in_second road.now first.now k }
{
    if k < 3 {
        return places::number_at(first, k);
    }
    let i = (k - 3) / 3;
    let j = (k - 3) % 3;
    if j < 2 {
        return places::number_at(first, 3 + 2 * i + j);
    }
    places::number_at(road, 4 + 7 * i + 1)
}

// The number at the place k in the first layout, by the sheet's row in the second.
#[tactic(auto, unfolding(crate::specs::Sheet::number_in_first))]
fn number_in_first(second: &[u32; 452], k: usize) -> u32
    requires { k < 452 }
    ensures { result ≡ number_in_first second.now k }
{
    if k < 3 {
        return places::number_at(second, k);
    }
    places::number_at(second, 3 + 3 * ((k - 3) / 2) + (k - 3) % 2)
}

// The first of ns segments, counted from 0, that has a lane closed.
fn first_closed(road: &[u32; 452], second: &[u32; 452], ns: u32) -> Option<usize>
    ensures { MatchOption result (first_closed road.now second.now ns 0 ≡ ns) (λ i. (i < ns) × (first_closed road.now second.now ns 0 ≡ i)) }
{
    (0..ns as usize).find(|&i| {
        places::number_at(second, 3 + 3 * i + 2) < places::number_at(road, 4 + 7 * i + 1)
    })
}

// A conversion on a road: what becomes of a sheet depends on both.
#[derive(Clone, Copy)]
struct Converter<'a> {
    way: Way,
    road: &'a [u32; 452],
}

impl Converter<'_> {
    // The number at the place k of a converted sheet, by its row before.
    fn number(&self, row: &[u32; 452], k: usize) -> u32
        requires { k < 452 }
        ensures { result ≡ number_to self.now.way self.now.road.now row.now k }
    {
        match self.way {
            Way::ToSecond => number_in_second(self.road, row, k),
            Way::ToFirst => number_in_first(row, k),
        }
    }

    // The row of a converted sheet.
    #[tactic(auto, using(sheets::proofs::Ranges::count_most, crate::proofs::Loops::value_none, crate::proofs::Loops::value_more), unfolding(crate::specs::Sheet::converted_row))]
    fn row(&self, row: &[u32; 452]) -> [u32; 452]
        ensures { result ≡ padded (converted_row self.now.way self.now.road.now row.now) }
    {
        let n = self.way.layout_to(self.road[0]).count();
        let mut other = [0u32; 452];
        for k in 0..n {
            other[k] = self.number(row, k);
        }
        other
    }

    // A sheet that was read, converted: refused where it has a lane closed, and the way leads to the first layout.
    #[tactic(auto, unfolding(crate::specs::Sheet::converted_from, crate::specs::Sheet::open_lanes_place, numbers::specs::Filled::filled))]
    fn converted(&self, sheet: &Sheet) -> Result<Sheet, Refused>
        requires { get_or self.now.road.now 0 0 ≤ 64 }
        ensures { rows result ≡ filled 452 (converted_from self.now.way self.now.road.now sheet.now.numbers sheet.now.used) }
    {
        if self.way == Way::ToFirst {
            if let Some(segment) = first_closed(self.road, &sheet.numbers, self.road[0]) {
                return Err(Refused {
                    refusal: Refusal::LaneClosed,
                    offset: sheets::bytes_of(&sheet.numbers, 3 + 3 * segment + 2),
                });
            }
        }
        Ok(Sheet {
            numbers: self.row(&sheet.numbers),
            used: sheet.used,
        })
    }

    // The sheet at the start of the bytes, converted.
    #[tactic(auto, using(crate::proofs::Read::unread, crate::proofs::Read::few, crate::proofs::Read::was_read))]
    fn sheet(&self, bytes: &[u8]) -> Result<Sheet, Refused>
        ensures { rows result ≡ filled 452 (converted_sheet self.now.way self.now.road.now bytes.now) }
    {
        let sheet = sheets::read_sheet(bytes, self.way.layout_from(self.road[0]), self.road)?;
        self.converted(&sheet)
    }

    // The sheet at a place of the study, converted; a refusal has its offset from the study's start.
    #[tactic(auto, using(sheets::proofs::Within::rest_of, crate::proofs::Walking::place_near), unfolding(crate::specs::Walked::placed_rows))]
    fn sheet_at(&self, study: &[u8], at: usize) -> Result<Sheet, Refused>
        requires { at ≤ length study.now }
        ensures { rows result ≡ placed_rows at (filled 452 (converted_sheet self.now.way self.now.road.now (drop at study.now))) }
    {
        self.sheet(&study[at..]).map_err(
            |refused|
                requires { at + refused.offset < 2 ^ 64 }
            { refused.moved_by(at) },
        )
    }

    // Walks over the sheets from a place of the study on, the part before them copied: tells how many bytes the study takes in the other
    // layout, and writes each sheet where out has room.
    #[tactic(auto, using(sheets::proofs::Ranges::count_most, crate::proofs::Walking::turn_start))]
    fn walk_sheets(&self, study: &[u8], start: usize, out: &mut [u8]) -> Result<usize, Refused>
        requires { start ≤ length study.now }
        ensures { (told result ≡ walked_of (behind (take start study.now) (sheets_from (converted_sheet self.now.way self.now.road.now) 96 study.now start)))
            × Filled (behind (take start study.now) (sheets_from (converted_sheet self.now.way self.now.road.now) 96 study.now start)) out.old out.new }
    {
        let layout = self.way.layout_to(self.road[0]);
        copy_start(&study[..start], out);
        let mut at = start;
        let mut count = start;
        for _ in 0..MOST_SHEETS {
            if at == study.len() {
                return Ok(count);
            }
            let sheet = self.sheet_at(study, at)?;
            let _ = sheets::write_sheet(out, count, layout, &sheet.numbers);
            count += sheets::bytes_of(&sheet.numbers, layout.count());
            at += sheet.used;
        }
        if at < study.len() {
            return Err(Refused {
                refusal: Refusal::TooManyPeriods,
                offset: at,
            });
        }
        Ok(count)
    }
}

// Copies a part of the study to the start of out, where it has room for it.
// Stays: the C interface. With `copy_from_slice` the archive asks whoever links it for `memmove`, which it did not need before.
#[tactic(auto, unfolding(numbers::specs::Writing::write_into, numbers::specs::Writing::room_at))]
fn copy_start(part: &[u8], out: &mut [u8])
    ensures { out.new ≡ write_into out.old 0 part.now }
{
    if out.len() < part.len() {
        return;
    }
    for i in 0..part.len() {
        out[i] = part[i];
    }
}

// Walks over a study: tells how many bytes it takes in the other layout, and writes it where out has room for it.
#[tactic(auto, using(crate::proofs::Replies::no_road, crate::proofs::Replies::on_road, crate::proofs::Replies::road_inside))]
fn walk(way: Way, study: &[u8], out: &mut [u8]) -> Result<usize, Refused>
    ensures { (told result ≡ walked_of (conversion_of way study.now))
        × Filled (conversion_of way study.now) out.old out.new }
{
    let road = sheets::read_road(study)?;
    let converter = Converter {
        way,
        road: &road.numbers,
    };
    converter.walk_sheets(study, road.used, out)
}

// Converts a study, where the way leads: a walk that writes nothing tells whether it converts and fits, and only then the target is written.
#[tactic(auto, using(crate::proofs::Replies::call_refused, crate::proofs::Replies::call_short, crate::proofs::Replies::call_written))]
pub fn convert(way: Way, study: &[u8], target: &mut [u8]) -> Result<usize, Refused>
    ensures reply { record { answer = told result; target = target.new } ≡ convert_of way study.now target.old }
    ensures within { IfOk result (λ count. count ≤ length target.new) }
{
    let count = walk(way, study, &mut [])?;
    if target.len() < count {
        return Err(Refused::from(Refusal::NoRoom));
    }
    walk(way, study, target)
}

// Stays: the C interface. Numbers tell the result.
// `convert` for C and Rust: the refusal's number, 0 for none, is the answer; count gets that of the bytes written, or the refusal's offset.
// The crate `convert_c` exports it, for each way.
#[tactic(auto, unfolding(crate::specs::Convert::export_of))]
pub fn freeway_convert(way: Way, study: &[u8], target: &mut [u8], count: &mut u64) -> u64
    ensures { record { refusal = result; count = count.new; target = target.new } ≡ export_of way study.now target.old }
{
    match convert(way, study, target) {
        Ok(written) => {
            *count = written as u64;
            0
        }
        Err(refused) => {
            *count = refused.offset as u64;
            u64::from(refused.refusal.number())
        }
    }
}
