// A road and a period by their parts: whether their numbers are in their ranges, and each number by its name.
#![tactic(auto)]

ghost use Rattle.std.specs.Prelude.{◌≡◌, ◌+◌, ◌*◌, ◌<◌, get_or};
ghost use Rattle.sheets.specs.Layout.{segment_table, road_table, entry_table, lanes_of, period_range, no_range};
ghost use Rattle.parts.specs.Allowed.{within, all_below, road_allowed, period_allowed};
ghost use Rattle.parts.specs.Parts.{road_globals, segment_of, period_globals, entry_of};

use numbers::Range;
use sheets::places;
use sheets::places::number_at;

// Whether the number at the place k of the row is in the range.
#[tactic(auto, unfolding(crate::specs::Allowed::within))]
fn is_within(range: Range, row: &[u32; 452], k: usize) -> bool
    requires { k < 452 }
    ensures { result ≡ within range (get_or row.now k 0) }
{
    (range.low..=range.high).contains(&row[k])
}

// Stays: no plainer. Four tests of as many numbers of a row, each an `all` in one line; one of them all would take a closure for the range of a number.
// Whether the first four numbers of a road are in their ranges.
fn is_start(row: &[u32; 452]) -> bool
    ensures { result ≡ all_below (λ k. within (get_or road_table k no_range) (get_or row.now k 0)) 4 }
{
    (0..4).all(|k: usize| is_within(places::road_start(k), row, k))
}

// Whether the seven numbers of segment i are in their ranges.
fn is_segment(row: &[u32; 452], i: usize) -> bool
    requires { i < 64 }
    ensures { result ≡ all_below (λ j. within (get_or segment_table j no_range) (get_or row.now (4 + 7 * i + j) 0)) 7 }
{
    (0..7).all(|j: usize| is_within(places::segment_range(j), row, 4 + 7 * i + j))
}

// Whether the first three numbers of a period of a road of ns segments are in their ranges.
fn is_opening(ns: u32, road: &[u32; 452], row: &[u32; 452]) -> bool
    ensures { result ≡ all_below (λ k. within (period_range ns road.now k) (get_or row.now k 0)) 3 }
{
    (0..3).all(|k: usize| is_within(places::period_range(ns, road, k), row, k))
}

// Whether the three numbers of segment i in a period are in their ranges.
fn is_entry(road: &[u32; 452], row: &[u32; 452], i: usize) -> bool
    requires { i < 64 }
    ensures { result ≡ all_below (λ j. within (get_or (entry_table (lanes_of road.now i)) j no_range) (get_or row.now (3 + 3 * i + j) 0)) 3 }
{
    (0..3).all(|j: usize| is_within(places::entry_range(road, i, j), row, 3 + 3 * i + j))
}

// Whether the numbers that a road counts are in their ranges, as those of every reading are.
// Stays: slower. Two tests, by groups, since one of every place by its `Layout::range_at` takes 4.3 times as long (1,190 ns for 275).
pub fn is_road(row: &[u32; 452]) -> bool
    ensures { result ≡ road_allowed row.now }
{
    is_start(row) && (0..places::segments(row[0])).all(|i: usize| is_segment(row, i))
}

// The same of a period on a road.
pub fn is_period(road: &[u32; 452], row: &[u32; 452]) -> bool
    ensures { result ≡ period_allowed road.now row.now }
{
    is_opening(road[0], road, row)
        && (0..places::segments(road[0])).all(|i: usize| is_entry(road, row, i))
}

// A road's first four numbers: NS, KJ, KC, A.
#[derive(Clone, Copy)]
pub struct RoadGlobals {
    pub segments: u32,
    pub jam: u32,
    pub critical: u32,
    pub cut: u32,
}

// A segment: L, N, V, C, R, s, F.
#[derive(Clone, Copy)]
pub struct Segment {
    pub length: u32,
    pub lanes: u32,
    pub speed: u32,
    pub capacity: u32,
    pub onramp: u32,
    pub share: u32,
    pub offramp: u32,
}

// A period's first three numbers: NS, the mainline demand, X.
#[derive(Clone, Copy)]
pub struct PeriodGlobals {
    pub segments: u32,
    pub demand: u32,
    pub outlet: u32,
}

// A segment's entry in a period: the ramp's demand and meter rate, and how many lanes are open.
#[derive(Clone, Copy)]
pub struct Entry {
    pub demand: u32,
    pub meter: u32,
    pub opened: u32,
}

// A road's first numbers.
#[tactic(auto, unfolding(crate::specs::Parts::road_globals))]
pub fn globals_of_road(row: &[u32; 452]) -> RoadGlobals
    ensures { result ≡ road_globals row.now }
{
    RoadGlobals {
        segments: row[0],
        jam: row[1],
        critical: row[2],
        cut: row[3],
    }
}

// The segment i of a road, counted from 0.
#[tactic(auto, unfolding(crate::specs::Parts::segment_of))]
pub fn segment_at(row: &[u32; 452], i: u32) -> Segment
    ensures { result ≡ segment_of row.now i }
{
    let k = 4 + 7 * (i as usize);
    Segment {
        length: number_at(row, k),
        lanes: number_at(row, k + 1),
        speed: number_at(row, k + 2),
        capacity: number_at(row, k + 3),
        onramp: number_at(row, k + 4),
        share: number_at(row, k + 5),
        offramp: number_at(row, k + 6),
    }
}

// A period's first numbers.
#[tactic(auto, unfolding(crate::specs::Parts::period_globals))]
pub fn globals_of_period(row: &[u32; 452]) -> PeriodGlobals
    ensures { result ≡ period_globals row.now }
{
    PeriodGlobals {
        segments: row[0],
        demand: row[1],
        outlet: row[2],
    }
}

// The entry of segment i in a period, counted from 0.
#[tactic(auto, unfolding(crate::specs::Parts::entry_of))]
pub fn entry_at(row: &[u32; 452], i: u32) -> Entry
    ensures { result ≡ entry_of row.now i }
{
    let k = 3 + 3 * (i as usize);
    Entry {
        demand: number_at(row, k),
        meter: number_at(row, k + 1),
        opened: number_at(row, k + 2),
    }
}
