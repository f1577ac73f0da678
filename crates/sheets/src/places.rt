// The range of each place of a sheet.
ghost use Rattle.std.specs.Prelude.{◌≡◌, ◌<◌, min, get_or};
ghost use Rattle.sheets.specs.Layout.{segment_table, road_table, road_range, entry_table, lanes_of, period_range, first_range, no_range};

use numbers::Range;
use refusals::Refusal;

// L, N, V, C, R, s, F of a segment.
const SEGMENT: [Range; 7] = [
    Range {
        low: 300,
        high: 26400,
        refusal: Refusal::OutOfRange,
    },
    Range {
        low: 1,
        high: 8,
        refusal: Refusal::OutOfRange,
    },
    Range {
        low: 15,
        high: 85,
        refusal: Refusal::OutOfRange,
    },
    Range {
        low: 1,
        high: 20000,
        refusal: Refusal::OutOfRange,
    },
    Range {
        low: 0,
        high: 10000,
        refusal: Refusal::OutOfRange,
    },
    Range {
        low: 0,
        high: 1000,
        refusal: Refusal::OutOfRange,
    },
    Range {
        low: 0,
        high: 10000,
        refusal: Refusal::OutOfRange,
    },
];

// NS, KJ, KC, A of a road.
const ROAD: [Range; 4] = [
    Range {
        low: 1,
        high: 64,
        refusal: Refusal::OutOfRange,
    },
    Range {
        low: 100,
        high: 300,
        refusal: Refusal::OutOfRange,
    },
    Range {
        low: 30,
        high: 60,
        refusal: Refusal::OutOfRange,
    },
    Range {
        low: 0,
        high: 50,
        refusal: Refusal::OutOfRange,
    },
];

// How many segments a sheet has room for, of so many.
pub fn segments(ns: u32) -> usize
    ensures { result ≡ min ns 64 }
{
    ns.min(64) as usize
}

// The range of the number j of a segment.
// Stays: no plainer. This and the next look one table up each.
pub fn segment_range(j: usize) -> Range
    requires { j < 7 }
    ensures { result ≡ get_or segment_table j no_range }
{
    SEGMENT[j]
}

// The range of the number k at a road's start.
pub fn road_start(k: usize) -> Range
    requires { k < 4 }
    ensures { result ≡ get_or road_table k no_range }
{
    ROAD[k]
}

// The range of the place k of a road.
#[tactic(auto, unfolding(crate::specs::Layout::road_range))]
pub fn road_range(k: usize) -> Range
    ensures { result ≡ road_range k }
{
    if k < 4 {
        return road_start(k);
    }
    segment_range((k - 4) % 7)
}

// The number at a place of a row, 0 past its end.
// Stays: no plainer. The definitions read 0 there too; an Option would be opened with that 0 at each of its callers.
pub fn number_at(row: &[u32], k: usize) -> u32
    ensures { result ≡ get_or row.now k 0 }
{
    row.get(k).copied().unwrap_or(0)
}

// The range of the number j of segment i in a period: ramp demand, meter rate, open lanes.
pub fn entry_range(road: &[u32; 452], i: usize, j: usize) -> Range
    requires { (i < 452) × (j < 3) }
    ensures { result ≡ get_or (entry_table (lanes_of road.now i)) j no_range }
{
    if j < 2 {
        return Range {
            low: 0,
            high: 10000,
            refusal: Refusal::OutOfRange,
        };
    }
    Range {
        low: 1,
        high: number_at(road, 4 + 7 * i + 1),
        refusal: Refusal::OutOfRange,
    }
}

// The range of the place k of a period of a road of ns segments.
#[tactic(auto, unfolding(crate::specs::Layout::period_range))]
pub fn period_range(ns: u32, road: &[u32; 452], k: usize) -> Range
    requires { k < 452 }
    ensures { result ≡ period_range ns road.now k }
{
    if k == 0 {
        return Range {
            low: 1u32.max(ns),
            high: ns.min(64),
            refusal: Refusal::OtherRoad,
        };
    }
    if k < 3 {
        return Range {
            low: 0,
            high: 20000,
            refusal: Refusal::OutOfRange,
        };
    }
    entry_range(road, (k - 3) / 3, (k - 3) % 3)
}

// The same in the first layout: after the first three numbers ramp demands and meter rates.
#[tactic(auto, unfolding(crate::specs::Layout::first_range))]
pub fn first_range(ns: u32, road: &[u32; 452], k: usize) -> Range
    requires { k < 452 }
    ensures { result ≡ first_range ns road.now k }
{
    if k < 3 {
        return period_range(ns, road, k);
    }
    Range {
        low: 0,
        high: 10000,
        refusal: Refusal::OutOfRange,
    }
}
