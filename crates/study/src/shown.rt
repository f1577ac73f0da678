// What a forecast shows.

ghost use Rattle.std.specs.Prelude.{◌≡◌, length};

use facility::Sums;
use levels::Level;

// A segment's line of the listing.
#[derive(Clone, Copy, Debug, PartialEq, Eq)]
pub struct Line {
    pub n: u32,
    pub q: u32,
    pub level: Level,
    pub partfeet: u64,
}

// The segments, the totals, the mainline queue before node 1 and the segments' lines; past the last segment there is none.
#[derive(Clone, Copy, Debug, PartialEq, Eq)]
pub struct Listing {
    pub segments: u32,
    pub totals: Sums,
    pub origin: u32,
    // Stays: fixed memory (no heap), so that the lines have the places of the longest road.
    pub lines: [Option<Line>; 64],
    ghost room: { length lines ≡ 64 },
}
