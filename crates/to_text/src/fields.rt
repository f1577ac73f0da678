// The fields of a study by name: its sheets, and the places of their numbers.

ghost use Rattle.std.specs.Prelude.{◌<◌, length};

use numbers::Range;
use sheets::Layout;
use std::fmt;

// The names of a road's first fields, and of those that each segment has.
const ROAD: [&str; 4] = [
    "NS, segments",
    "KJ, jam density",
    "KC, density at capacity",
    "A, capacity drop in percent",
];

const SEGMENT: [&str; 7] = [
    "L, length in feet",
    "N, lanes",
    "V, free-flow speed in mi/h",
    "C, capacity",
    "R, on-ramp capacity",
    "s, off-ramp share in thousandths",
    "F, off-ramp capacity",
];

// The same of a period.
const PERIOD: [&str; 3] = ["NS, segments", "mainline demand", "X, exit capacity"];

const ENTRY: [&str; 3] = ["ramp demand", "meter rate", "open lanes"];

// A part of a study: its road, or a period, counted from 1.
#[derive(Clone, Copy, Debug, PartialEq, Eq, PartialOrd, Ord)]
pub enum Part {
    Road,
    Period(u32),
}

impl Part {
    // The part behind it.
    fn next(self) -> Part {
        match self {
            Part::Road => Part::Period(1),
            Part::Period(i) => Part::Period(i.saturating_add(1)),
        }
    }

    // Its layout in a study of so many segments.
    fn layout(self, segments: u32) -> Layout {
        match self {
            Part::Road => Layout::Road(segments),
            Part::Period(_) => Layout::Period(segments),
        }
    }
}

impl fmt::Display for Part {
    fn fmt<W: fmt::Write>(&self, f: &mut fmt::Formatter<W>) -> fmt::Result {
        match self {
            Part::Road => write!(f, "road"),
            Part::Period(i) => write!(f, "period {i}"),
        }
    }
}

// A field of a study: a place in a part's sheet.
#[derive(Clone, Copy, Debug, PartialEq, Eq)]
pub struct Field {
    pub part: Part,
    pub place: usize,
}

impl Field {
    // The first field of a part.
    pub fn first_of(part: Part) -> Field {
        Field { part, place: 0 }
    }

    // The field behind it in a study of so many segments: at the next place, or the first of the next part.
    pub fn next(self, segments: u32) -> Field {
        let Field { part, place } = self;
        let place = place.saturating_add(1);
        if place < part.layout(segments).count() {
            return Field { part, place };
        }
        Field::first_of(part.next())
    }

    // Its range in a study of so many segments, a period's by the road too. No sheet has a place past 451.
    pub fn range(self, segments: u32, road: &[u32; 452]) -> Range {
        self.part
            .layout(segments)
            .range_at(road, self.place.min(451))
    }
}

// Its name.
impl fmt::Display for Field {
    fn fmt<W: fmt::Write>(&self, f: &mut fmt::Formatter<W>) -> fmt::Result {
        match self.part {
            Part::Road => write_name(f, &ROAD, &SEGMENT, self.place),
            Part::Period(_) => write_name(f, &PERIOD, &ENTRY, self.place),
        }
    }
}

// The name at a place: the first fields come before those of each segment.
fn write_name<W: fmt::Write>(
    f: &mut fmt::Formatter<W>,
    first: &[&str],
    each: &[&str],
    place: usize,
) -> fmt::Result
    requires { 1 < length each.now }
{
    if place < first.len() {
        let name = first[place];
        return write!(f, "{name}");
    }
    let behind = place - first.len();
    let segment = behind / each.len() + 1;
    let name = each[behind % each.len()];
    write!(f, "segment {segment}: {name}")
}
