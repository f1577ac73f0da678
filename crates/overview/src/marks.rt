// What is told of a segment in a period, and of all of them.

ghost use Rattle.std.specs.Prelude.{◌≡◌, ◌+◌, ◌≤◌, ◌<◌};
ghost use Rattle.facility.specs.Calls.{report_of};
ghost use Rattle.overview.specs.Course.{row_by};
ghost use Rattle.overview.specs.View.{mark_at};

use door::Facility;
use levels::Level;

// A segment in a period: its letter at the end, and the lanes that were open.
#[derive(Clone, Copy, Debug, PartialEq, Eq)]
pub struct Mark {
    pub letter: Level,
    pub lanes: u32,
}

// The mark of no segment.
pub const NO_MARK: Mark = Mark {
    letter: Level::A,
    lanes: 0,
};

// A road by its numbers, how many periods were run on it, and each period's row: a mark for each segment. Behind them are marks of none.
#[derive(Clone, Copy)]
pub struct Course {
    pub road: [u32; 452],
    pub periods: u32,
    // Stays: fixed memory (no heap), so that there are rows for the longest study.
    pub rows: [[Mark; 64]; 96],
}

// The letter of segment i, counted from 0, by its report; A where that is refused.
fn letter_at(f: &Facility, i: u32) -> Level
    requires { i < 64 }
    ensures { result ≡ (report_of f.now (i + 1)).level }
{
    match facility::report(f, i + 1) {
        Ok(report) => report.level,
        Err(_) => Level::A,
    }
}

// The mark of segment i, counted from 0, by a facility's report and its sheet in force.
#[tactic(auto, unfolding(crate::specs::View::mark_at))]
fn mark_at(f: &Facility, i: u32) -> Mark
    requires { i < 64 }
    ensures { result ≡ mark_at f.now i }
{
    Mark {
        letter: letter_at(f, i),
        lanes: facility::lanes_at(f, i as usize),
    }
}

// The marks of so many segments.
pub fn row_of(f: &Facility, segments: u32) -> [Mark; 64]
    requires { segments ≤ 64 }
    ensures { result ≡ row_by (mark_at f.now) segments }
{
    let mut row = [NO_MARK; 64];
    for i in 0..segments {
        row[i as usize] = mark_at(f, i);
    }
    row
}
