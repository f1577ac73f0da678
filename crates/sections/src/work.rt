// The formulas of a section under a demand, each a function of its own.
#![tactic(auto, using(crate::proofs::Literals::literals), unfolding(crate::specs::Section::ratio_of, crate::specs::Section::curve_of, crate::specs::Section::printed_of, crate::specs::Section::under_of, crate::specs::Section::over_of, crate::specs::Section::travel_of, crate::specs::Section::speed_of, crate::specs::Section::density_of, crate::specs::Section::work_of, crate::specs::Section::judged_of))]

ghost use Rattle.std.specs.Prelude.{◌≡◌};
ghost use Rattle.sections.specs.Section.{ratio_of, curve_of, printed_of, under_of, over_of, travel_of, speed_of, density_of, work_of, outcome, judged_of};
ghost use Rattle.sections.specs.Numbers.{numbers_of};

use crate::answer::Answer;
use crate::section::Section;
use crate::table::Row;

fn ratio(demand: u32, capacity: u32) -> f64
    ensures { result ≡ ratio_of demand capacity }
{
    f64::from(demand) / f64::from(capacity)
}

fn curve(row: Row, w: f64) -> f64
    ensures { result ≡ curve_of row w }
{
    ((row.a * w + row.b) * w + row.c) * w + row.d
}

// The delay rate below capacity as it is printed, in seconds a mile.
fn printed(row: Row, ratio: f64) -> f64
    ensures { result ≡ printed_of row ratio }
{
    if ratio < row.e {
        return 0.0;
    }
    // Stays: no plainer. `ratio.min(1.0)` would make 1 of a ratio that is no number, which the definition keeps.
    if 1.0 < ratio {
        return curve(row, 1.0);
    }
    curve(row, ratio)
}

// The delay rate below capacity: zero where the printed one is below zero.
fn under(row: Row, ratio: f64) -> f64
    ensures { result ≡ under_of row ratio }
{
    let printed = printed(row, ratio);
    // Stays: no plainer. `printed.max(0.0)` would make 0 of a rate that is no number, which the definition keeps.
    if printed < 0.0 {
        return 0.0;
    }
    printed
}

// The delay rate above capacity, in seconds a mile.
fn over(length: u32, demand: u32, capacity: u32, ratio: f64) -> f64
    ensures { result ≡ over_of length demand capacity ratio }
{
    if capacity < demand {
        (450.0 / (f64::from(length) / 5280.0)) * (ratio - 1.0)
    } else {
        0.0
    }
}

// Seconds a mile, with the delays.
fn travel(ffs: u32, under: f64, over: f64) -> f64
    ensures { result ≡ travel_of ffs under over }
{
    (under + over) + 3600.0 / f64::from(ffs)
}

fn speed(travel: f64) -> f64
    ensures { result ≡ speed_of travel }
{
    3600.0 / travel
}

fn density(lanes: u32, demand: u32, speed: f64) -> f64
    ensures { result ≡ density_of lanes demand speed }
{
    (f64::from(demand) / speed) / f64::from(lanes)
}

// A section while it is worked out: demand to capacity, the two delay rates, speed and density.
#[derive(Clone, Copy)]
pub struct Work {
    pub ratio: f64,
    pub under: f64,
    pub over: f64,
    pub speed: f64,
    pub density: f64,
}

impl Work {
    pub fn of(row: Row, section: Section, capacity: u32, demand: u32) -> Self
        ensures { result ≡ work_of row (numbers_of section) capacity demand }
    {
        let ratio = ratio(demand, capacity);
        let under = under(row, ratio);
        let over = over(section.length, demand, capacity, ratio);
        let speed = speed(travel(section.ffs, under, over));
        let density = density(section.lanes, demand, speed);
        Work {
            ratio,
            under,
            over,
            speed,
            density,
        }
    }

    // Queued above capacity, free below the row's ratio, else slowed.
    pub fn judged(self, row: Row, capacity: u32, demand: u32) -> Answer
        ensures { outcome result ≡ judged_of row capacity demand self }
    {
        let Work {
            under,
            over,
            speed,
            density,
            ..
        } = self;
        if capacity < demand {
            return Answer::Queued {
                under,
                over,
                speed,
                density,
            };
        }
        if self.ratio < row.e {
            return Answer::Free { speed, density };
        }
        Answer::Slowed {
            under,
            speed,
            density,
        }
    }
}
