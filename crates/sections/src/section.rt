// One section of the sheet, and what it carries over and answers under a demand.
ghost use Rattle.std.specs.Prelude.{◌≤◌};

use crate::answer::Answer;
use crate::table;
pub use crate::work::Work;

// Length in feet, lanes, free-flow speed, capacity factor in thousandths, and the flows in and out. The arithmetic rests on their ranges.
#[derive(Clone, Copy)]
pub struct Section {
    pub length: u32,
    pub lanes: u32,
    pub ffs: u32,
    pub caf: u32,
    pub inflow: u32,
    pub outflow: u32,
    pub ghost short: { length ≤ 26400 },
    pub ghost narrow: { lanes ≤ 8 },
    pub ghost fast: { 55 ≤ ffs },
    pub ghost share: { caf ≤ 1000 },
    pub ghost enters: { inflow ≤ 20000 },
    pub ghost leaves: { outflow ≤ 20000 },
}

impl Section {
    ghost use Rattle.std.specs.Prelude.{◌≡◌};
    ghost use Rattle.sections.specs.Section.{outcome, capacity_of, carried_of, area_of, answer_of};
    ghost use Rattle.sections.specs.Numbers.{numbers_of};

    #[tactic(auto, unfolding(crate::specs::Section::capacity_of))]
    pub fn capacity(self) -> u32
        ensures { result ≡ capacity_of (numbers_of self) }
    {
        (2200 + 10 * (70.min(self.ffs) - 50)) * self.lanes * self.caf / 1000
    }

    // What it carries over to the next period.
    #[tactic(auto, unfolding(crate::specs::Section::carried_of))]
    pub fn carried(self, demand: u32) -> u32
        ensures { result ≡ carried_of (numbers_of self) demand }
    {
        demand.saturating_sub(self.capacity())
    }

    // Lane-feet.
    pub fn area(self) -> u32
        ensures value { result ≡ area_of (numbers_of self) }
        ensures small { result ≤ 211200 }
    {
        self.length * self.lanes
    }

    #[tactic(auto, unfolding(crate::specs::Section::answer_of))]
    pub fn answer(self, demand: u32) -> Answer
        ensures { outcome result ≡ answer_of (numbers_of self) demand }
    {
        let row = table::row_of(self.ffs);
        let capacity = self.capacity();
        Work::of(row, self, capacity, demand).judged(row, capacity, demand)
    }
}
