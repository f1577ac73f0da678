// A facility as a value, and the test at the door: what every facility has that a laying and calls can produce.
#![tactic(auto)]

ghost use Rattle.std.specs.Prelude.{◌≡◌, ◌≤◌, ◌&&◌};
ghost use Rattle.std.specs.List.{list_all};
ghost use Rattle.conditions.specs.Conditions.{segments};
ghost use Rattle.door.specs.Sound.{steps_by, counted, sheeted, cell_bounded, state_bounded, tally_bounded, tallies_bounded, driven_bounded, partfeet_bounded, sums_bounded, sound};

use segment::{Cell, Tally};
use steps::State;

// Stays: no plainer. That no sheet is in force is told by the count of those taken; an Option for the sheet would tell it twice.
// A road that is laid, the period sheet in force with the sheets taken so far and the steps made under the last, the state of the
// step rules, each segment's totals and its part-feet, and the sums: arrived, left and part-steps.
#[derive(Clone, Copy)]
pub struct Facility {
    pub road: [u32; 452],
    pub period: [u32; 452],
    pub taken: u32,
    pub made: u32,
    pub state: State,
    pub tallies: [Tally; 64],
    pub partfeet: [u64; 64],
    pub arrived: u64,
    pub left: u64,
    pub partsteps: u64,
}

// Whether a cell is within what t steps can leave.
// Stays: no plainer. That t is at most 5,760 is what its products need, as in the tests below.
#[tactic(auto, unfolding(crate::specs::Sound::cell_bounded))]
fn is_cell_bounded(t: u32, cell: &Cell) -> bool
    requires { t ≤ 5760 }
    ensures { result ≡ cell_bounded t cell.now }
{
    (cell.n <= 2880000) & ((cell.q <= 10000 * t) & (cell.remainder <= 999))
}

// The same of all cells.
fn are_cells_bounded(t: u32, cells: &[Cell]) -> bool
    requires { t ≤ 5760 }
    ensures { result ≡ list_all (cell_bounded t) cells.now }
{
    cells.iter().all(|cell| is_cell_bounded(t, cell))
}

// The same of a state, of so many segments.
fn is_state_bounded(ns: usize, t: u32, state: &State) -> bool
    requires { (ns ≤ 64) × (t ≤ 5760) }
    ensures { result ≡ state_bounded ns t state.now }
{
    are_cells_bounded(t, &state.cells[..ns]) & (state.origin <= 20000 * t)
}

// Whether a segment's totals are within what t steps can leave.
#[tactic(auto, unfolding(crate::specs::Sound::tally_bounded))]
fn is_tally_bounded(t: u32, tally: &Tally) -> bool
    requires { t ≤ 5760 }
    ensures { result ≡ tally_bounded t tally.now }
{
    (tally.off <= 10000 * t) & (tally.out <= 20000 * t)
}

// The same of every segment.
fn are_tallies_bounded(t: u32, tallies: &[Tally]) -> bool
    requires { t ≤ 5760 }
    ensures { result ≡ list_all (tally_bounded t) tallies.now }
{
    tallies.iter().all(|tally| is_tally_bounded(t, tally))
}

// Whether each segment's part-feet are within what t steps can leave.
#[tactic(auto, unfolding(crate::specs::Sound::driven_bounded))]
fn are_partfeet_bounded(t: u64, partfeet: &[u64]) -> bool
    requires { t ≤ 5760 }
    ensures { result ≡ list_all (driven_bounded t) partfeet.now }
{
    partfeet.iter().all(|own| *own <= 528000000 * t)
}

impl Facility {
    // The steps made so far.
    #[tactic(auto, unfolding(crate::specs::Sound::steps_by))]
    fn steps(&self) -> u32
        requires { (self.now.taken ≤ 96) × (self.now.made ≤ 60) }
        ensures { (result ≡ steps_by self.now.taken self.now.made) × (result ≤ 5760) }
    {
        (60 * self.taken + self.made).saturating_sub(60)
    }

    // Whether its counts are those of at most 96 sheets of 60 steps.
    #[tactic(auto, unfolding(crate::specs::Sound::counted))]
    fn is_counted(&self) -> bool
        ensures { result ≡ counted self.now.taken self.now.made }
    {
        (self.taken <= 96) & (self.made <= 60)
    }

    // Whether the sheet in force, if there is one, is a period of its road.
    #[tactic(auto, unfolding(crate::specs::Sound::sheeted))]
    fn is_sheeted(&self) -> bool
        ensures { result ≡ sheeted self.now.taken self.now.road self.now.period }
    {
        self.taken == 0 || parts::is_period(&self.road, &self.period)
    }

    // Whether its sums are within what t steps can leave.
    #[tactic(auto, unfolding(crate::specs::Sound::sums_bounded))]
    fn are_sums_bounded(&self, t: u64) -> bool
        requires { t ≤ 5760 }
        ensures { result ≡ sums_bounded t self.now.arrived self.now.left self.now.partsteps }
    {
        (self.arrived <= 660000 * t)
            & ((self.left <= 660000 * t) & (self.partsteps <= 3801600000 * t))
    }

    // Whether its state, its totals, its part-feet and its sums are within what the steps made so far can leave.
    #[tactic(auto, unfolding(parts::specs::Parts::road_globals))]
    fn is_bounded(&self) -> bool
        requires { (segments self.now.road ≤ 64) × (self.now.taken ≤ 96) × (self.now.made ≤ 60) }
        ensures { result ≡ (state_bounded (segments self.now.road) (steps_by self.now.taken self.now.made) self.now.state
            && (tallies_bounded (segments self.now.road) (steps_by self.now.taken self.now.made) self.now.tallies
            && (partfeet_bounded (segments self.now.road) (steps_by self.now.taken self.now.made) self.now.partfeet
            && sums_bounded (steps_by self.now.taken self.now.made) self.now.arrived self.now.left self.now.partsteps))) }
    {
        let t = self.steps();
        let ns = self.road[0] as usize;
        is_state_bounded(ns, t, &self.state)
            & (are_tallies_bounded(t, &self.tallies[..ns])
                & (are_partfeet_bounded(u64::from(t), &self.partfeet[..ns])
                    & self.are_sums_bounded(u64::from(t))))
    }

    // Whether it has what a laying and calls produce; any other is the empty facility.
    #[tactic(auto, using(crate::proofs::Sound::counts, crate::proofs::Sound::few_segments), unfolding(crate::specs::Sound::sound))]
    pub fn is_sound(&self) -> bool
        ensures { result ≡ sound self.now }
    {
        parts::is_road(&self.road)
            && (self.is_counted() && (self.is_sheeted() && self.is_bounded()))
    }
}
