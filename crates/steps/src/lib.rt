// One step of the road under the conditions in force, part by part and in place.
#![tactic(auto)]

ghost use Rattle.std.specs.Prelude.{◌≡◌, ◌≤◌, ◌<◌};
ghost use Rattle.conditions.specs.View.{conditions_in};
ghost use Rattle.steps.specs.Step.{fresh_state, stepped, arrived_of, left_of, stored_of};
ghost use Rattle.steps.specs.Tallies.{tallied};
ghost use Rattle.steps.specs.Bounded.{Bounded, BoundedTallies};

mod partfeet;

use conditions::Conditions;
pub use partfeet::{drive, partfeet_of};
use segment::{Cell, Tally, flow_at, moved_at, sent_at};

// The road's state: the segments' cells, the mainline queue o before node 1, and of the last step the flow f at the exit.
#[derive(Clone, Copy)]
pub struct State {
    pub cells: [Cell; 64],
    pub origin: u32,
    pub exit: u32,
}

// One step in place: one pass over the segments, which carries what entered the segment at hand, puts each cell after it and the
// next have been read, and adds what left the segment to its totals. The last segment, before the exit, comes after the loop. How many
// parts left in the step is returned.
pub fn step(conditions: &Conditions, state: &mut State, tallies: &mut [Tally; 64]) -> u32
    requires state_bounded { Bounded (conditions_in conditions.now).segments 5760 state.old }
    requires tallies_bounded { BoundedTallies (conditions_in conditions.now).segments 5760 tallies.old }
    ensures { (state.new ≡ stepped (conditions_in conditions.now) state.old)
        × (tallies.new ≡ tallied (conditions_in conditions.now) state.old tallies.old)
        × (result ≡ left_of (conditions_in conditions.now).segments (stepped (conditions_in conditions.now) state.old)) }
{
    let last = conditions.segments as usize - 1;
    let wish = state.origin + conditions.demand;
    let mut came = flow_at(
        conditions.place_at(0),
        state.cells[0],
        wish,
        0 < state.origin,
    );
    state.origin = wish - came.main;
    let mut left: u32 = 0;
    for i in 0..last {
        let place = conditions.place_at(i);
        let sent = sent_at(place, state.cells[i]);
        let next = conditions.place_at(i + 1);
        let ahead = flow_at(next, state.cells[i + 1], sent.most.onward, sent.queued);
        let after = moved_at(place, state.cells[i], came, sent, ahead.main);
        left += after.off;
        tallies[i] = tallies[i].with_step(after);
        state.cells[i] = after;
        came = ahead;
    }
    let place = conditions.place_at(last);
    let sent = sent_at(place, state.cells[last]);
    let exit = sent.most.onward.min(conditions.outlet);
    let after = moved_at(place, state.cells[last], came, sent, exit);
    tallies[last] = tallies[last].with_step(after);
    state.cells[last] = after;
    state.exit = exit;
    exit + left + after.off
}

// Arrived in a step: the mainline demand and all ramp demands.
#[tactic(auto, using(crate::proofs::Sums::sum_more), unfolding(crate::specs::Step::sum_to, crate::specs::Step::arrived_of, conditions::specs::View::conditions_in))]
pub fn arrived(conditions: &Conditions) -> u32
    ensures { result ≡ arrived_of (conditions_in conditions.now) }
{
    let mut sum = conditions.demand;
    for place in &conditions.places[..conditions.segments as usize] {
        sum += place.here.demand;
    }
    sum
}

// Stored in the segments, their queues and before them: all n and q, and o.
#[tactic(auto, using(crate::proofs::Sums::sum_more), unfolding(crate::specs::Step::sum_to, crate::specs::Step::stored_of))]
pub fn stored(ns: usize, state: &State) -> u64
    requires { ns ≤ 64 }
    ensures { result ≡ stored_of ns state.now }
{
    let mut sum: u64 = 0;
    for cell in &state.cells[..ns] {
        sum += u64::from(cell.n) + u64::from(cell.q);
    }
    sum + u64::from(state.origin)
}

impl State {
    // The state of a road just laid.
    pub fn fresh() -> State
        ensures { result ≡ fresh_state }
    {
        State {
            cells: [Cell::default(); 64],
            origin: 0,
            exit: 0,
        }
    }
}
