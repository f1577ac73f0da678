// The rules at one segment, by its place, which tells what is in force there, and its cell.
#![tactic(auto)]

ghost use Rattle.std.specs.Prelude.{◌≡◌, ◌+◌, ◌≤◌, ◌<◌};
ghost use Rattle.rules.specs.Rules.{entrance, merge};
ghost use Rattle.rules.specs.Outflow.{outflow};
ghost use Rattle.rules.specs.View.{split_in};
ghost use Rattle.segment.specs.Place.{split_of, supply_of, inflow_of, leaving_of, moved_of};
ghost use Rattle.segment.specs.Bounded.{BoundedCell};
ghost use Rattle.segment.specs.Entered.{sent_of, entered, flow_of};
ghost use Rattle.segment.specs.Movable.{Movable};

use conditions::Place;
use rules::{Flow, Outflow, Split, merged, ramp_wish, supply_of, wish_to_leave};

mod tally;

pub use tally::Tally;

// A segment's state: n parts in it and q in its on-ramp's queue; of the last step the mainline flow f and the ramp flow r that
// entered, off(y) that left by the off-ramp, and y that left in all; and the remainder, thousandths of a part that the off-ramp's
// share has left over.
#[derive(Clone, Copy, Default)]
pub struct Cell {
    pub n: u32,
    pub q: u32,
    pub main: u32,
    pub ramp: u32,
    pub off: u32,
    pub out: u32,
    pub remainder: u32,
}

// What enters a segment: the mainline flow f and the ramp flow r, and the ramp's queue that is left.
#[derive(Clone, Copy)]
pub struct Entered {
    pub main: u32,
    pub ramp: u32,
    pub queue: u32,
}

// What a segment sends on: what leaves where Y0 do, of whom those who go on wish to enter at the node ahead, and whether the segment is queued.
#[derive(Clone, Copy)]
pub struct Sent {
    pub most: Outflow,
    pub queued: bool,
}

// Stays: slower. A struct of the place and the cell, its bound in its type and these as methods, proves, but runs of 60 steps take 1.03 to 1.10 of the time.
// What the split at a segment goes by.
#[tactic(auto, unfolding(crate::specs::Place::split_of))]
fn split_of(place: &Place, cell: Cell) -> Split
    requires { cell.remainder < 1000 }
    ensures { split_in result ≡ split_of place.now.here cell }
{
    Split {
        share: place.here.share,
        remainder: cell.remainder,
    }
}

// E.
#[tactic(auto, unfolding(rules::specs::Rules::entrance))]
fn entrance_at(place: &Place, queued: bool) -> u32
    ensures { result ≡ entrance place.now.here.capacity place.now.here.lowered queued }
{
    if queued {
        return place.here.lowered;
    }
    place.here.capacity
}

// P. With fewer parts than `easy` it is E.
#[tactic(auto, using(rules::proofs::Closed::supply_easy, rules::proofs::Formulas::entrance_most), unfolding(crate::specs::Place::supply_of, crate::specs::Place::entrance_of, conditions::specs::Shortcuts::shortcuts_of))]
fn supply_at(place: &Place, cell: Cell, queued: bool) -> u32
    ensures { result ≡ supply_of place.now.here cell queued }
{
    let entrance = entrance_at(place, queued);
    if cell.n < place.short.easy {
        return entrance;
    }
    let here = &place.here;
    supply_of(entrance, here.capacity, here.jam, here.critical, cell.n)
}

// f and r, by P and the two wishes. Where the supply takes both wishes, they are these.
#[tactic(auto, using(rules::proofs::Closed::both_fit))]
fn merged_at(place: &Place, p: u32, m: u32, w: u32) -> Flow
    requires { (m ≤ 115220000) × (w ≤ 10000) }
    ensures { result ≡ merge p place.now.here.lanes m w }
{
    if m + w <= p {
        return Flow { main: m, ramp: w };
    }
    merged(p, place.here.lanes, m, w)
}

// What enters at the entrance of a segment, by the mainline wish and whether a queue stands before the node.
#[tactic(auto, using(rules::proofs::Formulas::ramp_wish_most_limit, crate::proofs::Laws::ramp_queue), unfolding(crate::specs::Place::inflow_of, crate::specs::Place::ramp_wish_of))]
pub fn flow_at(place: &Place, cell: Cell, wish: u32, queued: bool) -> Entered
    requires { BoundedCell 5760 cell × (wish ≤ 115220000) }
    ensures { result ≡ entered (inflow_of place.now.here cell wish queued) (cell.q + place.now.here.demand) }
{
    let here = &place.here;
    let w = ramp_wish(cell.q, here.demand, here.limit);
    let p = supply_at(place, cell, queued);
    let flow = merged_at(place, p, wish, w);
    Entered {
        main: flow.main,
        ramp: flow.ramp,
        queue: cell.q + here.demand - flow.ramp,
    }
}

// What a segment sends on.
#[tactic(auto, unfolding(crate::specs::Entered::sent_of, crate::specs::Place::queued_of, crate::specs::Place::most_of, crate::specs::Place::wish_of, conditions::specs::Shortcuts::shortcuts_of))]
pub fn sent_at(place: &Place, cell: Cell) -> Sent
    requires { BoundedCell 5760 cell }
    ensures { result ≡ sent_of place.now.here cell }
{
    let here = &place.here;
    let split = split_of(place, cell);
    let wish = wish_to_leave(
        cell.n,
        here.capacity,
        here.length,
        place.short.reach,
        place.short.full,
    );
    Sent {
        most: split.most_leaving(here.offramp, wish),
        queued: here.critical < cell.n,
    }
}

// What leaves a segment, of what it sends on, by the flow ahead: where that takes those who would go on, all leave who may.
#[tactic(auto, using(crate::proofs::Moving::all_leave, crate::proofs::Moving::fewer_are))]
fn leaving(place: &Place, cell: Cell, sent: Sent, ahead: u32) -> Outflow
    requires { BoundedCell 5760 cell × (sent ≡ sent_of place.now.here cell) }
    ensures { result ≡ outflow (split_of place.now.here cell) (leaving_of place.now.here cell ahead) }
{
    if sent.most.onward <= ahead {
        return sent.most;
    }
    split_of(place, cell).held_back(sent.most.out, ahead)
}

// The cell of a segment after the step, by what entered, what it sends on and the flow ahead. Those who leave and do not go on take the off-ramp.
#[tactic(auto, using(crate::proofs::Laws::let_out_parts, rules::proofs::Splits::through_most))]
pub fn moved_at(place: &Place, cell: Cell, came: Entered, sent: Sent, ahead: u32) -> Cell
    requires { Movable place.now.here cell came × (sent ≡ sent_of place.now.here cell) }
    ensures { result ≡ moved_of place.now.here cell (flow_of came) (leaving_of place.now.here cell ahead) }
{
    let gone = leaving(place, cell, sent, ahead);
    Cell {
        n: cell.n + came.main + came.ramp - gone.out,
        q: came.queue,
        main: came.main,
        ramp: came.ramp,
        off: gone.out - gone.onward,
        out: gone.out,
        remainder: gone.remainder,
    }
}
