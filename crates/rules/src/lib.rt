// The step rules as formulas of numbers, each division spared where a comparison knows its result.
#![tactic(auto)]

ghost use Rattle.std.specs.Prelude.{◌≡◌, ℕ, ◌*◌, ◌≤◌, ◌<◌};
ghost use Rattle.conditions.specs.Shortcuts.{full_from};
ghost use Rattle.rules.specs.Rules.{wish_to_leave, ramp_wish, supply, ramp_flow, main_flow, merge};

mod split;

pub use split::Split;

// What leaves a segment: y of them, through(y) by the mainline; and the remainder after.
#[derive(Clone, Copy)]
pub struct Outflow {
    pub out: u32,
    pub onward: u32,
    pub remainder: u32,
}

// What enters at a node: the mainline flow f and the ramp flow r.
#[derive(Clone, Copy)]
pub struct Flow {
    pub main: u32,
    pub ramp: u32,
}

// Stays: no plainer. The rules read as formulas of numbers, beside the documents, and their laws know no place.
// D, by the reach 22 × V. With as many parts as `full` the quotient is at least the lesser of n and C, and is not worked out.
#[tactic(auto, using(crate::proofs::Closed::wish_below_full))]
pub fn wish_to_leave(n: u32, capacity: u32, length: u32, reach: u32, full: u32) -> u32
    requires { (capacity ≤ 20000) × (1 ≤ length) × (length ≤ 26400) × (1 ≤ reach) × (full ≡ full_from length reach capacity) }
    ensures { (speed : ℕ) → reach ≡ 22 * speed → result ≡ wish_to_leave n capacity speed length }
{
    if n < full {
        return (n * reach + (length - 1)) / length;
    }
    n.min(capacity)
}

// W.
#[tactic(auto, unfolding(crate::specs::Rules::ramp_wish))]
pub fn ramp_wish(queue: u32, demand: u32, limit: u32) -> u32
    requires { (queue ≤ 57600000) × (demand ≤ 10000) }
    ensures { result ≡ ramp_wish queue demand limit }
{
    (queue + demand).min(limit)
}

// P. Up to Q the quotient is at least C, and is not worked out.
#[tactic(auto, using(crate::proofs::Closed::supply_below_critical), unfolding(crate::specs::Rules::supply))]
pub fn supply_of(entrance: u32, capacity: u32, jam: u32, critical: u32, n: u32) -> u32
    requires { (entrance ≤ capacity) × (capacity ≤ 20000) × (jam ≤ 2880000) × (critical < jam) }
    ensures { result ≡ supply entrance capacity jam critical n }
{
    let room = jam.saturating_sub(n);
    let most = entrance.min(room);
    if n <= critical {
        return most;
    }
    let quotient = u64::from(capacity) * u64::from(room) / u64::from(jam - critical);
    most.min(quotient as u32)
}

// r. The ramp's share of the supply is worked out only where the rest is less than the ramp's wish.
#[tactic(auto, unfolding(crate::specs::Rules::ramp_flow))]
fn ramp_flow(p: u32, lanes: u32, m: u32, w: u32) -> u32
    requires { (1 ≤ lanes) × (lanes ≤ 8) }
    ensures { result ≡ ramp_flow p lanes m w }
{
    let rest = p.saturating_sub(m);
    if w <= rest {
        return w;
    }
    let share = p / (2 * lanes);
    if share <= rest {
        return rest;
    }
    w.min(share)
}

// f.
#[tactic(auto, unfolding(crate::specs::Rules::main_flow))]
fn main_flow(m: u32, p: u32, r: u32) -> u32
    ensures { result ≡ main_flow m p r }
{
    m.min(p.saturating_sub(r))
}

// f and r.
pub fn merged(p: u32, lanes: u32, m: u32, w: u32) -> Flow
    requires { (1 ≤ lanes) × (lanes ≤ 8) }
    ensures { result ≡ merge p lanes m w }
{
    let ramp = ramp_flow(p, lanes, m, w);
    Flow {
        main: main_flow(m, p, ramp),
        ramp,
    }
}
