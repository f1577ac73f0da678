// What is in force while a step is made, at each segment and for the road.
ghost use Rattle.std.specs.Prelude.{◌≡◌, ◌≤◌, length};
ghost use Rattle.conditions.specs.Good.{GoodPlace};
ghost use Rattle.conditions.specs.Shortcuts.{shortcuts_of};

use crate::{InForce, Shortcuts, shortcuts_of};

// What is in force at a segment, each number in its range, and its shortcuts.
#[derive(Clone, Copy)]
pub struct Place {
    pub here: InForce,
    pub short: Shortcuts,
    pub ghost good: { GoodPlace here },
    pub ghost spared: { short ≡ shortcuts_of here },
}

impl Place {
    // The place where this is in force.
    pub fn of(here: InForce) -> Place
        requires { GoodPlace here }
        ensures { result.here ≡ here }
    {
        Place {
            here,
            short: shortcuts_of(here),
        }
    }
}

// What is in force on a road: NS, the mainline demand, the exit capacity X, and the places of its segments, the first NS of 64.
// Stays: fixed memory. With no heap, the places are an array with their count beside it; callers see those of the segments (`place_at`).
#[derive(Clone, Copy)]
pub struct Conditions {
    pub segments: u32,
    pub demand: u32,
    pub outlet: u32,
    pub places: [Place; 64],
    pub ghost counted: { (1 ≤ segments) × (segments ≤ 64) },
    pub ghost demand_most: { demand ≤ 20000 },
    pub ghost outlet_most: { outlet ≤ 20000 },
    pub ghost room: { length places ≡ 64 },
}

impl Conditions {
    ghost use Rattle.std.specs.Prelude.{◌<◌};
    ghost use Rattle.conditions.specs.Conditions.{in_force_at};
    ghost use Rattle.conditions.specs.View.{conditions_in};

    // The place of segment i, counted from 0.
    #[tactic(auto, using(crate::proofs::View::view_at))]
    pub fn place_at(&self, i: usize) -> &Place
        requires { i < self.now.segments }
        ensures { result.now.here ≡ in_force_at (conditions_in self.now) i }
    {
        &self.places[i]
    }
}
