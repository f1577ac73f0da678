// What is in force while a step is made, worked out once from a road and a period sheet.
#![tactic(auto)]

ghost use Rattle.std.specs.Prelude.{◌≡◌, ◌≤◌, ◌<◌};
ghost use Rattle.parts.specs.Parts.{road_globals};
ghost use Rattle.parts.specs.Good.{GoodSegment, GoodRoad, GoodEntry, GoodPeriod};
ghost use Rattle.conditions.specs.Conditions.{open_capacity, parts_at, lowered_by, in_force, segments, Under, in_force_of, conditions_of};
ghost use Rattle.conditions.specs.Shortcuts.{easy_below, full_from, shortcuts_of};
ghost use Rattle.conditions.specs.Good.{GoodGlobals, GoodPlace};
ghost use Rattle.conditions.specs.View.{conditions_in};

mod place;

use parts::{Entry, RoadGlobals, Segment};
pub use place::{Conditions, Place};

// What is in force at a segment: length L, speed V, the open lanes, the capacity with these, the same lowered behind a queue, the jam J, the
// critical parts Q, the limit of the ramp (the lesser of R and the meter rate), off-ramp share s, off-ramp capacity F, and ramp demand.
#[derive(Clone, Copy)]
pub struct InForce {
    pub length: u32,
    pub speed: u32,
    pub lanes: u32,
    pub capacity: u32,
    pub lowered: u32,
    pub jam: u32,
    pub critical: u32,
    pub limit: u32,
    pub share: u32,
    pub offramp: u32,
    pub demand: u32,
}

// Three numbers that spare a step some work: the reach 22 × V, the number of parts below which P is E, and the one from which D is the
// lesser of n and C.
#[derive(Clone, Copy)]
pub struct Shortcuts {
    pub reach: u32,
    pub easy: u32,
    pub full: u32,
}

// C with some of the lanes open. With all of them it is C, and not worked out.
#[tactic(auto, using(crate::proofs::Good::open_whole), unfolding(crate::specs::Conditions::open_capacity))]
fn open_capacity(capacity: u32, lanes: u32, opened: u32) -> u32
    requires { (capacity ≤ 20000) × (1 ≤ lanes) × (opened ≤ 8) }
    ensures { result ≡ open_capacity capacity lanes opened }
{
    if opened == lanes {
        return capacity;
    }
    capacity * opened / lanes
}

// J by the jam density, Q by the density at capacity.
#[tactic(auto, unfolding(crate::specs::Conditions::parts_at))]
fn parts_at(density: u32, lanes: u32, length: u32) -> u32
    requires { (density ≤ 300) × (lanes ≤ 8) × (length ≤ 26400) }
    ensures { result ≡ parts_at density lanes length }
{
    density * lanes * length / 22
}

// The capacity behind a queue.
#[tactic(auto, unfolding(crate::specs::Conditions::lowered_by))]
fn lowered_by(cut: u32, capacity: u32) -> u32
    requires { (cut ≤ 50) × (capacity ≤ 20000) }
    ensures { result ≡ lowered_by cut capacity }
{
    capacity * (100 - cut) / 100
}

// What is in force at a segment, by the road's globals, the segment and its entry in the sheet.
#[tactic(auto, using(crate::proofs::Good::open_most), unfolding(crate::specs::Conditions::in_force))]
fn in_force(g: RoadGlobals, seg: Segment, entry: Entry) -> InForce
    requires { GoodGlobals g × GoodSegment seg × GoodEntry seg entry }
    ensures { result ≡ in_force g seg entry }
{
    let capacity = open_capacity(seg.capacity, seg.lanes, entry.opened);
    InForce {
        length: seg.length,
        speed: seg.speed,
        lanes: entry.opened,
        capacity,
        lowered: lowered_by(g.cut, capacity),
        jam: parts_at(g.jam, entry.opened, seg.length),
        critical: parts_at(g.critical, entry.opened, seg.length),
        limit: seg.onramp.min(entry.meter),
        share: seg.share,
        offramp: seg.offramp,
        demand: entry.demand,
    }
}

// With fewer parts than this neither the room nor the quotient is below C, and P is E.
#[tactic(auto, unfolding(crate::specs::Shortcuts::easy_below))]
fn easy_below(jam: u32, critical: u32, capacity: u32) -> u32
    requires { jam ≤ 2880000 }
    ensures { result ≡ easy_below jam critical capacity }
{
    if jam < capacity {
        return 0;
    }
    critical.min(jam - capacity) + 1
}

// With as many parts as this D is the lesser of n and C, with fewer it goes by the speed.
#[tactic(auto, unfolding(crate::specs::Shortcuts::full_from))]
fn full_from(length: u32, reach: u32, capacity: u32) -> u32
    requires { (length ≤ 26400) × (1 ≤ reach) × (reach ≤ 1870) × (capacity ≤ 20000) }
    ensures { result ≡ full_from length reach capacity }
{
    if length <= reach {
        return 0;
    }
    (capacity * length + (reach - 1)) / reach
}

// The three of what is in force at a segment.
#[tactic(auto, unfolding(crate::specs::Shortcuts::shortcuts_of))]
fn shortcuts_of(here: InForce) -> Shortcuts
    requires { GoodPlace here }
    ensures { result ≡ shortcuts_of here }
{
    let reach = 22 * here.speed;
    Shortcuts {
        reach,
        easy: easy_below(here.jam, here.critical, here.capacity),
        full: full_from(here.length, reach, here.capacity),
    }
}

// The place of segment i on a road under a period sheet, counted from 0.
#[tactic(auto, using(crate::proofs::Good::good_globals, crate::proofs::Good::good_place), unfolding(crate::specs::Conditions::entry_under))]
fn place_of(g: RoadGlobals, road: &[u32; 452], period: &[u32; 452], i: u32) -> Place
    requires { GoodRoad road.now × GoodPeriod road.now period.now × (g ≡ road_globals road.now) × (i < segments road.now) }
    ensures { result.here ≡ in_force_of road.now (Under period.now) i }
{
    let segment = parts::segment_at(road, i);
    let entry = parts::entry_at(period, i);
    Place::of(in_force(g, segment, entry))
}

// Works the conditions of a road under a period sheet out. Past the last segment the first one's place stands.
pub fn work_out(road: &[u32; 452], period: &[u32; 452]) -> Conditions
    requires { GoodRoad road.now × GoodPeriod road.now period.now }
    ensures { conditions_in result ≡ conditions_of road.now (Under period.now) }
{
    let g = parts::globals_of_road(road);
    let sheet = parts::globals_of_period(period);
    let mut places = [place_of(g, road, period, 0); 64];
    for i in 1..g.segments {
        places[i as usize] = place_of(g, road, period, i);
    }
    Conditions {
        segments: g.segments,
        demand: sheet.demand,
        outlet: sheet.outlet,
        places,
    }
}
