// Part-feet: all that left a segment, times its length, summed over the steps since its road was laid.

ghost use Rattle.std.specs.Prelude.{◌≡◌, ◌≤◌};
ghost use Rattle.conditions.specs.View.{conditions_in};
ghost use Rattle.steps.specs.Bounded.{BoundedTallies, BoundedPartfeet};
ghost use Rattle.steps.specs.Driven.{partfeet_of};
ghost use Rattle.steps.specs.Since.{driven_since};

use conditions::Conditions;
use segment::Tally;

// Adds to each segment's part-feet all that left it since its totals were those of `before`, times its length.
pub fn drive(
    conditions: &Conditions,
    before: &[Tally; 64],
    tallies: &[Tally; 64],
    partfeet: &mut [u64; 64],
)
    requires tallies_bounded { BoundedTallies (conditions_in conditions.now).segments 5760 tallies.now }
    requires partfeet_bounded { BoundedPartfeet (conditions_in conditions.now).segments 5760 partfeet.old }
    ensures { partfeet.new ≡ driven_since (conditions_in conditions.now) before.now tallies.now partfeet.old }
{
    for i in 0..conditions.segments as usize {
        let gone = tallies[i].out.saturating_sub(before[i].out);
        let length = conditions.place_at(i).here.length;
        partfeet[i] += u64::from(gone) * u64::from(length);
    }
}

// The facility's part-feet: those of all its segments.
#[tactic(auto, using(crate::proofs::Sums::sum_more), unfolding(crate::specs::Step::sum_to, crate::specs::Driven::partfeet_of))]
pub fn partfeet_of(ns: usize, partfeet: &[u64; 64]) -> u64
    requires { (ns ≤ 64) × BoundedPartfeet ns 5760 partfeet.now }
    ensures { result ≡ partfeet_of ns partfeet.now }
{
    let mut sum: u64 = 0;
    for own in &partfeet[..ns] {
        sum += own;
    }
    sum
}
