// What left a segment since its road was laid.
ghost use Rattle.std.specs.Prelude.{◌≡◌, ◌≤◌};

use crate::Cell;

// A segment's totals over every step since the laying: what left by its off-ramp, and all that left.
#[derive(Clone, Copy, Debug, Default, PartialEq, Eq)]
pub struct Tally {
    pub off: u32,
    pub out: u32,
}

impl Tally {
    ghost use Rattle.segment.specs.Bounded.{BoundedTally};
    ghost use Rattle.segment.specs.Tally.{with_step};

    // With off(y) and y of the step that led to the cell.
    #[tactic(auto, unfolding(crate::specs::Tally::with_step))]
    pub fn with_step(self, cell: Cell) -> Tally
        requires { BoundedTally 5760 self × ((cell.off ≤ 10000) × (cell.out ≤ 20000)) }
        ensures { result ≡ with_step self cell }
    {
        Tally {
            off: self.off + cell.off,
            out: self.out + cell.out,
        }
    }
}
