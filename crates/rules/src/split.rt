// The split of what leaves a segment between its off-ramp and the mainline.
ghost use Rattle.std.specs.Prelude.{◌≡◌, ◌*◌, ◌≤◌, ◌<◌};

use crate::Outflow;

// What the split of leaving parts goes by: the share s, in thousandths, and the remainder at the step's start.
#[derive(Clone, Copy)]
pub struct Split {
    pub share: u32,
    pub remainder: u32,
    pub ghost share_most: { share ≤ 1000 },
    pub ghost remainder_below: { remainder < 1000 },
}

impl Split {
    ghost use Rattle.rules.specs.Rules.{off, through, most_leaving, leaving};
    ghost use Rattle.rules.specs.Outflow.{outflow};
    ghost use Rattle.rules.specs.View.{split_in};

    // What leaves where y do and `gone` of them by the off-ramp: with off(y) known, without a division.
    #[tactic(auto, using(crate::proofs::View::split_laws), unfolding(crate::specs::Rules::through))]
    fn outflow_by(self, y: u32, gone: u32) -> Outflow
        requires { (y ≤ 20000) × (gone ≡ off (split_in self) y) }
        ensures { result ≡ outflow (split_in self) y }
    {
        Outflow {
            out: y,
            onward: y - gone,
            remainder: y * self.share + self.remainder - 1000 * gone,
        }
    }

    // What leaves where Y0 do: all who wish, or as many as the off-ramp's capacity lets, and then it is full.
    #[tactic(auto, using(crate::proofs::View::split_laws), unfolding(crate::specs::Rules::off))]
    pub fn most_leaving(self, offramp: u32, wish: u32) -> Outflow
        requires { (offramp ≤ 10000) × (wish ≤ 20000) }
        ensures { result ≡ outflow (split_in self) (most_leaving (split_in self) offramp wish) }
    {
        if self.share == 0 {
            return self.outflow_by(wish, 0);
        }
        let off = (wish * self.share + self.remainder) / 1000;
        if off <= offramp {
            return self.outflow_by(wish, off);
        }
        let most = ((offramp + 1) * 1000 - 1 - self.remainder) / self.share;
        self.outflow_by(most, offramp)
    }

    // What leaves where y do, with fewer let in ahead than would go on of `most`, which are Y0.
    #[tactic(auto, using(crate::proofs::View::split_laws))]
    pub fn held_back(self, most: u32, ahead: u32) -> Outflow
        requires { (most ≤ 20000) × (ahead < through (split_in self) most) }
        ensures { result ≡ outflow (split_in self) (leaving (split_in self) most ahead) }
    {
        if self.share == 0 {
            return self.outflow_by(ahead, 0);
        }
        let y = (1000 * ahead + self.remainder) / (1000 - self.share);
        self.outflow_by(y, y - ahead)
    }
}
