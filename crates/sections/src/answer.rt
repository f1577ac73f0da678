// A section's answer. Rates are seconds a mile, speed is miles an hour, density is vehicles a mile and lane.
ghost use Rattle.std.specs.Prelude.{◌≡◌};
ghost use Rattle.sections.specs.Section.{outcome, density_in, queued_in, no_answer};

#[derive(Clone, Copy)]
pub enum Answer {
    Free {
        speed: f64,
        density: f64,
    },
    Slowed {
        under: f64,
        speed: f64,
        density: f64,
    },
    Queued {
        under: f64,
        over: f64,
        speed: f64,
        density: f64,
    },
}

impl Answer {
    // The answer of no section: free with zeros.
    // Stays: a rule of the project. Answers past the section count are free with zeros.
    #[tactic(auto, using(crate::proofs::Literals::zero_is))]
    pub fn none() -> Self
        ensures { outcome result ≡ no_answer }
    {
        Answer::Free {
            speed: 0.0,
            density: 0.0,
        }
    }

    pub fn density(self) -> f64
        ensures { result ≡ density_in (outcome self) }
    {
        match self {
            Answer::Free { density, .. }
            | Answer::Slowed { density, .. }
            | Answer::Queued { density, .. } => density,
        }
    }

    pub fn is_queued(self) -> bool
        ensures { result ≡ queued_in (outcome self) }
    {
        matches!(self, Answer::Queued { .. })
    }
}
