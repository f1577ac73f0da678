// The sections' answers in order, and what they sum up to: the facility's density and its level of service.
#![tactic(auto)]

ghost use Rattle.std.specs.Prelude.{◌≡◌, ◌+◌, ◌≤◌, map, length};
ghost use Rattle.sections.specs.Section.{outcome};
ghost use Rattle.sections.specs.Numbers.{numbers_of};
ghost use Rattle.planning_sheet.specs.View.{sections_in};
ghost use Rattle.solving.specs.Facility.{added_of, answers_of, totals_of, facility_density, tells_within, letter_of};

use levels::{Level, graded};
use planning_sheet::list::Sections;
use sections::answer::Answer;
use sections::section::Section;

// Sums over the sections: density times area, area in lane-feet, and whether any is queued.
#[derive(Clone, Copy)]
pub struct Totals {
    pub mass: f64,
    pub area: u32,
    pub queued: bool,
}

impl Totals {
    // The sums with one more section.
    #[tactic(auto, unfolding(crate::specs::Facility::added_of))]
    fn with(self, section: Section, answer: Answer) -> Self
        requires { self.area ≤ 13305600 }
        ensures value { result ≡ added_of self (numbers_of section) (outcome answer) }
        ensures small { result.area ≤ self.area + 211200 }
    {
        let area = section.area();
        Totals {
            mass: self.mass + answer.density() * f64::from(area),
            area: self.area + area,
            queued: self.queued | answer.is_queued(),
        }
    }

    // The facility's density.
    #[tactic(auto, unfolding(crate::specs::Facility::facility_density))]
    pub fn density(self) -> f64
        ensures { result ≡ facility_density self }
    {
        self.mass / f64::from(self.area)
    }
}

// The answers, free with zeros past the section count, and their sums.
#[derive(Clone, Copy)]
pub struct Solved {
    pub answers: [Answer; 64],
    pub totals: Totals,
}

// The sections' answers under their demands.
pub fn solve(sections: &Sections, demands: &[u32; 64]) -> Solved
    ensures { (map outcome result.answers ≡ answers_of (sections_in sections.now) demands.now)
        × (result.totals ≡ totals_of (sections_in sections.now) demands.now (length (sections_in sections.now))) }
{
    let mut answers = [Answer::none(); 64];
    let mut totals = Totals {
        mass: 0.0,
        area: 0,
        queued: false,
    };
    for i in 0..sections.count() {
        let section = sections.at(i);
        let answer = section.answer(demands[i]);
        totals = totals.with(section, answer);
        answers[i] = answer;
    }
    Solved { answers, totals }
}

// The level of service at a density, F where any section is queued.
#[tactic(auto, unfolding(crate::specs::Facility::letter_of))]
pub fn service_of(density: f64, queued: bool) -> Level
    ensures { result ≡ letter_of density queued }
{
    if queued {
        return Level::F;
    }
    graded(
        |limit: u8| -> bool
            ensures { result ≡ tells_within density limit }
        { density <= f64::from(limit) },
    )
}
