// A study period by period: each segment's letter at the period's end, and the lanes that were open.
#![tactic(auto)]

mod marks;

ghost use Rattle.std.specs.Prelude.{◌≡◌};
ghost use Rattle.overview.specs.Course.{course_of};
ghost use Rattle.overview.specs.View.{told};

use facility::Laid;
pub use marks::{Course, Mark};
use refusals::Refused;

// The course of a study. A run behind a taking is never refused.
pub fn course_of(bytes: &[u8]) -> Result<Course, Refused>
    ensures { told result ≡ course_of bytes.now }
{
    let Laid {
        facility: mut f,
        answer,
    } = facility::lay(bytes);
    let mut at = answer?;
    let mut rows = [[marks::NO_MARK; 64]; 96];
    // Stays: no plainer. Where a sheet ends is known when it was read, so no `for` goes over the sheets.
    while at < bytes.len() {
        at = study::take_at(&mut f, bytes, at)?;
        facility::run(&mut f, 60)?;
        rows[f.taken as usize - 1] = marks::row_of(&f, f.road[0]);
    }
    Ok(Course {
        road: f.road,
        periods: f.taken,
        rows,
    })
}
