// A whole study: from the bytes of its file to everything the listing shows.
#![tactic(auto)]

mod export;
mod shown;

ghost use Rattle.std.specs.Prelude.{◌≡◌, true, ◌≤◌, ◌<◌, length, drop, map};
ghost use Rattle.conditions.specs.Conditions.{segments};
ghost use Rattle.door.specs.Sound.{sound};
ghost use Rattle.facility.specs.Calls.{take_of};
ghost use Rattle.study.specs.Forecast.{lines_by, forecast_of};
ghost use Rattle.study.specs.Shown.{TakenAt, line_at, line_shown, shown, told};

use door::Facility;
pub use export::freeway_forecast;
use facility::Laid;
use refusals::Refused;
pub use shown::{Line, Listing};

// The line of segment i, counted from 0; there is none where its report is refused.
fn line_at(f: &Facility, i: u32) -> Option<Line>
    requires { i < 64 }
    ensures { line_shown result ≡ line_at f.now i }
{
    let report = facility::report(f, i + 1).ok()?;
    Some(Line {
        n: report.n,
        q: report.q,
        level: report.level,
        partfeet: report.partfeet,
    })
}

// The lines of so many segments.
fn lines_of(f: &Facility, segments: u32) -> [Option<Line>; 64]
    requires { segments ≤ 64 }
    ensures { map line_shown result ≡ lines_by (line_at f.now) segments }
{
    let mut lines = [None; 64];
    for i in 0..segments {
        lines[i as usize] = line_at(f, i);
    }
    lines
}

// What a facility shows by its totals and its segment reports.
fn show(f: &Facility) -> Listing
    requires { (sound f.now ≡ true) × (segments f.now.road ≤ 64) }
    ensures { told (Ok result) ≡ shown f.now }
{
    let segments = f.road[0];
    Listing {
        segments,
        totals: facility::totals(f).unwrap(),
        origin: f.state.origin,
        lines: lines_of(f, segments),
    }
}

// Takes the period sheet that starts at a place of the bytes, and answers where it ends; a refusal's place is one of the bytes too.
pub fn take_at(f: &mut Facility, bytes: &[u8], at: usize) -> Result<usize, Refused>
    requires { at ≤ length bytes.now }
    ensures { TakenAt bytes.now at result f.new (take_of f.old (drop at bytes.now)) }
{
    match facility::take(f, &bytes[at..]) {
        Ok(used) => Ok(at + used),
        Err(refused) => Err(refused.moved_by(at)),
    }
}

// The forecast of a study. A run behind a taking is never refused.
pub fn forecast(bytes: &[u8]) -> Result<Listing, Refused>
    ensures { told result ≡ forecast_of bytes.now }
{
    let Laid {
        facility: mut f,
        answer,
    } = facility::lay(bytes);
    let mut at = answer?;
    // Stays: no plainer. Where a sheet ends is known when it was read, so no `for` goes over the sheets.
    while at < bytes.len() {
        at = take_at(&mut f, bytes, at)?;
        facility::run(&mut f, 60)?;
    }
    Ok(show(&f))
}
