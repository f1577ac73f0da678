// The planning sheet: from a sheet's bytes and the carryover of the period before to each section's answer, the facility's density and
// level of service, and the carryover of this period.
#![tactic(auto)]

mod export;
mod planned;

ghost use Rattle.std.specs.Prelude.{◌≡◌, Ok, length};
ghost use Rattle.planning_sheet.specs.View.{sections_in};
ghost use Rattle.planning.specs.Plan.{accepted_plan, plan_of};
ghost use Rattle.planning.specs.View.{planned};

pub use export::freeway_plan;
pub use planned::Planned;
use planning_sheet::Sheet;
use refusals::{Refusal, Refused};
use solving::Solved;

// The plan of a sheet under demands that every section may have.
#[tactic(auto, unfolding(crate::specs::Plan::accepted_plan))]
fn accepted(sheet: &Sheet, demands: &[u32; 64], carryover: &mut [u32]) -> Planned
    requires { length carryover.old ≡ length (sections_in sheet.now.sections) }
    ensures { planned (Ok result) carryover.new ≡ accepted_plan (sections_in sheet.now.sections) sheet.now.used demands.now }
{
    let Solved { answers, totals } = solving::solve(&sheet.sections, demands);
    let density = totals.density();
    let level = solving::service_of(density, totals.queued);
    demands::carry(&sheet.sections, demands, carryover);
    Planned {
        used: sheet.used,
        answers,
        density,
        level,
    }
}

// Works a sheet out. The new carryover replaces the old in the slice, unless the sheet is refused.
#[tactic(auto, unfolding(crate::specs::Plan::plan_of, crate::specs::Plan::plan_from, demands::specs::Demand::held_demands))]
pub fn plan(bytes: &[u8], carryover: &mut [u32]) -> Result<Planned, Refused>
    ensures { planned result carryover.new ≡ plan_of bytes.now carryover.old }
{
    let sheet = planning_sheet::read_sheet(bytes)?;
    if carryover.len() != sheet.sections.count() {
        return Err(Refusal::CarryoverLength.into());
    }
    let demands = demands::demands_of(&sheet.sections, carryover).ok_or(Refusal::DemandOutside)?;
    Ok(accepted(&sheet, &demands, carryover))
}
