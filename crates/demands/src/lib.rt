// The sections' demands, a running sum that is refused where it leaves 0 .. 1,000,000, and what they leave in the carryover slice.
#![tactic(auto)]

ghost use Rattle.std.specs.Prelude.{◌≡◌, ◌≤◌, pos, length};
ghost use Rattle.sections.specs.Numbers.{numbers_of};
ghost use Rattle.planning_sheet.specs.View.{sections_in};
ghost use Rattle.demands.specs.Demand.{next_of, checked_of, held_demands};
ghost use Rattle.demands.specs.Carryover.{carryover_of};

use planning_sheet::list::Sections;
use sections::section::Section;

// The demand of a section, from that of the section before it: none where no section may have it.
#[tactic(auto, using(crate::proofs::Sums::next_below, crate::proofs::Sums::next_above, crate::proofs::Sums::next_within))]
fn next_demand(demand: u32, section: Section, carried: u32) -> Option<u32>
    requires { demand ≤ 1000000 }
    ensures { result ≡ checked_of (next_of (pos demand) (numbers_of section) carried) }
{
    let up = u64::from(demand) + u64::from(section.inflow) + u64::from(carried);
    let next = up.checked_sub(u64::from(section.outflow))?;
    if 1000000 < next {
        return None;
    }
    Some(next as u32)
}

// Stays: fixed memory. With no heap, the demands are an array of 64 beside the sections, and the carryover is lent, one place a section, as the call asks.
// The demands of the sections with what is carried over to them, zeros past the section count: none where a section may not have its own.
pub fn demands_of(sections: &Sections, carryover: &[u32]) -> Option<[u32; 64]>
    requires { length carryover.now ≡ length (sections_in sections.now) }
    ensures { result ≡ held_demands (sections_in sections.now) carryover.now }
{
    let mut each = [0u32; 64];
    let mut demand = 0;
    for i in 0..sections.count() {
        demand = next_demand(demand, sections.at(i), carryover[i])?;
        each[i] = demand;
    }
    Some(each)
}

// Stores what each section carries over to the next period.
pub fn carry(sections: &Sections, demands: &[u32; 64], carryover: &mut [u32])
    requires { length carryover.old ≡ length (sections_in sections.now) }
    ensures { carryover.new ≡ carryover_of (sections_in sections.now) demands.now }
{
    for i in 0..sections.count() {
        carryover[i] = sections.at(i).carried(demands[i]);
    }
}
