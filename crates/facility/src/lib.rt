// The calls on a facility: a road with its state, its sheet in force and its sums.
#![tactic(auto)]

ghost use Rattle.std.specs.Prelude.{◌≡◌, ◌≤◌, ◌<◌, Ok, if◌then◌else◌};
ghost use Rattle.numbers.specs.Writing.{writing};
ghost use Rattle.conditions.specs.Conditions.{segments, entry_under};
ghost use Rattle.running.specs.Steps.{sheet_by};
ghost use Rattle.steps.specs.Step.{cell_in};
ghost use Rattle.steps.specs.Tallies.{tally_in};
ghost use Rattle.steps.specs.Driven.{partfeet_in};
ghost use Rattle.door.specs.Sound.{sound};
ghost use Rattle.parts.specs.Good.{GoodRoad};
ghost use Rattle.facility.specs.Calls.{fresh_on, lay_of, with_sheet, taken_by, take_of, run_of, reported, level_at, report_of, totals_of, write_road_of, write_period_of};
ghost use Rattle.facility.specs.Results.{replied, ran, report_told, sums_told, verdict};
ghost use Rattle.facility.specs.Verdicts.{GoesOn, RefusedBy, unfinished, repeat_verdict, run_verdict, report_verdict, period_verdict};

use door::Facility;
use levels::Level;
use refusals::{Refusal, Refused};
use segment::Tally;
use sheets::Layout;
use steps::State;

// A segment report: n, q, the last step's f, r, off(y) and y, the level letter, and the segment's totals and part-feet since the laying.
#[derive(Clone, Copy, Debug, PartialEq, Eq)]
pub struct SegmentReport {
    pub n: u32,
    pub q: u32,
    pub main: u32,
    pub ramp: u32,
    pub off: u32,
    pub out: u32,
    pub level: Level,
    pub tally: Tally,
    pub partfeet: u64,
}

// The totals: arrived, left, stored, part-steps and part-feet.
#[derive(Clone, Copy, Debug, PartialEq, Eq)]
pub struct Sums {
    pub arrived: u64,
    pub left: u64,
    pub stored: u64,
    pub partsteps: u64,
    pub partfeet: u64,
}

// A laying: the facility, which is the empty one beside a refusal, and how many bytes were used.
// Stays: a rule of the project. A refused laying returns the empty facility too.
#[derive(Clone, Copy)]
pub struct Laid {
    pub facility: Facility,
    pub answer: Result<usize, Refused>,
}

// What stands against every call on the empty facility.
fn not_empty(f: &Facility) -> Result<(), Refusal>
    ensures { verdict result ≡ (if sound f.now then GoesOn else RefusedBy 9) }
{
    if f.is_sound() {
        Ok(())
    } else {
        Err(Refusal::EmptyFacility)
    }
}

// A road just laid.
#[tactic(auto, unfolding(crate::specs::Calls::fresh_on))]
pub fn fresh_on(road: [u32; 452]) -> Facility
    ensures { result ≡ fresh_on road }
{
    Facility {
        road,
        period: [0; 452],
        taken: 0,
        made: 0,
        state: State::fresh(),
        tallies: [Tally::default(); 64],
        partfeet: [0; 64],
        arrived: 0,
        left: 0,
        partsteps: 0,
    }
}

// Lays a road.
#[tactic(auto, using(numbers::proofs::Rows::filled_read, numbers::proofs::Rows::filled_refused), unfolding(crate::specs::Calls::lay_of))]
pub fn lay(bytes: &[u8]) -> Laid
    ensures { replied result.answer result.facility ≡ lay_of bytes.now }
{
    match sheets::read_road(bytes) {
        Ok(sheet) => Laid {
            facility: fresh_on(sheet.numbers),
            answer: Ok(sheet.used),
        },
        Err(refused) => Laid {
            facility: fresh_on([0; 452]),
            answer: Err(refused),
        },
    }
}

// Puts a sheet in force.
#[tactic(auto, unfolding(crate::specs::Calls::with_sheet))]
pub fn put_in_force(f: &mut Facility, period: [u32; 452])
    requires { f.old.taken < 96 }
    ensures { f.new ≡ with_sheet f.old period }
{
    f.period = period;
    f.taken += 1;
    f.made = 0;
}

#[tactic(auto, unfolding(crate::specs::Verdicts::unfinished))]
fn is_unfinished(f: &Facility) -> bool
    ensures { result ≡ unfinished f.now.taken f.now.made }
{
    (0 < f.taken) & (f.made < 60)
}

// Takes the sheet in force once more.
#[tactic(auto, unfolding(crate::specs::Verdicts::repeat_verdict))]
fn repeat_sheet(f: &mut Facility) -> Result<usize, Refused>
    requires { f.old.taken < 96 }
    ensures { replied result f.new ≡ taken_by f.old (repeat_verdict f.old.taken) }
{
    if f.taken == 0 {
        return Err(Refusal::NoPeriod.into());
    }
    put_in_force(f, f.period);
    Ok(0)
}

// Takes a period sheet; zero bytes are the sheet in force once more.
#[tactic(auto, using(numbers::proofs::Rows::filled_read, numbers::proofs::Rows::filled_refused), unfolding(crate::specs::Calls::take_of, crate::specs::Verdicts::take_verdict))]
pub fn take(f: &mut Facility, bytes: &[u8]) -> Result<usize, Refused>
    ensures { replied result f.new ≡ take_of f.old bytes.now }
{
    not_empty(f)?;
    if is_unfinished(f) {
        return Err(Refusal::Unfinished.into());
    }
    if 96 <= f.taken {
        return Err(Refusal::TooManyPeriods.into());
    }
    if bytes.is_empty() {
        return repeat_sheet(f);
    }
    let sheet = sheets::read_period(bytes, &f.road)?;
    put_in_force(f, sheet.numbers);
    Ok(sheet.used)
}

// What stands against a run of k steps.
#[tactic(auto, unfolding(crate::specs::Verdicts::run_verdict))]
fn can_run(f: &Facility, k: u32) -> Result<(), Refusal>
    requires { f.now.made ≤ 60 }
    ensures { verdict result ≡ run_verdict f.now.taken f.now.made k }
{
    if k < 1 || 60 < k {
        return Err(Refusal::NoSuchRun);
    }
    if f.taken == 0 {
        return Err(Refusal::NoPeriod);
    }
    if 60 - f.made < k {
        return Err(Refusal::TooFewSteps);
    }
    Ok(())
}

// Runs k steps.
#[tactic(auto, using(crate::proofs::Open::open_short, crate::proofs::Open::open_ready), unfolding(crate::specs::Calls::run_of))]
pub fn run(f: &mut Facility, k: u32) -> Result<(), Refusal>
    ensures { ran result f.new ≡ run_of f.old k }
{
    not_empty(f)?;
    can_run(f, k)?;
    running::make_steps(f, k);
    Ok(())
}

// What stands against a report of a segment.
#[tactic(auto, unfolding(crate::specs::Verdicts::report_verdict, parts::specs::Parts::road_globals))]
fn can_report(f: &Facility, segment: u32) -> Result<(), Refusal>
    ensures { verdict result ≡ report_verdict f.now.road segment }
{
    if segment < 1 || f.road[0] < segment {
        Err(Refusal::NoSuchSegment)
    } else {
        Ok(())
    }
}

// The lanes that the letter of segment i, counted from 0, reckons with: those in force.
#[tactic(auto, using(crate::proofs::Letters::lanes_before, crate::proofs::Letters::lanes_under))]
pub fn lanes_at(f: &Facility, i: usize) -> u32
    requires { i < 64 }
    ensures { result ≡ (entry_under f.now.road (sheet_by f.now.taken f.now.period) i).opened }
{
    if f.taken == 0 {
        parts::segment_at(&f.road, i as u32).lanes
    } else {
        parts::entry_at(&f.period, i as u32).opened
    }
}

// The report of segment i, counted from 0.
#[tactic(auto, using(crate::proofs::Letters::letter_is))]
fn report_at(f: &Facility, i: usize) -> SegmentReport
    requires { GoodRoad f.now.road × (i < segments f.now.road) }
    ensures { report_told (Ok result) ≡ reported (cell_in f.now.state i) (level_at f.now i) (tally_in f.now.tallies i) (partfeet_in f.now.partfeet i) }
{
    let cell = f.state.cells[i];
    let length = parts::segment_at(&f.road, i as u32).length;
    let lanes = lanes_at(f, i);
    SegmentReport {
        n: cell.n,
        q: cell.q,
        main: cell.main,
        ramp: cell.ramp,
        off: cell.off,
        out: cell.out,
        level: levels::level_of(cell.n, length, lanes),
        tally: f.tallies[i],
        partfeet: f.partfeet[i],
    }
}

// Reports on a segment, counted from 1.
#[tactic(auto, using(crate::proofs::Open::open_road, crate::proofs::Verdicts::report_accepted), unfolding(crate::specs::Calls::report_of, parts::specs::Parts::road_globals))]
pub fn report(f: &Facility, segment: u32) -> Result<SegmentReport, Refusal>
    ensures { report_told result ≡ report_of f.now segment }
{
    not_empty(f)?;
    can_report(f, segment)?;
    Ok(report_at(f, segment as usize - 1))
}

// The totals.
#[tactic(auto, using(crate::proofs::Open::open_road, crate::proofs::Open::open_partfeet), unfolding(crate::specs::Calls::totals_of, parts::specs::Parts::road_globals))]
pub fn totals(f: &Facility) -> Result<Sums, Refusal>
    ensures { sums_told result ≡ totals_of f.now }
{
    not_empty(f)?;
    Ok(Sums {
        arrived: f.arrived,
        left: f.left,
        stored: steps::stored(f.road[0] as usize, &f.state),
        partsteps: f.partsteps,
        partfeet: steps::partfeet_of(f.road[0] as usize, &f.partfeet),
    })
}

// Writes the road into a lent buffer from a place.
#[tactic(auto, unfolding(crate::specs::Calls::write_road_of, sheets::specs::Write::sheet_row))]
pub fn write_road(f: &Facility, buffer: &mut [u8], at: usize) -> Result<usize, Refusal>
    ensures { record { answer = writing result; buffer = buffer.new } ≡ write_road_of f.now buffer.old at }
{
    not_empty(f)?;
    sheets::write_sheet(buffer, at, Layout::Road(f.road[0]), &f.road)
}

// What stands against writing the period in force.
#[tactic(auto, unfolding(crate::specs::Verdicts::period_verdict))]
fn can_write_period(f: &Facility) -> Result<(), Refusal>
    ensures { verdict result ≡ period_verdict f.now.taken }
{
    if f.taken == 0 {
        Err(Refusal::NoPeriod)
    } else {
        Ok(())
    }
}

// Writes the period in force into a lent buffer from a place.
#[tactic(auto, unfolding(crate::specs::Calls::write_period_of, sheets::specs::Write::sheet_row))]
pub fn write_period(f: &Facility, buffer: &mut [u8], at: usize) -> Result<usize, Refusal>
    ensures { record { answer = writing result; buffer = buffer.new } ≡ write_period_of f.now buffer.old at }
{
    not_empty(f)?;
    can_write_period(f)?;
    sheets::write_sheet(buffer, at, Layout::Period(f.period[0]), &f.period)
}
