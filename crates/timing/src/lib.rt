// Calls made over and over, exported so that one call can be timed. Letters are told as the sum of their bytes.
#![tactic(auto)]

ghost use Rattle.std.specs.Prelude.{◌≡◌, ◌+◌, ◌*◌, ◌%◌, ◌≤◌};
ghost use Rattle.facility.specs.Calls.{lay_of, run_of, report_of, totals_of};
ghost use Rattle.facility.specs.Results.{report_told};
ghost use Rattle.timing.specs.Repeated.{begun, one_by_one, periods_one_by_one, letters_told, letters_after_runs, letters_over_periods};

pub mod walks;

use door::Facility;
use facility::SegmentReport;
use levels::Level;
use refusals::Refusal;
use walks::sum_of_letters;

// Lays a road and takes a period sheet.
fn begin(road: &[u8], period: &[u8]) -> Facility
    ensures { result ≡ begun road.now period.now }
{
    let mut f = facility::lay(road).facility;
    let _ = facility::take(&mut f, period);
    f
}

// The letter that a report's answer tells, A of a refusal.
// Stays: the C interface. What is timed answers numbers alone, here and at the end of the steps.
fn level_told(answer: Result<SegmentReport, Refusal>) -> Level
    ensures { result ≡ (report_told answer).level }
{
    answer.map_or(Level::A, |report| report.level)
}

// A report that is made by itself: whole, and with a test at the door of its own, since the compiler can't make it part of its caller.
#[inline(never)]
fn single_report(f: &Facility, segment: u32) -> Result<SegmentReport, Refusal>
    ensures { report_told result ≡ report_of f.now segment }
{
    facility::report(f, segment)
}

// The letters of so many reports, each made by itself, on the segments 1 to 64 in turn.
fn letters_of_single_reports(f: &Facility, times: u32) -> u64
    ensures { result ≡ letters_told times f.now }
{
    sum_of_letters(
        |i: u32| -> Level
            ensures { result ≡ (report_of f.entry.now (i % 64 + 1)).level }
        { level_told(single_report(f, i % 64 + 1)) },
        times,
    )
}

// The letters of so many reports, made in a loop, on the segments 1 to 64 in turn.
fn letters_of_reports(f: &Facility, times: u32) -> u64
    ensures told { result ≡ letters_told times f.now }
    ensures most { result ≤ 256 * times }
{
    sum_of_letters(
        |i: u32| -> Level
            ensures { result ≡ (report_of f.entry.now (i % 64 + 1)).level }
        { level_told(facility::report(f, i % 64 + 1)) },
        times,
    )
}

// Runs a period, then makes so many reports, each by itself, on the segments 1 to 64 in turn: their letters.
#[unsafe(no_mangle)]
pub extern "C" fn freeway_time_reports(road: &[u8], period: &[u8], times: u32) -> u64
    ensures { result ≡ letters_told times (run_of (begun road.now period.now) 60).facility }
{
    let mut f = begin(road, period);
    let _ = facility::run(&mut f, 60);
    letters_of_single_reports(&f, times)
}

// Makes 60 runs of one step, and after each so many reports in a loop, on the segments 1 to 64 in turn: the letters of all.
fn sixty_runs(f: &mut Facility, reports: u8) -> u64
    ensures runs { f.new ≡ one_by_one 60 f.old }
    ensures told { result ≡ letters_after_runs reports 60 f.old }
    ensures most { result ≤ 60 * 65536 }
{
    let mut letters = 0;
    for _ in 0..60u32 {
        let _ = facility::run(f, 1);
        letters += letters_of_reports(f, u32::from(reports));
    }
    letters
}

// What timed steps come to: the part-steps, and the letters that were reported.
#[repr(C)]
pub struct Timed {
    pub partsteps: u64,
    pub letters: u64,
}

// Lays a road, and so many times takes the period and makes its steps one by one, with so many reports after each step.
#[unsafe(no_mangle)]
pub extern "C" fn freeway_time_steps(road: &[u8], period: &[u8], periods: u32, reports: u8) -> Timed
    ensures { result ≡ record {
      partsteps = (totals_of (periods_one_by_one period.now periods (lay_of road.now).facility)).partsteps;
      letters = letters_over_periods reports period.now periods (lay_of road.now).facility;
    } }
{
    let mut f = facility::lay(road).facility;
    let mut letters = 0;
    for _ in 0..periods {
        let _ = facility::take(&mut f, period);
        letters += sixty_runs(&mut f, reports);
    }
    Timed {
        partsteps: facility::totals(&f).map_or(0, |totals| totals.partsteps),
        letters,
    }
}
