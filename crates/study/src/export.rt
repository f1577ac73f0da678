// A forecast as 265 numbers, in the order of the header, for programs in C and Rust.

ghost use Rattle.std.specs.Prelude.{◌≡◌, Ok, Err};
ghost use Rattle.study.specs.Export.{line_row, head_row, listing_numbers, export_answer, export_into};
ghost use Rattle.study.specs.Shown.{line_shown, told};

use crate::{Line, Listing, forecast};
use refusals::{Refusal, Refused};

// n, q, the letter and the part-feet of a line, and zeros where there is none.
#[tactic(auto, unfolding(crate::specs::Export::line_row))]
fn line_row(line: Option<Line>) -> [u64; 4]
    ensures { result ≡ line_row (line_shown line) }
{
    match line {
        Some(line) => [
            u64::from(line.n),
            u64::from(line.q),
            u64::from(u8::from(line.level)),
            line.partfeet,
        ],
        None => [0; 4],
    }
}

// No refusal, NS, the totals, and o.
fn head_row(x: &Listing) -> [u64; 9]
    ensures { result ≡ head_row (told (Ok x.now)) }
{
    [
        0,
        0,
        u64::from(x.segments),
        x.totals.arrived,
        x.totals.left,
        x.totals.stored,
        x.totals.partsteps,
        x.totals.partfeet,
        u64::from(x.origin),
    ]
}

// Stays: the C interface is a row of 265 numbers, each at its place.
// The numbers of a listing: its head, and four for each line.
fn shown_numbers(x: &Listing) -> [u64; 265]
    ensures { result ≡ listing_numbers (told (Ok x.now)) }
{
    let mut numbers = [0; 265];
    exports::put_row(&head_row(x), &mut numbers, 0);
    for (i, line) in x.lines.iter().enumerate() {
        exports::put_row(&line_row(*line), &mut numbers, 9 + 4 * i);
    }
    numbers
}

// The numbers of a refused study: the refusal's number and its place, and zeros.
#[tactic(auto, unfolding(crate::specs::Forecast::refused_listing, crate::specs::Export::listing_numbers, crate::specs::Export::line_row, exports::specs::Rows::joined))]
fn refused_numbers(refused: Refused) -> [u64; 265]
    ensures { result ≡ listing_numbers (told (Err refused)) }
{
    let mut numbers = [0; 265];
    numbers[0] = u64::from(refused.refusal.number());
    numbers[1] = refused.offset as u64;
    numbers
}

// The numbers of a forecast, refused or not.
fn numbers_of(forecast: &Result<Listing, Refused>) -> [u64; 265]
    ensures { result ≡ listing_numbers (told forecast.now) }
{
    match forecast {
        Ok(listing) => shown_numbers(listing),
        Err(refused) => refused_numbers(*refused),
    }
}

// The forecast of a study, for C and Rust: its numbers go to the front of `out`, and the refusal's number, 0 for none, is the answer.
// The crate `study_c` exports it.
pub fn freeway_forecast(study: &[u8], out: &mut [u64]) -> u64
    ensures { (result ≡ export_answer study.now out.old) × (out.new ≡ export_into study.now out.old) }
{
    if out.len() < 265 {
        return u64::from(Refusal::NoRoom.number());
    }
    let numbers = numbers_of(&forecast(study));
    exports::put_row(&numbers, out, 0);
    numbers[0]
}
