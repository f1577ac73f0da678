// A plan as 325 numbers, in the order of the header, for programs in C and Rust.

ghost use Rattle.std.specs.Prelude.{◌≡◌, [], map};
ghost use Rattle.sections.specs.Section.{outcome};
ghost use Rattle.planning.specs.Export.{bits, head_row, answer_row, plan_numbers, export_of};
ghost use Rattle.planning.specs.View.{planned};

use crate::{Planned, plan};
use levels::Level;
use refusals::{Refusal, Refused};
use sections::answer::Answer;
use std::num::f64_to_bits_with_nan;

// An f64 by its bits.
fn bits(x: f64) -> u64
    ensures { result ≡ bits x }
{
    f64_to_bits_with_nan(x)
}

// The refusal's number and offset, the bytes used, the facility's density and letter.
#[tactic(auto, using(crate::proofs::Handed::zero_bits), unfolding(crate::specs::Plan::refused_plan))]
fn head_row(plan: &Result<Planned, Refused>) -> [u64; 5]
    ensures { result ≡ head_row (planned plan.now []) }
{
    match plan {
        Ok(p) => [
            0,
            0,
            p.used as u64,
            bits(p.density),
            u64::from(u8::from(p.level)),
        ],
        Err(refused) => [
            u64::from(refused.refusal.number()),
            refused.offset as u64,
            0,
            0,
            u64::from(u8::from(Level::A)),
        ],
    }
}

// The answers of 64 sections.
#[tactic(auto, unfolding(crate::specs::Plan::refused_plan))]
fn answers_of(plan: &Result<Planned, Refused>) -> [Answer; 64]
    ensures { map outcome result ≡ (planned plan.now []).answers }
{
    match plan {
        Ok(p) => p.answers,
        Err(_) => [Answer::none(); 64],
    }
}

// A section's case, RU, RO, speed and density.
#[tactic(auto, unfolding(crate::specs::Export::answer_row))]
fn answer_row(answer: Answer) -> [u64; 5]
    ensures { result ≡ answer_row (outcome answer) }
{
    match answer {
        Answer::Free { speed, density } => [0, 0, 0, bits(speed), bits(density)],
        Answer::Slowed {
            under,
            speed,
            density,
        } => [1, bits(under), 0, bits(speed), bits(density)],
        Answer::Queued {
            under,
            over,
            speed,
            density,
        } => [2, bits(under), bits(over), bits(speed), bits(density)],
    }
}

// Stays: the C interface is a row of 325 numbers, each at its place.
// The numbers of a plan, refused or not.
fn numbers_of(plan: &Result<Planned, Refused>) -> [u64; 325]
    ensures { result ≡ plan_numbers (planned plan.now []) }
{
    let mut numbers = [0; 325];
    exports::put_row(&head_row(plan), &mut numbers, 0);
    for (i, answer) in answers_of(plan).iter().enumerate() {
        exports::put_row(&answer_row(*answer), &mut numbers, 5 + 5 * i);
    }
    numbers
}

// A planning sheet worked out, for C and Rust: its numbers go to the front of `out`, the new carryover into its slice, and the refusal's number, 0 for
// none, is the answer. The crate `planning_c` exports it.
pub fn freeway_plan(sheet: &[u8], carryover: &mut [u32], out: &mut [u64]) -> u64
    ensures { record { answer = result; carryover = carryover.new; out = out.new } ≡ export_of sheet.now carryover.old out.old }
{
    if out.len() < 325 {
        return u64::from(Refusal::NoRoom.number());
    }
    let numbers = numbers_of(&plan(sheet, carryover));
    exports::put_row(&numbers, out, 0);
    numbers[0]
}
