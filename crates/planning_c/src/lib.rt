// A planning sheet worked out, exported for C and Rust.
#![tactic(auto)]

ghost use Rattle.std.specs.Prelude.{◌≡◌};
ghost use Rattle.planning.specs.Export.{export_of};

// Its numbers go to the front of `out`, the new carryover into its slice, and the refusal's number, 0 for none, is the answer.
#[unsafe(no_mangle)]
pub extern "C" fn freeway_plan(sheet: &[u8], carryover: &mut [u32], out: &mut [u64]) -> u64
    ensures { record { answer = result; carryover = carryover.new; out = out.new } ≡ export_of sheet.now carryover.old out.old }
{
    planning::freeway_plan(sheet, carryover, out)
}
