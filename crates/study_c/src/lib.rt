// The forecast of a study, exported for C and Rust.
#![tactic(auto)]

ghost use Rattle.std.specs.Prelude.{◌≡◌};
ghost use Rattle.study.specs.Export.{export_answer, export_into};

// Its numbers go to the front of `out`, and the refusal's number, 0 for none, is the answer.
#[unsafe(no_mangle)]
pub extern "C" fn freeway_forecast(study: &[u8], out: &mut [u64]) -> u64
    ensures { (result ≡ export_answer study.now out.old) × (out.new ≡ export_into study.now out.old) }
{
    study::freeway_forecast(study, out)
}
