// The conversions between the two layouts of period sheets, exported for C and Rust.
#![tactic(auto)]

ghost use Rattle.std.specs.Prelude.{◌≡◌};
ghost use Rattle.convert.specs.Convert.{export_of};
ghost use Rattle.convert.specs.declared.Way.TheVariants.{ToSecond, ToFirst};

use convert::Way;

// The refusal's number, 0 for none, is the answer; count gets that of the bytes written, or the refusal's offset.
#[unsafe(no_mangle)]
pub extern "C" fn freeway_to_second(study: &[u8], target: &mut [u8], count: &mut u64) -> u64
    ensures { record { refusal = result; count = count.new; target = target.new } ≡ export_of ToSecond study.now target.old }
{
    convert::freeway_convert(Way::ToSecond, study, target, count)
}

// The same back to the first layout.
// Stays: the C interface. It has a function of its own for each way.
#[unsafe(no_mangle)]
pub extern "C" fn freeway_to_first(study: &[u8], target: &mut [u8], count: &mut u64) -> u64
    ensures { record { refusal = result; count = count.new; target = target.new } ≡ export_of ToFirst study.now target.old }
{
    convert::freeway_convert(Way::ToFirst, study, target, count)
}
