// Letters worked out over and over, by the walk in use and by the one before it, so that the two can be timed in one run.
#![tactic(auto)]

ghost use Rattle.std.specs.Prelude.{◌≡◌, ◌*◌, ◌%◌, ◌<◌, ◌≤◌, ℕ};
ghost use Rattle.steps.specs.Step.{sum_to};
ghost use Rattle.levels.specs.Level.{letter_byte, level_of, holds_at_most};
ghost use Rattle.timing.specs.Repeated.{level_in};

use levels::Level;

// What the letters of 64 segments reckon with.
#[repr(C)]
pub struct Segments {
    pub n: [u32; 64],
    pub length: [u32; 64],
    pub lanes: [u32; 64],
}

// So many letters, summed up as their bytes.
pub fn sum_of_letters<F: Fn(u32) -> Level>(level: F, times: u32) -> u64
    requires { F.IsAlwaysCallable level }
    ensures sum { (tells : ℕ → Level) → ((i : ℕ) (r : Level) → i < 4294967296 → F.post level i r → r ≡ tells i) → result ≡ sum_to (λ i. letter_byte (tells i)) times }
    ensures most { result ≤ 256 * times }
{
    let mut sum = 0;
    for i in 0..times {
        sum += u64::from(u8::from(level(i)));
    }
    sum
}

// The level letter by the walk of before: each product stops at the largest number of 64 bits.
#[tactic(auto, unfolding(levels::specs::Level::holds_at_most))]
fn level_before(n: u32, length: u32, lanes: u32) -> Level
    ensures { result ≡ level_of n length lanes }
{
    let area = u64::from(length) * u64::from(lanes);
    levels::graded(
        |limit: u8| -> bool
            ensures { result ≡ holds_at_most limit n area }
        { 22 * u64::from(n) <= u64::from(limit).saturating_mul(area) },
    )
}

// So many letters of 64 segments in turn, by the walk in use, summed up as their bytes.
#[unsafe(no_mangle)]
pub extern "C" fn freeway_time_letters(segments: &Segments, times: u32) -> u64
    ensures { result ≡ sum_to (λ i. letter_byte (level_in segments.now (i % 64))) times }
{
    sum_of_letters(
        |i: u32| -> Level
            ensures { result ≡ level_in segments.entry.now (i % 64) }
        {
            let k = i as usize % 64;
            levels::level_of(segments.n[k], segments.length[k], segments.lanes[k])
        },
        times,
    )
}

// The same by the walk of before.
#[unsafe(no_mangle)]
pub extern "C" fn freeway_time_letters_before(segments: &Segments, times: u32) -> u64
    ensures { result ≡ sum_to (λ i. letter_byte (level_in segments.now (i % 64))) times }
{
    sum_of_letters(
        |i: u32| -> Level
            ensures { result ≡ level_in segments.entry.now (i % 64) }
        {
            let k = i as usize % 64;
            level_before(segments.n[k], segments.length[k], segments.lanes[k])
        },
        times,
    )
}
