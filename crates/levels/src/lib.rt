// The level letter of a segment, and the grading by the letters' limits that a facility's letter goes by too.
#![tactic(auto)]

ghost use Rattle.std.specs.Prelude.{◌≡◌, ◌∷◌, [], ℕ, Bool, false, Some, ◌*◌, ◌<◌};
ghost use Rattle.levels.specs.Level.{graded, holds_at_most, level_by, level_of, letter_byte};

use std::fmt;
use std::fmt::Write;

// The level letter.
#[derive(Clone, Copy, Debug, PartialEq, Eq)]
pub enum Level {
    A,
    B,
    C,
    D,
    E,
    F,
}

// The letter of what is not within 11: B within 18, then C, D, E within 26, 35, 45, else F.
fn past_a<F: Fn(u8) -> bool>(within: F) -> Level
    requires { F.IsAlwaysCallable within }
    ensures { (tells : ℕ → Bool) → ((limit : ℕ) (r : Bool) → limit < 256 → F.post within limit r → r ≡ tells limit) → tells 11 ≡ false → result ≡ graded tells }
{
    if within(18) {
        Level::B
    } else if within(26) {
        Level::C
    } else if within(35) {
        Level::D
    } else if within(45) {
        Level::E
    } else {
        Level::F
    }
}

// The letter of what is graded, by whether it is within a limit: A within 11, then B, C, D, E within 18, 26, 35, 45, else F.
pub fn graded<F: Fn(u8) -> bool>(within: F) -> Level
    requires { F.IsAlwaysCallable within }
    ensures { (tells : ℕ → Bool) → ((limit : ℕ) (r : Bool) → limit < 256 → F.post within limit r → r ≡ tells limit) → result ≡ graded tells }
{
    if within(11) { Level::A } else { past_a(within) }
}

// The level letter of n parts in an area that is below 2 × n, which is past A. All products fit.
#[tactic(auto, unfolding(crate::specs::Level::holds_at_most))]
fn level_past_a(n: u32, area: u64) -> Level
    requires { area < 2 * n }
    ensures { result ≡ level_by n area }
{
    past_a(
        |limit: u8| -> bool
            requires { area < 2 * n }
            ensures { result ≡ holds_at_most limit n area }
        { 22 * u64::from(n) <= u64::from(limit) * area },
    )
}

// The level letter of a segment that holds n parts. 22 × n is at most 11 × the area exactly where 2 × n is at most the area.
pub fn level_of(n: u32, length: u32, lanes: u32) -> Level
    ensures { result ≡ level_of n length lanes }
{
    let area = u64::from(length) * u64::from(lanes);
    if 2 * u64::from(n) <= area {
        return Level::A;
    }
    level_past_a(n, area)
}

// The letter's byte.
impl From<Level> for u8 {
    ghost from_gives = { λ level byte. byte ≡ letter_byte level };

    fn from(level: Level) -> u8 {
        b'A' + level as u8
    }
}

impl fmt::Display for Level {
    ghost output = { λ level. Some (letter_byte level ∷ []) };

    fn fmt<W: fmt::Write>(&self, f: &mut fmt::Formatter<W>) -> fmt::Result {
        f.write_char(u8::from(*self) as char)
    }
}
