// What a plan gives.

ghost use Rattle.std.specs.Prelude.{◌≡◌, length};

use levels::Level;
use sections::answer::Answer;

// What a sheet gives: the bytes used; an answer for each section, free with zeros past the section count; the facility's density and level.
#[derive(Clone, Copy)]
pub struct Planned {
    pub used: usize,
    pub answers: [Answer; 64],
    pub density: f64,
    pub level: Level,
    ghost room: { length answers ≡ 64 },
}
