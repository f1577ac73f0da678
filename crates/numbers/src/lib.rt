// Seven-bit numbers: groups of seven bits, lowest group first, the top bit set on all groups but the last.
#![tactic(auto)]

ghost use Rattle.std.specs.Prelude.{◌≡◌, ◌+◌, ◌*◌, ◌^◌, ◌<◌, ◌≤◌, MatchResult};
ghost use lib.ListN.{drop};
ghost use Rattle.numbers.specs.Number.{reading, read_number, last, number_bytes, above};
ghost use Rattle.numbers.specs.Field.{read_field};
ghost use Rattle.numbers.specs.Writing.{writing, write_answer, write_into};

pub mod reader;

use refusals::Refusal;

// A number that was read: its value and the place after it.
#[derive(Clone, Copy, Debug, PartialEq, Eq)]
pub struct Number {
    pub value: u32,
    pub next: usize,
}

// The values that a field may have, and the refusal of any other.
#[derive(Clone, Copy, Debug, PartialEq, Eq)]
pub struct Range {
    pub low: u32,
    pub high: u32,
    pub refusal: Refusal,
}

// The number with its last group b, of weight scale above the groups so far; not the shortest form where b is below the least that may end it.
#[tactic(auto, unfolding(crate::specs::Number::above, crate::specs::Number::last))]
fn finished(value: u32, scale: u32, b: u32, least: u32, at: usize) -> Result<Number, Refusal>
    requires { (value + scale * b < 2 ^ 32) × (at + 1 < 2 ^ 64) }
    ensures { reading result ≡ above value scale at (last least b) }
{
    if b < least {
        return Err(Refusal::NotShortest);
    }
    Ok(Number {
        value: value + scale * b,
        next: at + 1,
    })
}

// Reads the number that starts at a place of the bytes.
pub fn read(bytes: &[u8], at: usize) -> Result<Number, Refusal>
    ensures { reading result ≡ read_number bytes.now at }
{
    let mut i = at;
    let mut value: u32 = 0;
    let mut scale: u32 = 1;
    let mut least: u32 = 0;
    let mut left: u32 = 4;
    // Stays: a rule of the project. A loop yields the number or its refusal by break, which no `for` does.
    let got = loop {
        let Some(byte) = bytes.get(i) else {
            break Err(Refusal::Cut);
        };
        let b = u32::from(*byte);
        if left == 0 {
            if 15 < b {
                break Err(Refusal::TooWide);
            }
            break finished(value, scale, b, least, i);
        }
        if b < 128 {
            break finished(value, scale, b, least, i);
        }
        value = value + scale * (b - 128);
        scale = scale * 128;
        least = 1;
        i += 1;
        left -= 1;
    };
    got
}

// Reads a field: the number that starts at a place, refused where it is outside its range.
#[tactic(auto, unfolding(crate::specs::Field::read_field, crate::specs::Field::in_range))]
pub fn read_field(bytes: &[u8], at: usize, range: Range) -> Result<Number, Refusal>
    ensures { reading result ≡ read_field range bytes.now at }
{
    let number = read(bytes, at)?;
    if number.value < range.low || range.high < number.value {
        return Err(range.refusal);
    }
    Ok(number)
}

// How many bytes a number takes.
#[tactic(auto, unfolding(crate::specs::Number::number_bytes, crate::specs::Number::bytes_from))]
pub fn length(value: u32) -> usize
    ensures { result ≡ lib.ListN.length (number_bytes value) }
{
    if value < 128 {
        return 1;
    }
    if value < 16384 {
        return 2;
    }
    if value < 2097152 {
        return 3;
    }
    if value < 268435456 {
        return 4;
    }
    5
}

// Fills out, which is as long as the number's bytes, with them.
pub fn put(out: &mut [u8], value: u32)
    requires { lib.ListN.length out.old ≡ lib.ListN.length (number_bytes value) }
    ensures { out.new ≡ number_bytes value }
{
    let mut rest = value;
    for byte in out.iter_mut() {
        *byte = if 128 <= rest {
            (128 + rest % 128) as u8
        } else {
            rest as u8
        };
        rest = rest / 128;
    }
}

// Whether so many bytes fit into a buffer from a place on.
pub fn room(buffer: &[u8], at: usize, count: usize) -> Result<(), Refusal>
    ensures { MatchResult result (λ _. at + count ≤ lib.ListN.length buffer.now) (λ e. (e ≡ Refusal.NoRoom) × (lib.ListN.length buffer.now < at + count)) }
{
    if at <= buffer.len() && count <= buffer.len() - at {
        Ok(())
    } else {
        Err(Refusal::NoRoom)
    }
}

// Writes a number into a lent buffer from a place, and says how many bytes; the buffer stays as it was where the rest is too short.
#[tactic(auto, unfolding(crate::specs::Writing::room_at, crate::specs::Writing::write_answer, crate::specs::Writing::write_into))]
pub fn write(buffer: &mut [u8], at: usize, value: u32) -> Result<usize, Refusal>
    ensures { (writing result ≡ write_answer buffer.old at (number_bytes value))
        × (buffer.new ≡ write_into buffer.old at (number_bytes value)) }
{
    let n = length(value);
    room(buffer, at, n)?;
    put(&mut buffer[at..at + n], value);
    Ok(n)
}
