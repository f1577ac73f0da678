// Bytes in hexadecimal, two digits each.
#![tactic(auto)]

ghost use Rattle.std.specs.Prelude.{◌≡◌, ◌≤◌, ◌<◌, length, IfSome, IfOk};
ghost use Rattle.hexadecimal.specs.Spelling.{hex_value, byte_of, read_bytes, HasBytes};

// Why a word gives no bytes: they are more than the room has, or it is not bytes in hexadecimal.
#[derive(Clone, Copy, PartialEq, Eq, Debug)]
pub enum SpellingError {
    TooLong,
    NotHexadecimal,
}

// The value of a hexadecimal digit.
#[tactic(auto, unfolding(crate::specs::Spelling::hex_value, text::specs::Text::is_digit))]
fn hex_value(b: u8) -> Option<u8>
    ensures value { result ≡ hex_value b }
    ensures range { IfSome result (λ v. v < 16) }
{
    match b {
        b'0'..=b'9' => Some(b - b'0'),
        b'a'..=b'f' => Some(b - b'a' + 10),
        b'A'..=b'F' => Some(b - b'A' + 10),
        _ => None,
    }
}

// The byte that two digits spell.
#[tactic(auto, unfolding(crate::specs::Spelling::byte_of))]
fn byte_of(high: u8, low: u8) -> Option<u8>
    ensures { result ≡ byte_of (hex_value high) (hex_value low) }
{
    let high = hex_value(high)?;
    let low = hex_value(low)?;
    Some(16 * high + low)
}

// Puts the bytes that a word spells, two digits each, at the start of a lent buffer, and says how many they are.
// Stays: the proof did not close. With the bytes answered as a part of the buffer, no clause on the buffer itself was proved.
pub fn bytes(word: &[u8], out: &mut [u8]) -> Result<usize, SpellingError>
    ensures spelled { (result ≡ read_bytes (length out.old) word.now) × HasBytes result word.now out.new }
    ensures within { IfOk result (λ count. count ≤ length out.new) }
{
    let count = word.len() / 2;
    if out.len() < count {
        return Err(SpellingError::TooLong);
    }
    // Stays: the proof did not close. Tried over `chunks_exact(2).enumerate()`, where what the buffer has by then has to be said of what the chunks have left.
    for n in 0..count {
        let Some(byte) = byte_of(word[2 * n], word[2 * n + 1]) else {
            return Err(SpellingError::NotHexadecimal);
        };
        out[n] = byte;
    }
    if word.len() % 2 == 1 {
        return Err(SpellingError::NotHexadecimal);
    }
    Ok(count)
}
