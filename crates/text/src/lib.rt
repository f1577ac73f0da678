// Text for people, line by line: words with white space between them, and decimal numbers. A comment goes from a `#` to the end of its line.
#![tactic(auto)]

ghost use Rattle.std.specs.Prelude.{◌≡◌, ◌≤◌, ◌<◌, ◌+◌, ◌++◌, Bool, true, false, List, ℕ, MatchOption, IfSome, length};
ghost use Rattle.std.specs.List.{position_or_len};
ghost use Rattle.text.specs.Text.{is_white, is_digit, stops, digit_of, with_digit, IsNoWord, IsWord, word_at, number_of, same_word};

// Whether a byte is white space.
#[tactic(auto, unfolding(crate::specs::Text::is_white))]
pub fn is_white(b: u8) -> bool
    ensures { result ≡ is_white b }
{
    (b == b' ') | ((b'\t' <= b) & (b <= b'\r'))
}

// Whether a byte is `0` to `9`.
#[tactic(auto, unfolding(crate::specs::Text::is_digit))]
fn is_digit(b: u8) -> bool
    ensures { result ≡ is_digit b }
{
    b.is_ascii_digit()
}

// Whether a byte ends a word.
#[tactic(auto, unfolding(crate::specs::Text::stops))]
fn ends_word(b: u8) -> bool
    ensures { result ≡ stops true b }
{
    is_white(b) || b == b'#'
}

// How many bytes a line has before the first that stops; all where none does.
fn count_before<F: Fn(u8) -> bool>(line: &[u8], stops: F) -> usize
    requires { F.IsAlwaysCallable stops }
    ensures { (tells : ℕ → Bool) → ((b : ℕ) (r : Bool) → F.post stops b r → r ≡ tells b)
        → (result ≡ position_or_len tells line.now) × (result ≤ length line.now) }
{
    line.iter().position(|b| stops(*b)).unwrap_or(line.len())
}

// How many bytes of white space a line begins with.
fn white_space(line: &[u8]) -> usize
    ensures { (result ≡ position_or_len (stops false) line.now) × (result ≤ length line.now) }
{
    count_before(
        line,
        |b: u8| -> bool
            ensures { result ≡ stops false b }
        { !is_white(b) },
    )
}

// How many bytes of a word a line begins with.
fn word_length(line: &[u8]) -> usize
    ensures { (result ≡ position_or_len (stops true) line.now) × (result ≤ length line.now) }
{
    count_before(line, ends_word)
}

// The next word of a line, and what stands behind it.
pub fn next_word(line: &[u8]) -> Option<(&[u8], &[u8])>
    ensures word { (front : List ℕ) → let whole = front ++ line.now in let at = length front in
        MatchOption result (IsNoWord (word_at whole at)) (λ p. IsWord whole (word_at whole at) p.0.now p.1.now) }
    ensures within { IfSome result (λ p. (0 < length p.0.now) × (length p.0.now + length p.1.now ≤ length line.now)) }
{
    let from = &line[white_space(line)..];
    let count = word_length(from);
    if count == 0 {
        return None;
    }
    Some(from.split_at(count))
}

// The value of a decimal digit.
#[tactic(auto, unfolding(crate::specs::Text::is_digit, crate::specs::Text::digit_of))]
fn digit(b: u8) -> Option<u8>
    ensures { result ≡ digit_of b }
{
    if is_digit(b) { Some(b - b'0') } else { None }
}

// The number that one more digit makes of a number.
#[tactic(auto, unfolding(crate::specs::Text::digit_of, crate::specs::Text::with_digit))]
fn with_digit(value: u32, b: u8) -> Option<u32>
    ensures { result ≡ with_digit value b }
{
    let digit = digit(b)?;
    value.checked_mul(10)?.checked_add(u32::from(digit))
}

// The number that a word says.
// Stays: no plainer. The library's `parse` also takes a `+` before the digits, and bytes that are no text would have to be told from it first.
#[tactic(auto, unfolding(crate::specs::Text::number_of))]
pub fn number(word: &[u8]) -> Option<u32>
    ensures { result ≡ number_of word.now }
{
    if word.is_empty() {
        return None;
    }
    let mut value = 0;
    for b in word {
        value = with_digit(value, *b)?;
    }
    Some(value)
}

// Whether two words are the same.
// Stays: no plainer. Words that are compared and not matched are compared here, and that each byte decides is a promise of docs/TRACE.
pub fn same(a: &[u8], b: &[u8]) -> bool
    ensures { result ≡ same_word a.now b.now }
{
    a == b
}
