// What the programs share that play records from standard input, one a line: the records, their words, and how answers are printed.
// A comment goes from a `#` to the end of its line. What stands behind an arrow, ` -> `, is an answer from before and is passed over.
#![tactic(auto)]

ghost use Rattle.std.specs.Prelude.{◌≡◌, ◌≢◌, ◌<◌, ◌≤◌, ℕ, List, IfSome, MatchOption, Some, length, slice_index};
ghost use Rattle.text.specs.Text.{number_of};
ghost use Rattle.records.specs.Rest.{taken_of, IsPartOf, IsOnlyWord, AreBytesOf, AreNumbersOf, IsOutside};

#[cfg(test)]
mod tests;

use input::{Line, Lines, Tried};
use refusals::Refused;
use std::io::{Read, Write};
use std::{fmt, io};

// The byte that a buffer is filled with before it is written to, so that what a writing leaves alone can be told.
pub const FILL: u8 = 0xAA;

// Bytes that print as their hexadecimal digits, `-` for none.
#[derive(Clone, Copy)]
pub struct Hexadecimal<'a>(pub &'a [u8]);

impl fmt::Display for Hexadecimal<'_> {
    fn fmt<W: fmt::Write>(&self, f: &mut fmt::Formatter<W>) -> fmt::Result {
        if self.0.is_empty() {
            return write!(f, "-");
        }
        for b in self.0 {
            write!(f, "{b:02x}")?;
        }
        Ok(())
    }
}

// The place of the first byte outside a part of a buffer that is not what the buffer was filled with.
// Stays: no plainer. `position` tells its closure no place, and a `find` over the places would index the buffer by hand.
fn altered_at(buffer: &[u8], fill: u8, at: usize, count: usize) -> Option<usize>
    ensures { MatchOption result
        ((k : ℕ) → k < length buffer.now → IsOutside at count k → slice_index buffer.now k ≡ fill)
        (λ i. (i < length buffer.now) × IsOutside at count i × (slice_index buffer.now i ≢ fill)) }
{
    for (i, b) in buffer.iter().enumerate() {
        if *b != fill && (i < at || count <= i - at) {
            return Some(i);
        }
    }
    None
}

// Tells where a filled buffer is altered outside a part that was to be written.
// Stays: no plainer. The part is told by its place and its count, as a writing is asked for and answers.
pub fn say_altered<W: Write>(output: &mut W, buffer: &[u8], fill: u8, at: usize, count: usize) {
    if let Some(place) = altered_at(buffer, fill, at, count) {
        let _ = write!(output, ", and the buffer is altered at {place}");
    }
}

// The bytes that a call wrote to a filled buffer from a place on, or its refusal; and where a byte is altered that had to stay.
pub fn say_written<W: Write>(
    output: &mut W,
    written: Result<usize, Refused>,
    buffer: &[u8],
    at: usize,
) -> io::Result<()> {
    match written {
        Ok(count) => {
            write!(output, "ok ")?;
            if let Some(bytes) = buffer.get(at..).and_then(|bytes| bytes.get(..count)) {
                write!(output, "{}", Hexadecimal(bytes))?;
            }
            say_altered(output, buffer, FILL, at, count);
        }
        Err(refused) => {
            write!(output, "{refused}")?;
            say_altered(output, buffer, FILL, 0, 0);
        }
    }
    Ok(())
}

// The record again, and the arrow before its answer.
pub fn say_record<W: Write>(output: &mut W, record: &[u8]) {
    let _ = output.write_all(record);
    let _ = output.write_all(b" -> ");
}

// A record with its answer, on a line: what the answer prints, or the words that stand for none.
pub fn say_answer<W: Write, A: FnOnce(&mut W) -> Option<io::Result<()>>>(
    output: &mut W,
    record: &[u8],
    answer: A,
    none: &str,
) -> io::Result<()>
    requires { A.IsAlwaysCallable answer }
{
    say_record(output, record);
    match answer(output) {
        Some(answered) => answered?,
        None => write!(output, "{none}")?,
    }
    writeln!(output)
}

// The part of a line that is a record, from its first word to the last before an arrow or a comment, and what stands behind it; none of a
// line with no word.
fn split_record(line: &[u8]) -> Option<(&[u8], &[u8])>
    ensures { IfSome result (λ p. IsPartOf line.now p.0.now) }
{
    let (name, mut rest) = text::next_word(line)?;
    let start = line.len() - rest.len() - name.len();
    while let Some((word, left)) = text::next_word(rest) {
        if text::same(word, b"->") {
            break;
        }
        rest = left;
    }
    Some((&line[start..line.len() - rest.len()], rest))
}

// The record of a line that is longer than its buffer, which has the start of it: whole where a comment or an arrow stands behind it,
// else it is told, and none.
fn record_in_long<'a, W: Write>(output: &mut W, start: &'a [u8]) -> Option<&'a [u8]>
    ensures { IfSome result (λ part. IsPartOf start.now part.now) }
{
    let (record, behind) = match split_record(start) {
        Some((record, behind)) => (Some(record), behind),
        None => (None, start),
    };
    if behind.iter().any(|b| !text::is_white(*b)) {
        return record;
    }
    let length = start.len();
    let _ = output.write_all(start);
    let _ = writeln!(output, "... -> longer than {length} bytes, and not played");
    None
}

// The record of a line; none of a line that is empty, a comment or too long, which is told.
fn record_of<'a, W: Write>(output: &mut W, line: Line<'a>) -> Option<&'a [u8]>
    ensures { IfSome result (λ part. IsPartOf (taken_of line.entry) part.now) }
{
    match line {
        Line::Whole(whole) => Some(split_record(whole)?.0),
        Line::Long(start) => record_in_long(output, start),
    }
}

// Plays each record of a file, in order, on the output itself; a line of it has to fit the buffer. What cannot be printed here is lost, what playing
// a record answers is passed over, and a read that fails is told.
pub fn play_all<
    R: Read,
    W: Write,
    E: Write,
    P: FnMut(&mut W, &[u8]) -> io::Result<()>,
    const N: usize,
>(lines: &mut Lines<'_, R, N>, line: &mut [u8], output: &mut W, errors: &mut E, mut play: P)
    requires { P.IsAlwaysCallable play }
{
    for _ in 0..u64::MAX {
        match lines.next_line(line) {
            Ok(Some(taken)) => {
                if let Some(record) = record_of(output, taken) {
                    let _ = play(output, record);
                }
            }
            Ok(None) => return,
            Err(_) => {
                let _ = writeln!(errors, "standard input cannot be read");
                return;
            }
        }
    }
}

// The same, on an output of which each write is tried: what cannot be printed is lost, and the calls are made all the same.
pub fn play_all_tried<
    R: Read,
    W: Write,
    E: Write,
    P: FnMut(&mut Tried<'_, W>, &[u8]) -> io::Result<()>,
    const N: usize,
>(lines: &mut Lines<'_, R, N>, line: &mut [u8], output: &mut W, errors: &mut E, play: P)
    requires { P.IsAlwaysCallable play }
{
    play_all(lines, line, &mut Tried::new(output), errors, play);
}

// The one word of what is left of a record; none where there is no word or more than one.
pub fn only_word(rest: &[u8]) -> Option<&[u8]>
    ensures is { IfSome result (λ word. IsOnlyWord rest.now word.now) }
    ensures within { IfSome result (λ word. length word.now ≤ length rest.now) }
{
    let (word, behind) = text::next_word(rest)?;
    match text::next_word(behind) {
        Some(_) => None,
        None => Some(word),
    }
}

// The one number of what is left of a record.
pub fn only_number(rest: &[u8]) -> Option<u32>
    ensures { IfSome result (λ n. (word : List ℕ) × IsOnlyWord rest.now word × (number_of word ≡ Some n)) }
{
    text::number(only_word(rest)?)
}

// The bytes of a word, `-` for none, put at the start of a lent buffer.
pub fn bytes_of<'a>(word: &[u8], out: &'a mut [u8]) -> Option<&'a [u8]>
    ensures are { IfSome result (λ bytes. AreBytesOf word.now bytes.now) }
    ensures within { IfSome result (λ bytes. length bytes.now ≤ length out.old) }
{
    if text::same(word, b"-") {
        return Some(&out[..0]);
    }
    if word.is_empty() {
        return None;
    }
    let count = hexadecimal::bytes(word, out).ok()?;
    Some(&out[..count])
}

// The bytes of the one word of what is left of a record.
pub fn only_bytes<'a>(rest: &[u8], out: &'a mut [u8]) -> Option<&'a [u8]>
    ensures are { IfSome result (λ bytes. (word : List ℕ) × IsOnlyWord rest.now word × AreBytesOf word bytes.now) }
    ensures within { IfSome result (λ bytes. length bytes.now ≤ length out.old) }
{
    bytes_of(only_word(rest)?, out)
}

// Puts the numbers of what is left of a record in the place of the first of these; nothing where one is no number, or there are more.
fn put_numbers(rest: &[u8], numbers: &mut [u32]) -> Option<()>
    ensures { IfSome result (λ _. AreNumbersOf rest.now numbers.old numbers.new) }
{
    let mut left = rest;
    for number in numbers.iter_mut() {
        let Some((word, behind)) = text::next_word(left) else {
            return Some(());
        };
        *number = text::number(word)?;
        left = behind;
    }
    match text::next_word(left) {
        Some(_) => None,
        None => Some(()),
    }
}

// The numbers of what is left of a record, with defaults for those at its end that it does not give; none where one is no number, or
// there are more.
pub fn numbers<const N: usize>(rest: &[u8], defaults: [u32; N]) -> Option<[u32; N]>
    ensures { IfSome result (λ numbers. AreNumbersOf rest.now defaults.entry numbers) }
{
    let mut numbers = defaults;
    put_numbers(rest, &mut numbers)?;
    Some(numbers)
}
