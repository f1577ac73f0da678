// What a comment tells of a field that is refused.

use refusals::Refusal;
use std::fmt;

// What the refusal of a field says. The reading of a study refuses a field in one more way, `OtherRoad`, and the periods past the 96th are
// told without a reason.
pub fn reason(refusal: Refusal) -> &'static str {
    match refusal {
        Refusal::Cut => "the bytes end before the number does",
        Refusal::TooWide => "a fifth group has its top bit set or is above 15",
        Refusal::NotShortest => "a number of two or more groups ends in a zero group",
        Refusal::OutOfRange => "a field is outside its range",
        _ => "a period sheet's NS isn't the road's",
    }
}

// What stands at the start of the bytes: a number, or bytes that are none.
#[derive(Clone, Copy)]
pub struct Found<'a> {
    pub bytes: &'a [u8],
}

impl fmt::Display for Found<'_> {
    fn fmt<W: fmt::Write>(&self, f: &mut fmt::Formatter<W>) -> fmt::Result {
        if self.bytes.is_empty() {
            return write!(f, "no byte");
        }
        match numbers::read(self.bytes, 0) {
            Ok(number) => {
                let value = number.value;
                write!(f, "{value}")
            }
            Err(_) => write_groups(f, self.bytes),
        }
    }
}

// The bytes of a number that cannot be read, at most five, in hexadecimal.
fn write_groups<W: fmt::Write>(f: &mut fmt::Formatter<W>, bytes: &[u8]) -> fmt::Result {
    write!(f, "the bytes ")?;
    for b in bytes.iter().take(5) {
        write!(f, "{b:02x}")?;
        if *b < 128 {
            break;
        }
    }
    Ok(())
}
