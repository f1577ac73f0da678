// Reading a row of fields, one after the other: once, for every sheet and every width.
ghost use Rattle.std.specs.Prelude.{◌≡◌, ℕ, ◌<◌, ◌≤◌, List};
ghost use Rattle.numbers.specs.Number.{Reading, reading};
ghost use Rattle.numbers.specs.Row.{fields};
ghost use Rattle.numbers.specs.Filled.{rows, filled};

use crate::Number;
use refusals::{Refusal, Refused};

// A row of at most N numbers, with zeros after them, and the count of bytes used.
#[derive(Clone, Copy)]
pub struct Row<const N: usize> {
    pub numbers: [u32; N],
    pub used: usize,
}

// How a sheet of at most N places reads the field of each.
pub trait Fields<const N: usize> {
    ghost field: { Self → List ℕ → ℕ → ℕ → Reading };

    fn read_place(&self, bytes: &[u8], k: usize, at: usize) -> Result<Number, Refusal>
        requires { k < N }
        ensures { reading result ≡ field self.now bytes.now k at };
}

// Reads so many fields of a sheet from a place of the bytes on.
pub fn read_fields<const N: usize, F: Fields<N>>(
    sheet: &F,
    bytes: &[u8],
    from: usize,
    count: usize,
) -> Result<Row<N>, Refused>
    requires { count ≤ N }
    ensures { rows result ≡ filled N (fields (F.field sheet.now bytes.now) count 0 from) }
{
    let mut numbers = [0u32; N];
    let mut at = from;
    for k in 0..count {
        match sheet.read_place(bytes, k, at) {
            Ok(number) => {
                numbers[k] = number.value;
                at = number.next;
            }
            Err(refusal) => {
                return Err(Refused {
                    refusal,
                    offset: at,
                });
            }
        }
    }
    Ok(Row { numbers, used: at })
}
