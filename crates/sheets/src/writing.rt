// Writing a row's numbers into a lent buffer.
ghost use Rattle.std.specs.Prelude.{◌≡◌, length};
ghost use Rattle.numbers.specs.Writing.{writing, write_answer, write_into};
ghost use Rattle.sheets.specs.Write.{row_bytes};

use refusals::Refusal;

// How many bytes the numbers take.
pub fn row_length(row: &[u32]) -> usize
    ensures { result ≡ length (row_bytes row.now) }
{
    let mut n: usize = 0;
    for value in row {
        n += numbers::length(*value);
    }
    n
}

// Fills out, which is as long as the numbers' bytes, with them.
fn put_row(out: &mut [u8], row: &[u32])
    requires { length out.old ≡ length (row_bytes row.now) }
    ensures { out.new ≡ row_bytes row.now }
{
    let mut i: usize = 0;
    for value in row {
        let n = numbers::length(*value);
        numbers::put(&mut out[i..i + n], *value);
        i += n;
    }
}

// Stays: no plainer. A number's writer differs in what it counts and puts, and both share the test for room.
// Writes the numbers into a lent buffer from a place, and says how many bytes; the buffer stays as it was where the rest is too short.
#[tactic(auto, unfolding(numbers::specs::Writing::room_at, numbers::specs::Writing::write_answer, numbers::specs::Writing::write_into))]
pub fn write_row(buffer: &mut [u8], at: usize, row: &[u32]) -> Result<usize, Refusal>
    ensures { (writing result ≡ write_answer buffer.old at (row_bytes row.now))
        × (buffer.new ≡ write_into buffer.old at (row_bytes row.now)) }
{
    let n = row_length(row);
    numbers::room(buffer, at, n)?;
    put_row(&mut buffer[at..at + n], row);
    Ok(n)
}
