// Answers as rows of numbers, for programs in C and Rust.
#![tactic(auto)]

ghost use Rattle.std.specs.Prelude.{◌≡◌, ◌+◌, ◌≤◌, length};
ghost use Rattle.exports.specs.Rows.{put_row};

// Puts a row from the place k of the numbers on.
#[tactic(auto, unfolding(crate::specs::Rows::put_row))]
pub fn put_row(row: &[u64], numbers: &mut [u64], k: usize)
    requires { k + length row.now ≤ length numbers.old }
    ensures { numbers.new ≡ put_row row.now numbers.old k }
{
    numbers[k..k + row.len()].copy_from_slice(row);
}
