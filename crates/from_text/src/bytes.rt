// The bytes of the numbers so far, in a lent buffer.

ghost use Rattle.std.specs.Prelude.{◌≤◌, length};

use refusals::Refusal;

// They are the first ones of the buffer.
// Stays: fixed memory. The buffer is lent, and a count tells how much of it is used.
#[derive(Drop)]
pub struct Bytes<'a> {
    buffer: &'a mut [u8],
    used: usize,
    ghost within: { used ≤ length buffer.now },
}

impl<'a> Bytes<'a> {
    // None yet.
    pub fn new(buffer: &'a mut [u8]) -> Bytes<'a> {
        Bytes { buffer, used: 0 }
    }

    // Puts the bytes of a number behind them.
    pub fn put(&mut self, value: u32) -> Result<(), Refusal> {
        self.used += numbers::write(self.buffer, self.used, value)?;
        Ok(())
    }

    // How many there is room for.
    pub fn capacity(&self) -> usize {
        self.buffer.len()
    }

    pub fn as_slice(&self) -> &[u8] {
        &self.buffer[..self.used]
    }
}
