// Printing on where a write fails.
ghost use Rattle.std.specs.Prelude.{◌≡◌, None, Ok, IsOk, IsErr, OnOk, OnErr, length};
ghost use Rattle.std.specs.Io.{WritesAtMost};
ghost use Rattle.std.specs.Io.KnownBytes.{Appends, WriteAppends};

use std::io;
use std::io::Write;

// An output of which each write is tried: no write fails, what could not be written is lost, and the end tells the last failure. Where it tells
// none, all was written.
#[derive(Drop)]
pub struct Tried<'a, W> {
    output: &'a mut W,
    written: io::Result<()>,
}

impl<'a, W: Write> Tried<'a, W> {
    // One to which nothing was written yet.
    pub fn new(output: &'a mut W) -> Self
        ensures { IsOk result.written }
    {
        Tried {
            output,
            written: Ok(()),
        }
    }

    // Whether all was written.
    pub fn finish(self) -> io::Result<()>
        ensures { result ≡ self.entry.written }
    {
        let Tried { written, .. } = self;
        written
    }
}

impl<W: Write> Write for Tried<'_, W> {
    fn write(&mut self, buf: &[u8]) -> io::Result<usize>
        ensures bound { WritesAtMost result buf.now }
        ensures bytes { WriteAppends None None result buf.now }
        ensures tried { result ≡ Ok (length buf.now) }
        ensures kept { OnErr self.old.written (IsErr self.new.written) }
        ensures all { OnOk self.new.written (Appends (W.contents self.old.output.now) (W.contents self.new.output.now) buf.now) }
    {
        let _ = self.write_all(buf);
        Ok(buf.len())
    }

    fn write_all(&mut self, buf: &[u8]) -> io::Result<()>
        ensures bytes { OnOk result (Appends None None buf.now) }
        ensures tried { IsOk result }
        ensures kept { OnErr self.old.written (IsErr self.new.written) }
        ensures all { OnOk self.new.written (Appends (W.contents self.old.output.now) (W.contents self.new.output.now) buf.now) }
    {
        if let Err(error) = self.output.write_all(buf) {
            self.written = Err(error);
        }
        Ok(())
    }

    fn flush(&mut self) -> io::Result<()> {
        self.output.flush()
    }
}
