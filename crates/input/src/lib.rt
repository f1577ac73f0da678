// Reading a file, whole or line by line. Only a read that gives no bytes is the end, and a file whose end was seen is not read again.
#![tactic(auto)]

ghost use Rattle.std.specs.Prelude.{◌≡◌, ◌≤◌, length, MatchResult, IfOk, IfSome};
ghost use Rattle.input.specs.Lines.{line_length};

mod tried;

use std::io::{Read, Write};
use std::rt::Files;
use std::{fs, io};
pub use tried::Tried;

// Room for the bytes of every study.
pub const STUDY_ROOM: usize = 65536;

// Room for a line of text: every study's bytes in hexadecimal fit it, and its numbers in decimal with a space between them.
pub const LINE_ROOM: usize = 98304;

// Room for a chunk of a file.
pub const CHUNK_ROOM: usize = 4096;

// A file that was to be opened; where it was not, each read and write fails as the opening did.
#[derive(Drop)]
pub struct Opened<F> {
    file: io::Result<F>,
}

impl<F: Read> Read for Opened<F> {
    fn read(&mut self, buffer: &mut [u8]) -> io::Result<usize> {
        match &mut self.file {
            Ok(file) => file.read(buffer),
            Err(error) => Err(*error),
        }
    }
}

impl<F: Write> Write for Opened<F> {
    fn write(&mut self, bytes: &[u8]) -> io::Result<usize> {
        match &mut self.file {
            Ok(file) => file.write(bytes),
            Err(error) => Err(*error),
        }
    }

    fn flush(&mut self) -> io::Result<()> {
        match &mut self.file {
            Ok(file) => file.flush(),
            Err(error) => Err(*error),
        }
    }
}

// A path is text.
fn path(name: &[u8]) -> io::Result<&str> {
    str::from_utf8(name).map_err(|_| io::Error::from(io::ErrorKind::InvalidInput))
}

// Opens a file that is to be read.
pub fn open<R: Files>(files: &R, name: &[u8]) -> Opened<R::File> {
    Opened {
        file: path(name).and_then(|path| fs::open(files, path)),
    }
}

// Opens a file that is to be written from its start, and empties it.
pub fn create<R: Files>(files: &R, name: &[u8]) -> Opened<R::File> {
    Opened {
        file: path(name).and_then(|path| fs::create(files, path)),
    }
}

// A read failed: the bytes that were read before it.
#[derive(Clone, Copy)]
pub struct CutOff<'a> {
    pub bytes: &'a [u8],
}

// Reads until the file ends, a read fails or the buffer is full, and gives the bytes that were read, which stand at the buffer's start.
pub fn read_to_end<'a, R: Read>(file: &mut R, buffer: &'a mut [u8]) -> Result<&'a [u8], CutOff<'a>>
    ensures { MatchResult result (λ bytes. length bytes.now ≤ length buffer.old) (λ cut. length cut.bytes.now ≤ length buffer.old) }
{
    let mut length = 0;
    // Stays: no plainer. How much a read gives is known when it was made, so no `for` goes over the buffer.
    while length < buffer.len() {
        match file.read(&mut buffer[length..]) {
            Ok(0) => break,
            Ok(more) => length += more,
            Err(_) => {
                return Err(CutOff {
                    bytes: &buffer[..length],
                });
            }
        }
    }
    Ok(&buffer[..length])
}

// Reads a study and prints what it comes to. Answers what went wrong, if something did; what could not be written is told in the caller's words. The buffer
// serves every study: the refusal of a longer one is decided within its first 32,300 bytes.
pub fn answer_study<R: Read, W: Write, P: FnOnce(&mut W, &[u8]) -> io::Result<()>>(
    source: &mut R,
    output: &mut W,
    print: P,
    unwritten: &'static str,
) -> Result<(), &'static str>
    requires { P.IsAlwaysCallable print }
{
    let mut buffer = [0; STUDY_ROOM];
    let study = read_to_end(source, &mut buffer).map_err(|_| "cannot read the study")?;
    print(output, study).map_err(|_| unwritten)
}

// A line without its end, or the start of one that is longer than its buffer.
#[derive(Clone, Copy)]
pub enum Line<'a> {
    Whole(&'a [u8]),
    Long(&'a [u8]),
}

// A file that is read line by line: its last chunk, of which `at` of `count` bytes are taken; how the file ended, once it did; and whether
// the last byte was a carriage return.
// Stays: fixed memory. What is left of the chunk is no slice, since a struct holds none of its own array, so two places tell it.
#[derive(Drop)]
pub struct Lines<'a, R, const N: usize> {
    file: &'a mut R,
    chunk: [u8; N],
    at: usize,
    count: usize,
    end: Option<io::Result<()>>,
    returned: bool,
    ghost within: { (at ≤ count) × (count ≤ N) },
}

impl<'a, R: Read, const N: usize> Lines<'a, R, N> {
    // A file of which nothing was read yet.
    pub fn new(file: &'a mut R) -> Self {
        Lines {
            file,
            chunk: [0; N],
            at: 0,
            count: 0,
            end: None,
            returned: false,
        }
    }

    // Reads the next chunk, unless the end was seen or a read failed.
    fn refill(&mut self) -> io::Result<()> {
        if let Some(end) = self.end {
            return end;
        }
        match self.file.read(&mut self.chunk) {
            Ok(count) => {
                self.at = 0;
                self.count = count;
                if count == 0 {
                    self.end = Some(Ok(()));
                }
                Ok(())
            }
            Err(error) => {
                self.end = Some(Err(error));
                Err(error)
            }
        }
    }

    // Takes the next byte, none at the file's end.
    fn next_byte(&mut self) -> io::Result<Option<u8>> {
        if self.at == self.count {
            self.refill()?;
        }
        if self.at == self.count {
            return Ok(None);
        }
        let byte = self.chunk[self.at];
        self.at += 1;
        Ok(Some(byte))
    }

    // Takes the next line, which a line feed, a carriage return or both end; none at the file's end. Of a line that is longer than the
    // buffer the rest is passed over. A read that fails comes before all else, so that no half line is taken.
    pub fn next_line<'l>(&mut self, line: &'l mut [u8]) -> io::Result<Option<Line<'l>>>
        ensures { IfOk result (λ taken. IfSome taken (λ l. line_length l ≤ length line.old)) }
    {
        let mut length = 0;
        let mut is_long = false;
        for _ in 0..u64::MAX {
            let Some(byte) = self.next_byte()? else {
                if length == 0 && !is_long {
                    return Ok(None);
                }
                break;
            };
            let is_second = self.returned && byte == b'\n';
            self.returned = byte == b'\r';
            if byte == b'\n' || byte == b'\r' {
                if !is_second {
                    break;
                }
            } else if length < line.len() {
                line[length] = byte;
                length += 1;
            } else {
                is_long = true;
            }
        }
        let taken = &line[..length];
        Ok(Some(if is_long {
            Line::Long(taken)
        } else {
            Line::Whole(taken)
        }))
    }
}
