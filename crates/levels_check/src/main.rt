// Works out level letters from standard input, one a line, and prints each record again with its letter:
//     letter N LENGTH LANES
// N is the segment's parts, LENGTH its feet, LANES those that the letter reckons with: any numbers of 32 bits. Those not given are 0.
#![tactic(auto)]

use input::{CHUNK_ROOM, LINE_ROOM, Lines};
use std::io;
use std::io::Write;

// The letter that a record asks for; none where it is no record.
fn answer<W: Write>(output: &mut W, record: &[u8]) -> Option<io::Result<()>> {
    let (name, rest) = text::next_word(record)?;
    let [n, length, lanes] = records::numbers(rest, [0, 0, 0])?;
    match name {
        b"letter" => Some(write!(output, "{}", levels::level_of(n, length, lanes))),
        _ => None,
    }
}

// Plays a record, and prints its answer.
fn play<W: Write>(output: &mut W, record: &[u8]) -> io::Result<()> {
    records::say_answer(
        output,
        record,
        |output| answer(output, record),
        "not a record",
    )
}

fn main(rt: HostRuntime) {
    records::play_all_tried(
        &mut Lines::<_, CHUNK_ROOM>::new(&mut rt.stdin()),
        &mut [0; LINE_ROOM],
        &mut rt.stdout(),
        &mut rt.stderr(),
        |output, record| play(output, record),
    );
}
