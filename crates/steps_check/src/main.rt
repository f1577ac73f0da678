// Steps roads from standard input, and prints the state and the flows after each step. A record is a line:
//     road HEX             a road, from a fresh state
//     steps COUNT PERIOD   puts a sheet in force at once, and makes 1 to 60 steps under it from the state before
// HEX and PERIOD are the bytes of the sheets in hexadecimal. A road gets at most 96 sheets. What is refused changes nothing.
#![tactic(auto)]

use door::Facility;
use input::{CHUNK_ROOM, LINE_ROOM, Lines, STUDY_ROOM};
use segment::Cell;
use std::io;
use std::io::Write;

// A line for a segment, with the letter by the open lanes.
fn say_cell<W: Write>(output: &mut W, f: &Facility, i: u32, cell: &Cell) -> io::Result<()> {
    let length = parts::segment_at(&f.road, i).length;
    let opened = parts::entry_at(&f.period, i).opened;
    let level = levels::level_of(cell.n, length, opened);
    let number = u64::from(i) + 1;
    write!(output, "  {number} n {} q {}", cell.n, cell.q)?;
    write!(
        output,
        " f {} r {} off {} y {}",
        cell.main, cell.ramp, cell.off, cell.out
    )?;
    writeln!(output, " {level} remainder {}", cell.remainder)
}

fn say_cells<W: Write>(output: &mut W, f: &Facility) -> io::Result<()> {
    for (i, cell) in (0..f.road[0]).zip(f.state.cells.iter()) {
        say_cell(output, f, i, cell)?;
    }
    Ok(())
}

fn say_sums<W: Write>(output: &mut W, f: &Facility) -> io::Result<()> {
    writeln!(
        output,
        "step origin {} arrived {} left {} partsteps {}",
        f.state.origin, f.arrived, f.left, f.partsteps
    )
}

// Makes a step and prints what it leaves.
fn step<W: Write>(output: &mut W, f: &mut Facility) -> io::Result<()> {
    if f.is_sound() && 0 < f.taken && f.made < 60 {
        running::make_steps(f, 1);
        say_sums(output, f)?;
        return say_cells(output, f);
    }
    writeln!(output, "no step")
}

// The road of these bytes, in a fresh state; none where they are not the bytes of one.
fn fresh_on(bytes: &[u8]) -> Option<Facility> {
    let sheet = sheets::read_road(bytes).ok()?;
    let f = facility::fresh_on(sheet.numbers);
    if sheet.used == bytes.len() && f.is_sound() {
        Some(f)
    } else {
        None
    }
}

// The same facility under one sheet more, that of these bytes; none where they are not the bytes of one, or 96 are taken.
fn under(f: &Facility, bytes: &[u8]) -> Option<Facility> {
    let sheet = sheets::read_period(bytes, &f.road).ok()?;
    if 96 <= f.taken {
        return None;
    }
    let mut g = *f;
    facility::put_in_force(&mut g, sheet.numbers);
    if sheet.used == bytes.len() && g.is_sound() {
        Some(g)
    } else {
        None
    }
}

fn play_road<W: Write>(output: &mut W, f: &mut Facility, rest: &[u8]) -> Option<io::Result<()>> {
    let mut buffer = [0; STUDY_ROOM];
    let bytes = records::only_bytes(rest, &mut buffer)?;
    let Some(g) = fresh_on(bytes) else {
        return Some(writeln!(output, "not a road"));
    };
    *f = g;
    Some(writeln!(output, "ok"))
}

fn make_steps<W: Write>(output: &mut W, f: &mut Facility, count: u32) -> io::Result<()> {
    writeln!(output, "ok")?;
    for _ in 0..count {
        step(output, f)?;
    }
    Ok(())
}

fn play_steps<W: Write>(output: &mut W, f: &mut Facility, rest: &[u8]) -> Option<io::Result<()>> {
    let (word, rest) = text::next_word(rest)?;
    let count = text::number(word)?;
    let mut buffer = [0; STUDY_ROOM];
    let bytes = records::only_bytes(rest, &mut buffer)?;
    if count == 0 || 60 < count {
        return None;
    }
    let Some(g) = under(f, bytes) else {
        return Some(writeln!(output, "not a period"));
    };
    *f = g;
    Some(make_steps(output, f, count))
}

// Answers a record; none where it is none.
fn answer<W: Write>(output: &mut W, f: &mut Facility, record: &[u8]) -> Option<io::Result<()>> {
    let (name, rest) = text::next_word(record)?;
    match name {
        b"road" => play_road(output, f, rest),
        b"steps" => play_steps(output, f, rest),
        _ => None,
    }
}

// Plays a record, and prints its answer.
fn play<W: Write>(output: &mut W, f: &mut Facility, record: &[u8]) -> io::Result<()> {
    records::say_record(output, record);
    match answer(output, f, record) {
        Some(answered) => answered,
        None => writeln!(output, "not a record"),
    }
}

fn main(rt: HostRuntime) {
    let mut f = facility::fresh_on([0; 452]);
    records::play_all_tried(
        &mut Lines::<_, CHUNK_ROOM>::new(&mut rt.stdin()),
        &mut [0; LINE_ROOM],
        &mut rt.stdout(),
        &mut rt.stderr(),
        |output, record| play(output, &mut f, record),
    );
}
