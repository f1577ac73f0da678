// Plays lists of calls from standard input, one call a line, and prints each line again with its answer:
//     lay HEX    take HEX    run K    report SEGMENT    totals    write-road [ROOM [PLACE]]    write-period [ROOM [PLACE]]
// HEX is bytes in hexadecimal, `-` for none: `take -` takes the sheet in force once more. ROOM is that of the buffer, up to 65,536, which is also the default; PLACE is 0 by default.
#![tactic(auto)]

use door::Facility;
use input::{CHUNK_ROOM, LINE_ROOM, Lines, STUDY_ROOM};
use records::FILL;
use refusals::{Refusal, Refused};
use std::io;
use std::io::Write;

// What laying or taking gave: the bytes used, or the refusal.
fn say_used<W: Write>(output: &mut W, answer: Result<usize, Refused>) -> io::Result<()> {
    match answer {
        Ok(used) => write!(output, "ok used {used}"),
        Err(refused) => write!(output, "{refused}"),
    }
}

// A refusal that carries no place.
fn say_refused<W: Write>(output: &mut W, refusal: Refusal) -> io::Result<()> {
    write!(output, "{}", Refused::from(refusal))
}

// Stays: no plainer. The output, the facility and what is left of the record go to each call's function here; a struct of them would be opened in each.
fn lay<W: Write>(output: &mut W, f: &mut Facility, rest: &[u8]) -> Option<io::Result<()>> {
    let mut buffer = [0; STUDY_ROOM];
    let laid = facility::lay(records::only_bytes(rest, &mut buffer)?);
    *f = laid.facility;
    Some(say_used(output, laid.answer))
}

fn take<W: Write>(output: &mut W, f: &mut Facility, rest: &[u8]) -> Option<io::Result<()>> {
    let mut buffer = [0; STUDY_ROOM];
    let answer = facility::take(f, records::only_bytes(rest, &mut buffer)?);
    Some(say_used(output, answer))
}

fn run<W: Write>(output: &mut W, f: &mut Facility, rest: &[u8]) -> Option<io::Result<()>> {
    Some(match facility::run(f, records::only_number(rest)?) {
        Ok(()) => write!(output, "ok"),
        Err(refusal) => say_refused(output, refusal),
    })
}

fn report<W: Write>(output: &mut W, f: &Facility, rest: &[u8]) -> Option<io::Result<()>> {
    Some(match facility::report(f, records::only_number(rest)?) {
        Ok(r) => write!(
            output,
            "ok n {} q {} f {} r {} off {} y {} {} total-off {} total-y {} partfeet {}",
            r.n, r.q, r.main, r.ramp, r.off, r.out, r.level, r.tally.off, r.tally.out, r.partfeet
        ),
        Err(refusal) => say_refused(output, refusal),
    })
}

fn totals<W: Write>(output: &mut W, f: &Facility, rest: &[u8]) -> Option<io::Result<()>> {
    if text::next_word(rest).is_some() {
        return None;
    }
    Some(match facility::totals(f) {
        Ok(sums) => write!(
            output,
            "ok arrived {} left {} stored {} partsteps {} partfeet {}",
            sums.arrived, sums.left, sums.stored, sums.partsteps, sums.partfeet
        ),
        Err(refusal) => say_refused(output, refusal),
    })
}

// Stays: no plainer. The filled buffers of three programs differ in size, in what is refused and in what is said; one function would take all three.
// Writes a sheet to a filled buffer of the room and from the place that are left of a record.
fn write_sheet<W: Write, F: FnOnce(&Facility, &mut [u8], usize) -> Result<usize, Refusal>>(
    output: &mut W,
    f: &Facility,
    rest: &[u8],
    write: F,
) -> Option<io::Result<()>>
    requires { F.IsAlwaysCallable write }
{
    let [room, place] = records::numbers(rest, [STUDY_ROOM as u32, 0])?;
    let at = place as usize;
    let mut buffer = [FILL; STUDY_ROOM];
    let Some(part) = buffer.get_mut(..room as usize) else {
        return Some(write!(output, "room above {STUDY_ROOM}"));
    };
    let written = write(f, &mut *part, at).map_err(Refused::from);
    Some(records::say_written(output, written, part, at))
}

// Answers a record; none where it is no call.
fn answer<W: Write>(output: &mut W, f: &mut Facility, record: &[u8]) -> Option<io::Result<()>> {
    let (name, rest) = text::next_word(record)?;
    match name {
        b"lay" => lay(output, f, rest),
        b"take" => take(output, f, rest),
        b"run" => run(output, f, rest),
        b"report" => report(output, f, rest),
        b"totals" => totals(output, f, rest),
        b"write-road" => write_sheet(output, f, rest, facility::write_road),
        b"write-period" => write_sheet(output, f, rest, facility::write_period),
        _ => None,
    }
}

// Plays a call, and prints its answer.
fn play<W: Write>(output: &mut W, f: &mut Facility, record: &[u8]) -> io::Result<()> {
    records::say_answer(
        output,
        record,
        |output| answer(output, f, record),
        "not a call",
    )
}

fn main(rt: HostRuntime) {
    let mut f = facility::lay(b"").facility;
    records::play_all_tried(
        &mut Lines::<_, CHUNK_ROOM>::new(&mut rt.stdin()),
        &mut [0; LINE_ROOM],
        &mut rt.stdout(),
        &mut rt.stderr(),
        |output, record| play(output, &mut f, record),
    );
}
