// What no clause says: which records are played, and that they are played on the output itself.
use super::*;

// What is printed of a record here begins with the room that the output had left, which only the output itself tells.
#[test]
fn records_are_played_on_the_output_itself(rt: HostRuntime) {
    let mut file: &[u8] = b"take 0a # a\n\n# none\ntotals -> ok\na line of 21 letters!\n";
    let mut room = [b'.'; 96];
    let mut output: &mut [u8] = &mut room;
    let mut errors: &mut [u8] = &mut [];
    play_all(
        &mut Lines::<_, 5>::new(&mut file),
        &mut [0; 16],
        &mut output,
        &mut errors,
        |output: &mut &mut [u8], record| {
            let left = output.len();
            write!(output, "{left} ")?;
            output.write_all(record)?;
            writeln!(output)
        },
    );
    assert_eq!(rt;
        room,
        *b"96 take 0a\n85 totals\na line of 21 let... -> longer than 16 bytes, and not played\n..............."
    );
}
