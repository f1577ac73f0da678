// Turns a study's bytes into text: its numbers in decimal, one to a line, each with a comment that names it. A study that is refused ends
// in a comment on its bad field.
#![tactic(auto)]

// The buffer serves every study: the refusal of a longer one is decided within its first 32,300 bytes.
fn main(rt: HostRuntime) {
    to_text::turn(
        &mut rt.stdin(),
        &mut rt.stdout(),
        &mut rt.stderr(),
        &mut [0; input::STUDY_ROOM],
    );
}
