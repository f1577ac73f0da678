// Turns a sheet or study written as decimal numbers in text into its bytes. Bad text gets one line on standard error and no bytes.
#![tactic(auto)]

// The numbers of every study, and their bytes, fit the rooms of a line and of a study.
fn main(rt: HostRuntime) {
    from_text::turn(
        &mut rt.stdin(),
        &mut rt.stdout(),
        &mut rt.stderr(),
        &mut [0; input::LINE_ROOM],
        &mut [0; input::STUDY_ROOM],
    );
}
