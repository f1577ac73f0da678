// Reads a study from standard input and prints its letters, period by period, or the one line of its refusal.
#![tactic(auto)]

fn main(rt: HostRuntime) {
    if let Err(what) = input::answer_study(
        &mut rt.stdin(),
        &mut rt.stdout(),
        drawing::print_letters,
        "cannot write the answer",
    ) {
        let _ = eprintln!(rt; "letters: {what}");
    }
}
