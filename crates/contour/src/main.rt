// Reads a study from standard input and prints its picture, a standalone SVG, or the one line of its refusal.
#![tactic(auto)]

fn main(rt: HostRuntime) {
    if let Err(what) = input::answer_study(
        &mut rt.stdin(),
        &mut rt.stdout(),
        drawing::print_contour,
        "cannot write the answer",
    ) {
        let _ = eprintln!(rt; "contour: {what}");
    }
}
