// Reads a study from standard input and prints its listing, or the one line of its refusal.
#![tactic(auto)]

fn main(rt: HostRuntime) {
    if let Err(what) = input::answer_study(
        &mut rt.stdin(),
        &mut rt.stdout(),
        listing::print_study,
        "cannot write the listing",
    ) {
        let _ = eprintln!(rt; "forecast: {what}");
    }
}
