// Turns a study of the first layout, whose period sheets have no open lanes, into the second with every lane open. A study that does not
// convert gets one line with its refusal on standard error and no bytes.
#![tactic(auto)]

use convert::Way;

// Stays: no plainer. A program for each way, of one call; a program of both would ask for an argument that these have not.
fn main(rt: HostRuntime) {
    converter::turn(
        Way::ToSecond,
        &mut rt.stdin(),
        &mut rt.stdout(),
        &mut rt.stderr(),
    );
}
