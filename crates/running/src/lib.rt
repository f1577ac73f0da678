// Steps made on a facility under its sheet in force.
#![tactic(auto)]

ghost use Rattle.std.specs.Prelude.{◌≡◌};
ghost use Rattle.running.specs.Steps.{steps_of};
ghost use Rattle.running.specs.Ready.{Ready};

use door::Facility;

// Makes k steps under the sheet in force, in place. The segments' part-feet are added once, after the last step.
pub fn make_steps(f: &mut Facility, k: u32)
    requires { Ready f.old k }
    ensures { f.new ≡ steps_of k f.old }
{
    let conditions = conditions::work_out(&f.road, &f.period);
    let arrives = u64::from(steps::arrived(&conditions));
    let before = f.tallies;
    for _ in 0..k {
        let leaves = steps::step(&conditions, &mut f.state, &mut f.tallies);
        f.made += 1;
        f.arrived += arrives;
        f.left += u64::from(leaves);
        f.partsteps += f.arrived.saturating_sub(f.left);
    }
    steps::drive(&conditions, &before, &f.tallies, &mut f.partfeet);
}
