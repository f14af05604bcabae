ghost use Rattle.std.specs.Prelude.{◌≡◌, ◌≤◌};
ghost use Rattle.podsjeal.specs.Counts.{steps_out, all_steps};

use machine::Machine;

/// How many steps leave a state.
fn steps_out<M: Machine>(machine: &M, state: usize) -> usize
    ensures value { result ≡ steps_out (M.model machine.now) state }
    ensures bound { result ≤ 1024 }
{
    // Added up as numbers: with `filter` and `count` going through a pair of rings took 1.3 times as long.
    (0..machine.states())
        .map(|to| usize::from(machine.step(state, to).is_some()))
        .sum()
}

/// How many steps a machine has.
pub(crate) fn all_steps<M: Machine>(machine: &M) -> usize
    ensures { result ≡ all_steps (M.model machine.now) }
{
    (0..machine.states())
        .map(|state| steps_out(machine, state))
        .sum()
}
