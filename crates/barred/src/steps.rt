ghost use Rattle.std.specs.Prelude.{◌≡◌, ◌≤◌, ◌==◌, None};
ghost use Rattle.std.specs.List.{list_any};
ghost use Rattle.fault.specs.Refusals.{unless};
ghost use Rattle.barred.specs.Bars.{step_of, is_step, without};
ghost use Rattle.barred.specs.Barring.{ends_fault};

use arrayvec::ArrayVec;
use fault::{Fault, Reason};

/// The step between two states of a machine; two bytes hold a state's number, so that the bars take little room.
#[derive(Clone, Copy, Debug, Default, PartialEq, Eq)]
pub(crate) struct Step {
    pub(crate) from: u16,
    pub(crate) to: u16,
}

impl Step {
    /// The step between two of so many states; where one is no state, it is refused.
    pub(crate) fn new(from: usize, to: usize, states: usize) -> Result<Step, Fault>
        requires { states ≤ 1024 }
        ensures { result ≡ unless (ends_fault states from to None) (step_of from to) }
    {
        if from >= states {
            return Err(Reason::NoSuchState.at(from));
        }
        if to >= states {
            return Err(Reason::NoSuchState.at(to));
        }
        Ok(Step {
            from: from as u16,
            to: to as u16,
        })
    }

    /// Whether it is the step between these two.
    pub(crate) fn joins(self, from: usize, to: usize) -> bool
        ensures { result ≡ is_step self from to }
    {
        usize::from(self.from) == from && usize::from(self.to) == to
    }
}

/// Takes out the bars of the step.
pub(crate) fn remove(bars: &mut ArrayVec<Step, 64>, step: Step)
    ensures { bars.new.items ≡ without bars.old.items step.from step.to }
{
    bars.retain(|bar| *bar != step);
}

/// Whether some bar leaves the state.
pub(crate) fn is_left(bars: &[Step], from: usize) -> bool
    ensures { result ≡ list_any (λ bar. bar.from == from) bars.now }
{
    bars.iter().any(|bar| usize::from(bar.from) == from)
}
