#![tactic(auto)]

ghost use Rattle.std.specs.Prelude.{◌≡◌, []};
ghost use Rattle.fault.specs.Refusals.{unless};
ghost use Rattle.barred.specs.Bars.{step_of, is_barred, is_open, has_other, barred_model};
ghost use Rattle.barred.specs.Barring.{bars_of, bar_fault, unbar_fault, bar_after, unbar_after};

mod steps;
mod store;

use arrayvec::ArrayVec;
use fault::{Fault, Reason};
use machine::Machine;
use steps::{Step, is_left, remove};
pub use store::Barred;

impl<M: Machine> Barred<M> {
    /// The machine with no step barred.
    pub fn new(machine: M) -> Barred<M>
        ensures machine { result.machine ≡ machine }
        ensures bars { bars_of result ≡ [] }
    {
        Barred {
            machine,
            bars: ArrayVec::new(),
            touched: [false; 1024],
        }
    }

    /// Takes away an open step between two states, unless it is the only one that is left to its state, or 64 are barred.
    pub fn bar(&mut self, from: usize, to: usize) -> Result<(), Fault>
        ensures answer { result ≡ unless (bar_fault (M.model self.old.machine) (bars_of self.old) from to) tt }
        ensures bars { bars_of self.new ≡ bar_after (M.model self.old.machine) (bars_of self.old) from to }
        ensures machine { self.new.machine ≡ self.old.machine }
    {
        let step = self.check_bar(from, to)?;
        self.touched[from] = true;
        self.bars.push(step);
        Ok(())
    }

    /// Gives a barred step back; a step that is not barred is refused.
    pub fn unbar(&mut self, from: usize, to: usize) -> Result<(), Fault>
        ensures answer { result ≡ unless (unbar_fault (M.model self.old.machine) (bars_of self.old) from to) tt }
        ensures bars { bars_of self.new ≡ unbar_after (M.model self.old.machine) (bars_of self.old) from to }
        ensures machine { self.new.machine ≡ self.old.machine }
    {
        let step = self.check_unbar(from, to)?;
        remove(&mut self.bars, step);
        self.touched[from] = is_left(&self.bars, from);
        Ok(())
    }

    /// The step between two states, unless it cannot be barred.
    fn check_bar(&self, from: usize, to: usize) -> Result<Step, Fault>
        ensures { result ≡ unless (bar_fault (M.model self.now.machine) (bars_of self.now) from to) (step_of from to) }
    {
        let step = Step::new(from, to, self.machine.states())?;
        if !self.is_open(from, to) {
            return Err(Reason::NotThatStep.at(from));
        }
        if !self.has_other(from, to) {
            return Err(Reason::OnlyWayOut.at(from));
        }
        if self.bars.is_full() {
            return Err(Reason::BarsUsedUp.at(64));
        }
        Ok(step)
    }

    /// The step between two states, unless it cannot be given back.
    fn check_unbar(&self, from: usize, to: usize) -> Result<Step, Fault>
        ensures { result ≡ unless (unbar_fault (M.model self.now.machine) (bars_of self.now) from to) (step_of from to) }
    {
        let step = Step::new(from, to, self.machine.states())?;
        if !self.is_barred(from, to) {
            return Err(Reason::NotThatStep.at(from));
        }
        Ok(step)
    }

    /// Whether the step is barred; where no bar leaves a state, this is known without a look at the bars.
    fn is_barred(&self, from: usize, to: usize) -> bool
        ensures { result ≡ is_barred (bars_of self.now) from to }
    {
        self.touched.get(from).is_some_and(|touched| *touched)
            && self.bars.iter().any(|bar| bar.joins(from, to))
    }

    /// Whether the machine has the step, and it is not barred.
    fn is_open(&self, from: usize, to: usize) -> bool
        ensures { result ≡ is_open (M.model self.now.machine) (bars_of self.now) from to }
    {
        self.machine.step(from, to).is_some() && !self.is_barred(from, to)
    }

    /// Whether another step out of the same state is open.
    fn has_other(&self, from: usize, to: usize) -> bool
        ensures { result ≡ has_other (M.model self.now.machine) (bars_of self.now) from to }
    {
        (0..self.machine.states()).any(|other| other != to && self.is_open(from, other))
    }
}

/// The machine below, but for the steps that are barred.
impl<M: Machine> Machine for Barred<M> {
    ghost use Rattle.barred.specs.Laws.{barred_lawful};

    ghost model = { λ b. barred_model (M.Machine.model b.machine) b.bars.items };

    ghost lawful = { λ b. barred_lawful (M.Machine.lawful b.machine) b.bars.items };

    fn states(&self) -> usize {
        self.machine.states()
    }

    fn names(&self) -> usize {
        self.machine.names()
    }

    fn knows(&self, word: &[u8]) -> bool {
        self.machine.knows(word)
    }

    fn bears(&self, state: usize, word: &[u8]) -> bool {
        self.machine.bears(state, word)
    }

    fn step(&self, from: usize, to: usize) -> Option<u16> {
        if self.is_barred(from, to) {
            None
        } else {
            self.machine.step(from, to)
        }
    }
}
