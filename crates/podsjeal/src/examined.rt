ghost use Rattle.std.specs.Prelude.{◌≡◌, ◌++◌, IfOk};

use crate::count::all_steps;
use machine::Machine;
use pair::Pair;
use std::alloc::AllocError;
use std::io;
use std::io::{BufWriter, Write};

/// A machine that a command is about, and the list of its names.
#[derive(Drop)]
pub(crate) struct Examined<'a, M> {
    pub(crate) machine: M,
    pub(crate) names: Vec<&'a [u8]>,
}

impl<'a, M: Drop> Examined<'a, M> {
    /// The pair of two machines, with the left one's names first.
    pub(crate) fn beside<R: Drop>(
        self,
        right: Examined<'a, R>,
    ) -> Result<Examined<'a, Pair<M, R>>, AllocError>
        ensures { IfOk result (λ both. both.names.items ≡ self.entry.names.items ++ right.entry.names.items) }
    {
        let Examined { machine, mut names } = self;
        names.extend(right.names)?;
        Ok(Examined {
            machine: Pair::new(machine, right.machine),
            names,
        })
    }
}

impl<M: Machine> Examined<'_, M> {
    /// A line with those of the names that a state bears, each once.
    fn describe_state<W: Write>(&self, out: &mut W, state: usize) -> io::Result<()> {
        write!(out, "state {state}:")?;
        for (i, name) in self.names.iter().enumerate() {
            if self.machine.bears(state, name) && !self.names[..i].contains(name) {
                out.write_all(b" ")?;
                out.write_all(name)?;
            }
        }
        writeln!(out, "")
    }

    /// A line for each step out of a state.
    fn describe_steps<W: Write>(&self, out: &mut W, from: usize) -> io::Result<()> {
        for to in 0..self.machine.states() {
            if let Some(seconds) = self.machine.step(from, to) {
                writeln!(out, "step {from} -> {to}: {seconds} seconds")?;
            }
        }
        Ok(())
    }

    /// The counts of the machine, a line for each state, a line for each step.
    fn describe_all<W: Write>(&self, out: &mut W) -> io::Result<()> {
        let states = self.machine.states();
        let names = self.machine.names();
        let steps = all_steps(&self.machine);
        writeln!(out, "{states} states, {names} names, {steps} steps")?;
        (0..states).try_for_each(|state| self.describe_state(out, state))?;
        (0..states).try_for_each(|state| self.describe_steps(out, state))
    }

    /// Says what the machine is.
    pub(crate) fn describe(&self, rt: &HostRuntime) -> io::Result<()> {
        let mut out = BufWriter::new(rt.alloc(), rt.stdout())?;
        self.describe_all(&mut out)?;
        out.flush()
    }
}
