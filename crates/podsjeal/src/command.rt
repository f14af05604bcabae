use crate::complaint::Complaint;
use crate::examined::Examined;
use crate::rules::judge_file;
use machine::Machine;
use std::process::ExitCode;

/// What the command line asks about a machine.
#[derive(Clone, Copy, Debug)]
pub(crate) enum Command<'w> {
    Examine,
    Rules { file: &'w str },
}

impl<'w> Command<'w> {
    /// The words that the command takes.
    pub(crate) fn usage(self) -> &'static str {
        match self {
            Command::Examine => "examine takes one machine",
            Command::Rules { .. } => "rules takes one machine and one file",
        }
    }

    /// Carries the command out on a machine.
    pub(crate) fn run<M: Machine>(
        self,
        rt: &HostRuntime,
        examined: &Examined<'_, M>,
    ) -> Result<ExitCode, Complaint<'w>> {
        match self {
            Command::Examine => {
                examined.describe(rt)?;
                Ok(ExitCode::SUCCESS)
            }
            Command::Rules { file } => judge_file(rt, &examined.machine, file),
        }
    }
}
