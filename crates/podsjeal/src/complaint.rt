ghost use Rattle.std.specs.Prelude.{◌≡◌, IfOk};

use crate::command::Command;
use fault::Fault;
use std::alloc::AllocError;
use std::io;
use std::process::ExitCode;
use thiserror::Error;

pub(crate) const USAGE: &str =
    "usage: podsjeal examine MACHINE or podsjeal rules MACHINE FILE, where MACHINE is sheet:FILE, ring:N,C,A or pair X Y";

/// Why the words of a command line are not carried out.
#[derive(Debug, Drop, Error)]
pub(crate) enum Complaint<'w> {
    #[error("no command is given")]
    NoCommand,
    #[error("there is no command {0:?}")]
    NoSuchCommand(&'w str),
    #[error("{}", .0.usage())]
    WrongWords(Command<'w>),
    #[error("no file of rules is given")]
    NoRules,
    #[error("{0:?} names no machine")]
    NoMachine(&'w str),
    #[error("cannot read {path:?}: {cause}")]
    Unreadable { path: &'w str, cause: io::Error },
    #[error("{0}")]
    BadSheet(#[from] Fault),
    #[error(transparent)]
    Memory(#[from(alloc)] AllocError),
    #[error(transparent)]
    Output(#[from] io::Error),
}

/// Says what is wrong, and answers with the status of a failure.
pub(crate) fn refuse(rt: &HostRuntime, complaint: Complaint) -> anyhow::Result<ExitCode>
    ensures { IfOk result (λ status. status ≡ ExitCode.FAILURE) }
{
    match complaint {
        Complaint::Memory(cause) => return Err(cause.into()),
        Complaint::Output(cause) => return Err(cause.into()),
        Complaint::BadSheet(fault) => println!(rt; "{fault}")?,
        other => eprintln!(rt; "podsjeal: {other}; {USAGE}")?,
    }
    Ok(ExitCode::FAILURE)
}
