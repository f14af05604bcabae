#![tactic(auto)]

mod command;
mod complaint;
mod count;
mod examined;
mod file;
mod order;
mod request;
mod rules;
mod single;
mod source;

use command::Command;
use complaint::{Complaint, USAGE, refuse};
use examined::Examined;
use order::{Order, Subject};
use request::Request;
use single::Single;
use source::Source;
use std::env;
use std::process::ExitCode;

/// Carries a command out on a machine, once that is read.
fn on_one<'w>(
    rt: &HostRuntime,
    command: Command<'w>,
    request: Request<'w>,
) -> Result<ExitCode, Complaint<'w>> {
    let source = Source::load(rt, request)?;
    let examined = source.examined(rt.alloc())?;
    command.run(rt, &examined)
}

/// Carries a command out on two machines side by side, the left one read before the right one.
fn on_pair<'w>(
    rt: &HostRuntime,
    command: Command<'w>,
    left: Request<'w>,
    right: Request<'w>,
) -> Result<ExitCode, Complaint<'w>> {
    let source = Source::load(rt, left)?;
    let examined = source.examined(rt.alloc())?;
    on_right(rt, command, examined, right)
}

/// Carries a command out on a machine and the one to its right, once that is read.
// A function of its own: with both sources in one function the check makes no proof of how they are let go.
fn on_right<'s, 'w>(
    rt: &HostRuntime,
    command: Command<'w>,
    left: Examined<'s, Single<'s>>,
    right: Request<'w>,
) -> Result<ExitCode, Complaint<'w>> {
    let source = Source::load(rt, right)?;
    let examined = source.examined(rt.alloc())?;
    command.run(rt, &left.beside(examined)?)
}

/// Carries out the words of a command line.
fn obey<'w>(rt: &HostRuntime, words: &'w [String]) -> Result<ExitCode, Complaint<'w>> {
    match Order::try_from(words)? {
        Order::Help => {
            println!(rt; "{USAGE}")?;
            Ok(ExitCode::SUCCESS)
        }
        Order::On(command, Subject::One(request)) => on_one(rt, command, request),
        Order::On(command, Subject::Pair(left, right)) => on_pair(rt, command, left, right),
    }
}

fn main(rt: HostRuntime) -> anyhow::Result<ExitCode> {
    let words: Vec<String> = env::args(&rt)?.skip(1).collect(rt.alloc())?;
    match obey(&rt, &words) {
        Ok(status) => Ok(status),
        Err(complaint) => refuse(&rt, complaint),
    }
}
