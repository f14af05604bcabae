ghost use Rattle.std.specs.Prelude.{◌↔◌, IfOk, IsTrue};
ghost use Rattle.machine.specs.Model.{among};
ghost use Rattle.podsjeal.specs.Judged.{IsRule};

use crate::complaint::Complaint;
use crate::file::read_file;
use machine::Machine;
use report::{Verdict, lines};
use std::io;
use std::io::{BufWriter, Write};
use std::process::ExitCode;

/// Says of one line whether it is a rule, and answers the same.
// The bool is the answer itself, and no flag beside one.
fn judge<M: Machine, W: Write>(
    out: &mut W,
    machine: &M,
    number: usize,
    text: &[u8],
) -> io::Result<bool>
    ensures { IfOk result (λ taken. IsTrue taken ↔ IsRule (among (M.model machine.now).names) text.now) }
{
    // A match, which leaves the rule where it is: `map` would move it, and it is large.
    let outcome = match rule::read(text, machine) {
        Ok(_) => Ok(()),
        Err(fault) => Err(fault),
    };
    let verdict = Verdict {
        number,
        text,
        outcome,
    };
    writeln!(out, "{verdict}")?;
    Ok(outcome.is_ok())
}

/// Says of each line whether it is a rule, and answers whether all are.
fn judge_lines<M: Machine, W: Write>(out: &mut W, machine: &M, bytes: &[u8]) -> io::Result<bool> {
    let mut all_taken = true;
    for (i, line) in lines(bytes).enumerate() {
        all_taken &= judge(out, machine, i + 1, line)?;
    }
    Ok(all_taken)
}

/// Says of each line of a file whether it is a rule for the machine.
// Not inlined: a rule is large, and would take its room on the stack where none is read, too.
#[inline(never)]
pub(crate) fn judge_file<'w, M: Machine>(
    rt: &HostRuntime,
    machine: &M,
    path: &'w str,
) -> Result<ExitCode, Complaint<'w>> {
    let bytes = read_file(rt, path)?;
    let mut out = BufWriter::new(rt.alloc(), rt.stdout())?;
    let all_taken = judge_lines(&mut out, machine, &bytes)?;
    out.flush()?;
    Ok(if all_taken {
        ExitCode::SUCCESS
    } else {
        ExitCode::FAILURE
    })
}
