ghost use Rattle.std.specs.Prelude.{◌≡◌, Some, codes};
ghost use Rattle.std.specs.List.{repeat};
ghost use Rattle.report.specs.Verdicts.{column_of, columns_of, verdict_of};

use fault::Fault;
use std::fmt;

/// The byte that is shown for a byte, so that each takes one column.
fn column(b: u8) -> u8
    ensures { result ≡ column_of b }
{
    match b {
        b' '..=b'~' => b,
        _ => b'?',
    }
}

/// A text of which each byte takes one column.
#[derive(Clone, Copy)]
struct Columns<'a> {
    text: &'a [u8],
}

impl fmt::Display for Columns<'_> {
    ghost output = { λ c. Some (columns_of c.text.now) };

    fn fmt<W: fmt::Write>(&self, f: &mut fmt::Formatter<W>) -> fmt::Result {
        for b in self.text {
            f.write_char(char::from(column(*b)))?;
        }
        Ok(())
    }
}

/// The blanks before the mark.
// No width in a format: each blank is written by itself, so that a writer with little room gets all that fits.
#[derive(Clone, Copy)]
struct Gap {
    width: usize,
}

impl fmt::Display for Gap {
    ghost output = { λ g. Some (repeat g.width (codes " ")) };

    fn fmt<W: fmt::Write>(&self, f: &mut fmt::Formatter<W>) -> fmt::Result {
        for _ in 0..self.width {
            f.write_str(" ")?;
        }
        Ok(())
    }
}

/// What is said of a line of rules: that it is one, or its fault, its text, and a mark below the fault's place.
#[derive(Clone, Copy, Debug)]
pub struct Verdict<'a> {
    pub number: usize,
    pub text: &'a [u8],
    pub outcome: Result<(), Fault>,
}

impl fmt::Display for Verdict<'_> {
    ghost output = { λ v. Some (verdict_of v.number v.text.now v.outcome) };

    fn fmt<W: fmt::Write>(&self, f: &mut fmt::Formatter<W>) -> fmt::Result {
        let number = self.number;
        match self.outcome {
            Ok(()) => write!(f, "{number}: ok"),
            Err(fault) => {
                let columns = Columns { text: self.text };
                let gap = Gap { width: fault.place };
                write!(f, "{number}: {fault}\n    {columns}\n    {gap}^")
            }
        }
    }
}
