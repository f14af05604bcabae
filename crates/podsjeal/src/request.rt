ghost use Rattle.std.specs.Prelude.{ℕ, MatchOption, MatchResult};
ghost use Rattle.podsjeal.specs.Requests.{IsDecimal, IsTriple, IsRing};

use crate::complaint::Complaint;

/// A machine as the command line names it.
#[derive(Clone, Copy)]
pub(crate) enum Request<'w> {
    Sheet(&'w str),
    Ring {
        sectors: usize,
        turn: usize,
        aim: usize,
    },
}

/// A number in decimal digits.
fn number(word: &str) -> Option<usize>
    ensures { MatchOption result ((n : ℕ) → IsDecimal word.now n → ⊥) (IsDecimal word.now) }
{
    if word.bytes().all(|b| b.is_ascii_digit()) {
        word.parse().ok()
    } else {
        None
    }
}

/// Three numbers with commas between them.
// Three bare numbers, in the order in which a ring takes them: they live from here to the next call.
fn triple(word: &str) -> Option<(usize, usize, usize)>
    ensures { MatchOption result ((n c a : ℕ) → IsTriple word.now n c a → ⊥) (λ t. IsTriple word.now t.0 t.1 t.2) }
{
    let (sectors, rest) = word.split_once(',')?;
    let (turn, aim) = rest.split_once(',')?;
    Some((number(sectors)?, number(turn)?, number(aim)?))
}

fn ring(word: &str) -> Option<(usize, usize, usize)>
    ensures { MatchOption result ((n c a : ℕ) → IsRing word.now n c a → ⊥) (λ t. IsRing word.now t.0 t.1 t.2) }
{
    triple(word.strip_prefix("ring:")?)
}

/// The machine that a word names: `sheet:FILE` or `ring:N,C,A`.
impl<'w> TryFrom<&'w str> for Request<'w> {
    ghost use Rattle.podsjeal.specs.Requests.{Names, NamesNone};

    type Error = Complaint<'w>;

    ghost try_from_gives = { λ word r. MatchResult r (Names word.now) (λ _. NamesNone word.now) };

    fn try_from(word: &'w str) -> Result<Request<'w>, Complaint<'w>> {
        if let Some(path) = word.strip_prefix("sheet:") {
            return Ok(Request::Sheet(path));
        }
        match ring(word) {
            Some((sectors, turn, aim)) => Ok(Request::Ring { sectors, turn, aim }),
            None => Err(Complaint::NoMachine(word)),
        }
    }
}
