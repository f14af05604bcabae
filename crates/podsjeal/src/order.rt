ghost use Rattle.std.specs.Prelude.{◌≡◌, ℕ, List, map, MatchResult};
ghost use Rattle.std.specs.Borrow.{Bor};
ghost use Rattle.std.specs.String.{string_bytes};
ghost use Rattle.podsjeal.specs.declared.command.Command.TheVariants.{Rules};
ghost use Rattle.podsjeal.specs.declared.order.Order.TheVariants.{On};
ghost use Rattle.podsjeal.specs.Orders.{AreAbout, AreAboutNone, AreForRules, AreForNone};

use crate::command::Command;
use crate::complaint::Complaint;
use crate::request::Request;

/// The machine that a command is about, as the command line names it.
#[derive(Clone, Copy)]
pub(crate) enum Subject<'w> {
    One(Request<'w>),
    Pair(Request<'w>, Request<'w>),
}

/// What a command line asks for.
#[derive(Clone, Copy)]
pub(crate) enum Order<'w> {
    Help,
    On(Command<'w>, Subject<'w>),
}

/// A command on the machine that the words name, one word or `pair` and two.
fn on<'w>(command: Command<'w>, words: &'w [String]) -> Result<Order<'w>, Complaint<'w>>
    ensures { MatchResult result (λ order. (s : Subject) × (order ≡ On command.entry s) × AreAbout (map (λ w. string_bytes w) words.now) s) (λ _. AreAboutNone (map (λ w. string_bytes w) words.now)) }
{
    let subject = match words {
        [word] => Subject::One(Request::try_from(word.as_str())?),
        [pair, left, right] if pair.as_str() == "pair" => Subject::Pair(
            Request::try_from(left.as_str())?,
            Request::try_from(right.as_str())?,
        ),
        _ => return Err(Complaint::WrongWords(command)),
    };
    Ok(Order::On(command, subject))
}

/// Takes the last word for the file of rules, and those before it for the machine.
fn on_rules(words: &[String]) -> Result<Order<'_>, Complaint<'_>>
    ensures { MatchResult result (λ order. (f : Bor (List ℕ)) × (s : Subject) × (order ≡ On (Rules f) s) × AreForRules (map (λ w. string_bytes w) words.now) f.now s) (λ _. AreForNone (map (λ w. string_bytes w) words.now)) }
{
    match words.split_last() {
        Some((file, machine)) => {
            let file = file.as_str();
            on(Command::Rules { file }, machine)
        }
        None => Err(Complaint::NoRules),
    }
}

impl<'w> TryFrom<&'w [String]> for Order<'w> {
    ghost use Rattle.podsjeal.specs.Orders.{Asks, AskNothing};

    type Error = Complaint<'w>;

    ghost try_from_gives = { λ words r. MatchResult r (Asks (map (λ w. string_bytes w) words.now)) (λ _. AskNothing (map (λ w. string_bytes w) words.now)) };

    fn try_from(words: &'w [String]) -> Result<Order<'w>, Complaint<'w>> {
        let Some((first, rest)) = words.split_first() else {
            return Err(Complaint::NoCommand);
        };
        match first.as_str() {
            "--help" => Ok(Order::Help),
            "examine" => on(Command::Examine, rest),
            "rules" => on_rules(rest),
            other => Err(Complaint::NoSuchCommand(other)),
        }
    }
}
