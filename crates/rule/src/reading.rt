ghost use Rattle.std.specs.Prelude.{◌≡◌, [], Some, MatchResult};
ghost use Rattle.machine.specs.Model.{among};
ghost use Rattle.grammar.specs.Words.{text_of};
ghost use Rattle.grammar.specs.Judging.{start, judge, name_first};
ghost use Rattle.rule.specs.Drafts.{held};
ghost use Rattle.rule.specs.Parsing.{ReadWhole};
ghost use Rattle.rule.specs.Rules.{Taken, Denied};

use crate::binding::Binding;
use crate::kept::Rule;
use crate::store::Draft;
use arrayvec::ArrayVec;
use fault::{Fault, Reason};
use machine::Machine;
use word::first_unknown;

/// Reads the parts of a rule, whatever its names, into a draft of which nothing is read yet.
fn parse(draft: &mut Draft) -> Result<(), Fault>
    requires rest { draft.old.rest.now ≡ draft.old.text.now }
    requires none { held draft.old ≡ [] }
    requires seen { draft.old.seen ≡ 0 }
    ensures { MatchResult result (λ _. ReadWhole draft.old.text.now (held draft.new)) (λ f. judge start (text_of draft.old.text.now) ≡ Some f) }
{
    draft.formula(Binding::Loose)?;
    if !draft.is_over() {
        return Err(draft.unexpected());
    }
    Ok(())
}

/// Whether an unknown name at this place comes before a fault.
fn comes_first(place: usize, fault: Fault) -> bool
    ensures { result ≡ name_first place fault }
{
    Reason::UnknownName.at(place) < fault
}

/// Reads a rule for a machine, or says which fault of the text comes first.
pub fn read<M: Machine>(text: &[u8], machine: &M) -> Result<Rule, Fault>
    ensures { MatchResult result (Taken (among (M.model machine.now).names) text.now) (Denied (among (M.model machine.now).names) text.now) }
{
    let kept = ArrayVec::try_from(text).map_err(|_| Reason::TextTooLong.at(255))?;
    let mut draft = Draft::new(text);
    match (parse(&mut draft), first_unknown(text, machine)) {
        (Ok(()), None) => Ok(Rule {
            text: kept,
            parts: draft.parts,
        }),
        (Err(fault), None) => Err(fault),
        (Ok(_), Some(place)) => Err(Reason::UnknownName.at(place)),
        (Err(fault), Some(place)) => Err(if comes_first(place, fault) {
            Reason::UnknownName.at(place)
        } else {
            fault
        }),
    }
}
