ghost use Rattle.std.specs.Prelude.{◌≡◌, ◌+◌, ◌<◌, ◌≤◌, [], length, MatchResult};
ghost use Rattle.fault.specs.declared.Reason.TheVariants.{TooManyParts};
ghost use Rattle.fault.specs.Refusals.{at};
ghost use Rattle.rule.specs.Openings.{part_of};
ghost use Rattle.rule.specs.Drafts.{held, count_of, Counted, Pushed};

use crate::opening::Simple;
use crate::part::Part;
use crate::store::Draft;
use arrayvec::ArrayVec;
use fault::{Fault, Reason};

impl<'a> Draft<'a> {
    /// A draft of which nothing is read yet.
    pub(crate) fn new(text: &'a [u8]) -> Draft<'a>
        ensures text { result.text.now ≡ text.now }
        ensures rest { result.rest.now ≡ text.now }
        ensures none { held result ≡ [] }
        ensures seen { result.seen ≡ 0 }
    {
        Draft {
            text,
            rest: text,
            parts: ArrayVec::new(),
            seen: 0,
        }
    }

    /// One part word more, at this place, unless 64 have been seen.
    pub(crate) fn count_part(&mut self, place: usize) -> Result<(), Fault>
        ensures { MatchResult result (λ _. Counted self.old self.new) (λ f. (64 ≤ self.old.seen) × (f ≡ at TooManyParts place)) }
    {
        if self.seen >= 64 {
            return Err(Reason::TooManyParts.at(place));
        }
        self.seen += 1;
        Ok(())
    }

    /// One part more behind the others.
    pub(crate) fn push(&mut self, part: Part)
        requires { count_of self.old < self.old.seen }
        ensures { Pushed part self.old self.new }
    {
        self.parts.push(part);
    }

    /// A formula of one word as one part more behind the others.
    pub(crate) fn push_simple(&mut self, simple: Simple)
        requires { count_of self.old < self.old.seen }
        ensures { Pushed (part_of simple) self.old self.new }
    {
        self.push(Part::from(simple));
    }

    /// The number of the newest part.
    pub(crate) fn top(&self) -> usize
        requires { 0 < count_of self.now }
        ensures { result + 1 ≡ count_of self.now }
    {
        self.parts.len() - 1
    }
}
