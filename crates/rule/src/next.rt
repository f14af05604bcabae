ghost use Rattle.std.specs.Prelude.{◌≡◌, ◌==◌, length, MatchResult};
ghost use Rattle.grammar.specs.Words.{skip, read, sign};
ghost use Rattle.word.specs.Tokens.{shown};
ghost use Rattle.rule.specs.Bindings.{key_of};
ghost use Rattle.rule.specs.Drafts.{place_of, Passed};
ghost use Rattle.rule.specs.Parsing.{Unexpected, Lacks, Signed, Joined, Opens, OpensNothing};

use crate::binding::Binding;
use crate::opening::{Opening, opened_by};
use crate::store::Draft;
use fault::{Fault, Reason};
use grammar::Sign;
use word::{Token, read_word, skip_gaps};

impl<'a> Draft<'a> {
    /// Where the next word starts, or where the gaps end if no word is left.
    pub(crate) fn place(&self) -> usize
        ensures { result ≡ place_of self.now }
    {
        self.text.len() - skip_gaps(self.rest).len()
    }

    /// The next word, and the text behind it.
    fn ahead(&self) -> Option<(Token<'a>, &'a [u8])>
        ensures { shown result ≡ read (skip self.now.rest.now) }
    {
        read_word(skip_gaps(self.rest))
    }

    /// Whether nothing is left but gaps.
    pub(crate) fn is_over(&self) -> bool
        ensures { result ≡ (length (skip self.now.rest.now) == 0) }
    {
        skip_gaps(self.rest).is_empty()
    }

    /// The fault where the next word cannot stand: a stray byte, or a word that no rule has here, or the end.
    pub(crate) fn unexpected(&self) -> Fault
        ensures { Unexpected self.now result }
    {
        let here = self.place();
        match self.ahead() {
            Some(_) => Reason::NotDerivable.at(here),
            None if self.is_over() => Reason::NotDerivable.at(here),
            None => Reason::StrayByte.at(here),
        }
    }

    /// Whether the next word is this sign, and goes past it.
    pub(crate) fn take_sign(&mut self, wanted: Sign) -> bool
        ensures { Signed wanted self.old self.new result }
    {
        if let Some((Token::Sign(found), behind)) = self.ahead()
            && found == wanted
        {
            self.rest = behind;
            return true;
        }
        false
    }

    /// Goes behind the next word, which has to be this sign.
    pub(crate) fn expect(&mut self, wanted: Sign) -> Result<(), Fault>
        ensures { MatchResult result (λ _. Passed (sign wanted) 0 self.old self.new) (Lacks wanted self.old) }
    {
        if self.take_sign(wanted) {
            Ok(())
        } else {
            Err(self.unexpected())
        }
    }

    /// Whether the next word is the key word that joins formulas so, and goes past it, and counts as a part.
    pub(crate) fn past_joint(&mut self, binding: Binding) -> Result<bool, Fault>
        ensures { Joined (key_of binding) self.old self.new result }
    {
        if let Some((Token::Key(found), behind)) = self.ahead()
            && found == binding.key()
        {
            self.count_part(self.place())?;
            self.rest = behind;
            return Ok(true);
        }
        Ok(false)
    }

    /// What the next word opens, and goes past it, and where that word is.
    pub(crate) fn opening(&mut self) -> Result<(Opening, usize), Fault>
        ensures { MatchResult result (λ o. Opens self.old self.new o.0 o.1) (OpensNothing self.old) }
    {
        let place = self.place();
        if let Some((token, behind)) = self.ahead()
            && let Some(opening) = opened_by(token, place)
        {
            self.rest = behind;
            return Ok((opening, place));
        }
        Err(self.unexpected())
    }
}
