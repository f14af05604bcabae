ghost use Rattle.std.specs.Prelude.{◌≡◌, ◌-◌, ◌<◌, ◌≤◌, [], ◌∷◌, ◌++◌, MatchResult};
ghost use Rattle.fault.specs.declared.Reason.TheVariants.{TooManyLetters};
ghost use Rattle.fault.specs.Refusals.{at};
ghost use Rattle.automaton.specs.Built.{Added};
ghost use Rattle.grammar.specs.Grammar.{Unary, Starred, Base};
ghost use Rattle.grammar.specs.Judging.{phrase, unary as single, starred as repeated, asts, base as simple};
ghost use Rattle.rule.specs.Bindings.{phrase_of, kind_of, more_of, operand_of, operand_kind, within, regular_phrase, regular_kind, more_regular, factor_of, factor_kind, within_factor};
ghost use Rattle.rule.specs.Drafts.{count_of};
ghost use Rattle.rule.specs.Parsing.{ReadFormula, Fails, ReadRegular, FailsRegular, ReadBracketed, FailsBracketed};

use crate::binding::Binding;
use crate::opening::Opening;
use crate::part::Part;
use crate::store::Draft;
use automaton::{Automaton, Letters, Piece};
use fault::{Fault, Reason};
use grammar::Sign;

impl<'a> Draft<'a> {
    /// state = conj { or conj }, and conj = unary { and unary }
    #[cycle(descent)]
    pub(crate) fn formula(&mut self, binding: Binding) -> Result<(), Fault>
        ensures { MatchResult result (λ _. ReadFormula (phrase_of binding) (within binding ++ phrase (more_of binding) ∷ []) self.old self.new) (Fails (kind_of binding) self.old) }
    {
        self.operand(binding)?;
        while self.past_joint(binding)? {
            let left = self.top();
            self.operand(binding)?;
            let right = self.top();
            self.push(binding.joint(left, right));
        }
        Ok(())
    }

    /// What is joined so: a conj loosely, a unary tightly.
    #[cycle(descent)]
    fn operand(&mut self, binding: Binding) -> Result<(), Fault>
        ensures { MatchResult result (λ _. ReadFormula (operand_of binding) (within binding) self.old self.new) (Fails (operand_kind binding) self.old) }
    {
        // One parser for both levels: two would differ only in the joint and in what is joined.
        match binding {
            Binding::Loose => self.formula(Binding::Tight),
            Binding::Tight => self.unary(),
        }
    }

    /// unary = not unary | quantifier [ reg ] unary | cycle [ reg ] | atom | ( state )
    #[cycle(descent)]
    fn unary(&mut self) -> Result<(), Fault>
        ensures { MatchResult result (λ _. ReadFormula Unary [] self.old self.new) (Fails single self.old) }
    {
        let (opening, place) = self.opening()?;
        match opening {
            Opening::Leaf(simple) => {
                self.count_part(place)?;
                self.push_simple(simple);
                Ok(())
            }
            Opening::Negation => {
                self.count_part(place)?;
                self.unary()?;
                let inner = self.top();
                self.push(Part::Not(inner));
                Ok(())
            }
            Opening::Path(quantifier) => {
                self.count_part(place)?;
                let automaton = self.bracketed()?;
                self.unary()?;
                let goal = self.top();
                self.push(Part::Path(quantifier, automaton, goal));
                Ok(())
            }
            Opening::Cycle(cycle) => {
                self.count_part(place)?;
                let automaton = self.bracketed()?;
                self.push(Part::Cycle(cycle, automaton));
                Ok(())
            }
            Opening::Round => {
                self.formula(Binding::Loose)?;
                self.expect(Sign::Close)
            }
            Opening::Curly => Err(Reason::NotDerivable.at(place)),
        }
    }

    /// [ reg ], as its automaton
    #[cycle(descent)]
    fn bracketed(&mut self) -> Result<Automaton, Fault>
        ensures { MatchResult result (ReadBracketed self.old self.new) (FailsBracketed self.old) }
    {
        let mut letters = Letters::new();
        self.expect(Sign::OpenSquare)?;
        let whole = self.expression(Binding::Loose, &mut letters)?;
        self.expect(Sign::CloseSquare)?;
        Ok(Automaton::new(letters, whole))
    }

    /// reg = seq { | seq }, and seq = star { . star }
    #[cycle(descent)]
    fn expression(&mut self, binding: Binding, letters: &mut Letters) -> Result<Piece, Fault>
        ensures { MatchResult result (ReadRegular (regular_phrase binding) (within_factor binding ++ phrase (more_regular binding) ∷ []) self.old self.new letters.old letters.new) (FailsRegular (regular_kind binding) self.old letters.old) }
    {
        let mut piece = self.factor(binding, letters)?;
        while self.take_sign(binding.sign()) {
            let more = self.factor(binding, letters)?;
            piece = binding.merge(letters, piece, more);
        }
        Ok(piece)
    }

    /// What is joined so: a seq loosely, a star tightly.
    #[cycle(descent)]
    fn factor(&mut self, binding: Binding, letters: &mut Letters) -> Result<Piece, Fault>
        ensures { MatchResult result (ReadRegular (factor_of binding) (within_factor binding) self.old self.new letters.old letters.new) (FailsRegular (factor_kind binding) self.old letters.old) }
    {
        // One parser for both levels, as for formulas.
        match binding {
            Binding::Loose => self.expression(Binding::Tight, letters),
            Binding::Tight => self.starred(letters),
        }
    }

    /// star = base { * }
    #[cycle(descent)]
    fn starred(&mut self, letters: &mut Letters) -> Result<Piece, Fault>
        ensures { MatchResult result (ReadRegular Starred (phrase asts ∷ []) self.old self.new letters.old letters.new) (FailsRegular repeated self.old letters.old) }
    {
        let mut piece = self.base(letters)?;
        while self.take_sign(Sign::Star) {
            piece = letters.repeated(piece);
        }
        Ok(piece)
    }

    /// base = letter | ( reg ), letter = atom | { state }
    #[cycle(descent)]
    fn base(&mut self, letters: &mut Letters) -> Result<Piece, Fault>
        ensures { MatchResult result (ReadRegular Base ([]) self.old self.new letters.old letters.new) (FailsRegular simple self.old letters.old) }
    {
        let (opening, place) = self.opening()?;
        match opening {
            Opening::Leaf(simple) => {
                self.count_part(place)?;
                self.push_simple(simple);
                self.letter(place, letters)
            }
            Opening::Curly => {
                if letters.is_full() {
                    return Err(Reason::TooManyLetters.at(place));
                }
                self.formula(Binding::Loose)?;
                self.expect(Sign::CloseCurly)?;
                self.letter(place, letters)
            }
            Opening::Round => {
                let piece = self.expression(Binding::Loose, letters)?;
                self.expect(Sign::Close)?;
                Ok(piece)
            }
            Opening::Negation | Opening::Path(_) | Opening::Cycle(_) => {
                Err(Reason::NotDerivable.at(place))
            }
        }
    }

    /// The newest part as one letter more, which begins at this place.
    fn letter(&self, place: usize, letters: &mut Letters) -> Result<Piece, Fault>
        requires { 0 < count_of self.now }
        ensures { MatchResult result (Added (count_of self.now - 1) letters.old letters.new) (λ f. (31 ≤ letters.old.count) × (f ≡ at TooManyLetters place)) }
    {
        letters
            .letter(self.top())
            .ok_or(Reason::TooManyLetters.at(place))
    }
}
