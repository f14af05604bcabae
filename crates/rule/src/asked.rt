ghost use Rattle.std.specs.Prelude.{◌≡◌, ◌-◌, length, take, drop, if◌then◌else◌, Some, None, nat_lt, slice_index_or};
ghost use Rattle.rule.specs.declared.part.Part.TheVariants.{True};
ghost use Rattle.rule.specs.Rules.{source, parts_of};

use crate::kept::Rule;
use crate::part::Part;

impl Rule {
    /// How many parts there are.
    pub fn parts(&self) -> usize
        ensures { result ≡ length (parts_of self.now) }
    {
        self.parts.len()
    }

    /// The part of this number, if there is one.
    pub fn part(&self, k: usize) -> Option<Part>
        ensures { result ≡ (if nat_lt k (length (parts_of self.now)) then Some (slice_index_or (parts_of self.now) k True) else None) }
    {
        self.parts.as_slice().get(k).copied()
    }

    /// The part that stands for the whole rule.
    pub fn outermost(&self) -> Part
        ensures { result ≡ slice_index_or (parts_of self.now) (length (parts_of self.now) - 1) True }
    {
        self.parts.as_slice()[self.parts.len() - 1]
    }

    /// Some bytes of the rule's text, as a name has them: so many from this place on, or as many as there are.
    pub fn stretch(&self, start: usize, length: usize) -> &[u8]
        ensures { result.now ≡ take length (drop start (source self.now)) }
    {
        let text = self.text.as_slice();
        let behind = &text[start.min(text.len())..];
        &behind[..length.min(behind.len())]
    }
}
