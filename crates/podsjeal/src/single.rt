ghost use Rattle.std.specs.Prelude.{◌≡◌, map, IfOk};
ghost use Rattle.std.specs.Option.{option_map};
ghost use Rattle.std.specs.List.{slice_get};

use machine::Machine;
use ring::Ring;
use sheet::Sheet;
use std::alloc::{AllocError, Global};

/// A machine that one word names.
#[derive(Clone, Copy)]
pub(crate) enum Single<'a> {
    Ring(Ring),
    Sheet(Sheet<'a>),
}

impl<'a> Single<'a> {
    /// Name i of the list of names, if there are so many.
    fn name(&self, i: usize) -> Option<&'a [u8]>
        ensures { option_map (λ x. x.now) result ≡ slice_get (⟦<Single<'a> as Machine>⟧.model self.now).names i }
    {
        match self {
            Single::Ring(ring) => ring.name(i),
            Single::Sheet(sheet) => sheet.name(i),
        }
    }

    /// The list of names.
    pub(crate) fn listed(&self, alloc: Global) -> Result<Vec<&'a [u8]>, AllocError>
        ensures { IfOk result (λ names. map (λ x. x.now) names.items ≡ (⟦<Single<'a> as Machine>⟧.model self.now).names) }
    {
        // A loop, since of `filter_map` and `collect` the exact list did not prove: `name` is known by what it refers to alone.
        let mut names = Vec::new(alloc);
        for i in 0..self.names() {
            if let Some(name) = self.name(i) {
                names.push(name)?;
            }
        }
        Ok(names)
    }
}

/// The machine means what the one that it holds means.
impl Machine for Single<'_> {
    ghost use Rattle.ring.specs.Laws.{ring_lawful};
    ghost use Rattle.layout.proofs.Meanings.{sheet_lawful};
    ghost use Rattle.podsjeal.specs.declared.single.Single.TheVariants.{Ring, Sheet};

    ghost model = { elim [ Ring r ↦ ⟦<Ring as Machine>⟧.model r | Sheet s ↦ ⟦<Sheet<'static> as Machine>⟧.model s ] };

    ghost lawful = { elim [ Ring r ↦ ring_lawful r | Sheet s ↦ sheet_lawful s.bytes.now s.octets ] };

    fn states(&self) -> usize {
        match self {
            Single::Ring(ring) => ring.states(),
            Single::Sheet(sheet) => sheet.states(),
        }
    }

    fn names(&self) -> usize {
        match self {
            Single::Ring(ring) => ring.names(),
            Single::Sheet(sheet) => sheet.names(),
        }
    }

    fn knows(&self, word: &[u8]) -> bool {
        match self {
            Single::Ring(ring) => ring.knows(word),
            Single::Sheet(sheet) => sheet.knows(word),
        }
    }

    fn bears(&self, state: usize, word: &[u8]) -> bool {
        match self {
            Single::Ring(ring) => ring.bears(state, word),
            Single::Sheet(sheet) => sheet.bears(state, word),
        }
    }

    fn step(&self, from: usize, to: usize) -> Option<u16> {
        match self {
            Single::Ring(ring) => ring.step(from, to),
            Single::Sheet(sheet) => sheet.step(from, to),
        }
    }
}
