ghost use Rattle.std.specs.Prelude.{◌≡◌, ◌≢◌};
ghost use Rattle.std.specs.Option.{option_map};
ghost use Rattle.std.specs.List.{slice_get};
ghost use Rattle.machine.specs.Model.{empty};
ghost use Rattle.layout.specs.Descriptions.{Description, Proper, meaning};
ghost use Rattle.layout.specs.Encoding.{encode};
ghost use Rattle.layout.specs.Judging.{sheet_model};

use super::Sheet;
use crate::entries::{is_set, label, seconds};
use crate::parts::Parts;
use crate::search::search;
use crate::survey::survey;
use fault::Fault;
use machine::Machine;

/// The sheet that these bytes are: they are one if they encode a proper description, else the first fault from front to back says why not.
impl<'a> TryFrom<&'a [u8]> for Sheet<'a> {
    ghost use Rattle.sheet.specs.Opened.{Opens};

    type Error = Fault;

    ghost try_from_gives = { λ bytes r. Opens bytes.now r };

    fn try_from(bytes: &'a [u8]) -> Result<Sheet<'a>, Fault> {
        let parts = survey(bytes)?;
        Ok(Sheet { bytes, parts })
    }
}

impl<'a> Sheet<'a> {
    /// The sheet that these bytes are. Bytes that are none give a sheet without states and names.
    pub fn open(bytes: &'a [u8]) -> Sheet<'a>
        ensures bytes { result.bytes.now ≡ bytes.now }
        ensures means { (d : Description) → Proper d → encode d ≡ bytes.now → sheet_model result.bytes.now ≡ meaning d }
        ensures otherwise { ((d : Description) → Proper d → encode d ≢ bytes.now) → sheet_model result.bytes.now ≡ empty }
    {
        let parts = survey(bytes).unwrap_or(Parts::none());
        Sheet { bytes, parts }
    }

    /// Name i of the list of names, if there are so many.
    pub fn name(&self, i: usize) -> Option<&'a [u8]>
        ensures { option_map (λ x. x.now) result ≡ slice_get (sheet_model self.now.bytes.now).names i }
    {
        self.parts.names.at(i)
    }
}

impl Machine for Sheet<'_> {
    ghost use Rattle.layout.proofs.Meanings.{sheet_lawful};

    ghost model = { λ x. sheet_model x.bytes.now };

    ghost lawful = { λ x. sheet_lawful x.bytes.now x.octets };

    fn states(&self) -> usize {
        self.parts.labels.len()
    }

    fn names(&self) -> usize {
        self.parts.names.len()
    }

    fn knows(&self, word: &[u8]) -> bool {
        self.parts.names.has(word)
    }

    fn bears(&self, state: usize, word: &[u8]) -> bool {
        if state >= self.states() {
            return false;
        }
        match self.parts.names.place(word) {
            Some(bit) => is_set(label(&self.parts.labels[state]), bit),
            None => false,
        }
    }

    fn step(&self, from: usize, to: usize) -> Option<u16> {
        if from >= self.states() || to >= self.states() {
            return None;
        }
        let i = search(self.parts.steps, from, to).ok()?;
        Some(seconds(&self.parts.steps[i]))
    }
}
