#![tactic(auto)]

ghost use Rattle.std.specs.Prelude.{◌≡◌};
ghost use Rattle.std.specs.List.{slice_get};
ghost use Rattle.std.specs.Option.{option_map};
ghost use Rattle.ring.specs.Rings.{ring_model};

mod dome;

use dome::Dome;
use machine::Machine;

/// Sectors numbered round: a turn leads to either neighbour, and every sector can be kept for a second.
#[derive(Clone, Copy)]
pub struct Ring {
    // none where the numbers are out of range
    dome: Option<Dome>,
}

impl Ring {
    ghost use Rattle.ring.specs.Meanings.{meaning_of};

    /// A ring of so many sectors, with the seconds of a turn and the sector of the aim; out of range it has no states.
    pub fn new(sectors: usize, turn: usize, aim: usize) -> Ring
        ensures { meaning_of result ≡ ring_model sectors turn aim }
    {
        Ring {
            dome: Dome::new(sectors, turn, aim),
        }
    }

    /// Name i of the list of names, if there are so many.
    pub fn name(&self, i: usize) -> Option<&'static [u8]>
        ensures { option_map (λ x. x.now) result ≡ slice_get (meaning_of self.now).names i }
    {
        self.dome?;
        match i {
            0 => Some(b"home"),
            1 => Some(b"aim"),
            _ => None,
        }
    }
}

/// The sectors are the states; sector 0 bears `home`, and the sector of the aim bears `aim`.
impl Machine for Ring {
    ghost use Rattle.ring.specs.Meanings.{meaning_of};
    ghost use Rattle.ring.specs.Laws.{ring_lawful};

    ghost model = { meaning_of };

    ghost lawful = { ring_lawful };

    fn states(&self) -> usize {
        self.dome.map_or(0, |dome| dome.sectors())
    }

    fn names(&self) -> usize {
        if self.dome.is_some() { 2 } else { 0 }
    }

    fn knows(&self, word: &[u8]) -> bool {
        match self.dome {
            Some(_) => matches!(word, b"home" | b"aim"),
            None => false,
        }
    }

    fn bears(&self, state: usize, word: &[u8]) -> bool {
        match self.dome {
            Some(dome) => dome.bears(state, word),
            None => false,
        }
    }

    fn step(&self, from: usize, to: usize) -> Option<u16> {
        self.dome?.step(from, to)
    }
}
