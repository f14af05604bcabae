ghost use Rattle.std.specs.Prelude.{◌≡◌, ◌<◌, true};
ghost use Rattle.ring.specs.Rings.{in_range, follows, ring_model, ring_bears, ring_step};

/// The numbers of a ring that are in range.
#[derive(Clone, Copy)]
pub(crate) struct Dome {
    sectors: u16,
    turn: u16,
    aim: u16,
    ghost ok: { in_range sectors turn aim ≡ true },
}

impl Dome {
    ghost use Rattle.ring.specs.Meanings.{dome_model};

    /// The numbers of a ring, unless they are out of range.
    pub(crate) fn new(sectors: usize, turn: usize, aim: usize) -> Option<Dome>
        ensures { dome_model result ≡ ring_model sectors turn aim }
    {
        if (3..=360).contains(&sectors) && (1..=3600).contains(&turn) && aim < sectors {
            Some(Dome {
                sectors: sectors as u16,
                turn: turn as u16,
                aim: aim as u16,
            })
        } else {
            None
        }
    }

    pub(crate) fn sectors(self) -> usize
        ensures { result ≡ self.sectors }
    {
        usize::from(self.sectors)
    }

    pub(crate) fn bears(self, state: usize, word: &[u8]) -> bool
        ensures { result ≡ ring_bears self.aim state word.now }
    {
        match word {
            b"home" => state == 0,
            b"aim" => state == usize::from(self.aim),
            _ => false,
        }
    }

    pub(crate) fn step(self, from: usize, to: usize) -> Option<u16>
        ensures { result ≡ ring_step self.sectors self.turn from to }
    {
        let sectors = self.sectors();
        if from >= sectors || to >= sectors {
            None
        } else if from == to {
            Some(1)
        } else if is_next(sectors, from, to) || is_next(sectors, to, from) {
            Some(self.turn)
        } else {
            None
        }
    }
}

/// Whether one sector comes right after another, going round.
fn is_next(sectors: usize, from: usize, to: usize) -> bool
    requires { from < sectors }
    ensures { result ≡ follows sectors from to }
{
    to == from + 1 || (from + 1 == sectors && to == 0)
}
