#![tactic(auto)]

ghost use Rattle.std.specs.Prelude.{◌≡◌, false, MatchOption};
ghost use Rattle.pair.specs.Pairs.{fewer, fits, pair_model};
ghost use Rattle.pair.specs.Sizes.{IsSizeOf};

use machine::Machine;

/// Two machines side by side: in a step one side moves and the other stays.
#[derive(Drop)]
pub struct Pair<L, R> {
    left: L,
    right: R,
}

/// How many states and names the sides of a pair make together, and how many states the right one has.
#[derive(Clone, Copy)]
struct Size {
    states: usize,
    names: usize,
    right_states: usize,
}

impl<L, R> Pair<L, R> {
    /// The pair of two machines; where they have too many states or names together, it has none.
    pub fn new(left: L, right: R) -> Pair<L, R>
        ensures left { result.left ≡ left }
        ensures right { result.right ≡ right }
    {
        Pair { left, right }
    }
}

impl<L: Machine, R: Machine> Pair<L, R> {
    /// How large the pair is, unless it is too large.
    fn size(&self) -> Option<Size>
        ensures { MatchOption result (fits (L.Machine.model self.now.left) (R.Machine.model self.now.right) ≡ false) (IsSizeOf (L.Machine.model self.now.left) (R.Machine.model self.now.right)) }
    {
        let right_states = self.right.states();
        let states = self.left.states() * right_states;
        let names = self.left.names() + self.right.names();
        if states <= 1024 && names <= 32 {
            Some(Size {
                states,
                names,
                right_states,
            })
        } else {
            None
        }
    }
}

fn fewer_seconds(left: Option<u16>, right: Option<u16>) -> Option<u16>
    ensures { result ≡ fewer left right }
{
    match (left, right) {
        (Some(a), Some(b)) => Some(a.min(b)),
        (None, other) => other,
        (some, None) => some,
    }
}

/// State `s` has the left side at `s / q` and the right side at `s % q`, where `q` is the number of states on the right.
impl<L: Machine, R: Machine> Machine for Pair<L, R> {
    ghost use Rattle.pair.specs.Laws.{pair_lawful};

    ghost model = { λ p. pair_model (L.Machine.model p.left) (R.Machine.model p.right) };

    ghost lawful = { λ p. pair_lawful (L.Machine.lawful p.left) (R.Machine.lawful p.right) };

    fn states(&self) -> usize {
        self.size().map_or(0, |size| size.states)
    }

    fn names(&self) -> usize {
        self.size().map_or(0, |size| size.names)
    }

    #[tactic(auto, using(crate::specs::Laws::among_append))]
    fn knows(&self, word: &[u8]) -> bool {
        self.size().is_some() && (self.left.knows(word) || self.right.knows(word))
    }

    fn bears(&self, state: usize, word: &[u8]) -> bool {
        match self.size() {
            Some(size) if state < size.states => {
                if self.left.knows(word) {
                    self.left.bears(state / size.right_states, word)
                } else {
                    self.right.bears(state % size.right_states, word)
                }
            }
            _ => false,
        }
    }

    fn step(&self, from: usize, to: usize) -> Option<u16> {
        match self.size() {
            Some(size) if from < size.states && to < size.states => {
                let (left_from, right_from) = (from / size.right_states, from % size.right_states);
                let (left_to, right_to) = (to / size.right_states, to % size.right_states);
                let left = if right_from == right_to {
                    self.left.step(left_from, left_to)
                } else {
                    None
                };
                let right = if left_from == left_to {
                    self.right.step(right_from, right_to)
                } else {
                    None
                };
                fewer_seconds(left, right)
            }
            _ => None,
        }
    }
}
