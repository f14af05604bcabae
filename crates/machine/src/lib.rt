#![tactic(auto)]

ghost use Rattle.std.specs.Prelude.{◌≡◌, length};
ghost use Rattle.machine.specs.Model.{Model, Lawful, among};

pub mod name;

/// A machine that moves, by what it means. No question has a precondition: outside the meaning the answer is absent or no.
pub trait Machine {
    ghost model: { Self → Model };

    /// How many states there are; they are numbered from 0.
    fn states(&self) -> usize
        ensures { result ≡ (model self.now).states };

    /// How many names there are, one that stands twice counted twice.
    fn names(&self) -> usize
        ensures { result ≡ length (model self.now).names };

    /// Whether the word is a name.
    fn knows(&self, word: &[u8]) -> bool
        ensures { result ≡ among (model self.now).names word.now };

    /// Whether the state bears the name.
    fn bears(&self, state: usize, word: &[u8]) -> bool
        ensures { result ≡ (model self.now).bears state word.now };

    /// The seconds of the step between two states, if there is one.
    // Two bare numbers: a type for both would be made by whoever asks and taken apart by whoever answers.
    fn step(&self, from: usize, to: usize) -> Option<u16>
        ensures { result ≡ (model self.now).step from to };

    // Whatever the machine, its meaning keeps the laws.
    ghost lawful: { (m : Self) → Lawful (model m) };
}
