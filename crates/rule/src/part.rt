use automaton::Automaton;
use logic::{Cycle, Quantifier};

// Parts name others by number, not by boxes: no crate of the library allocates.
/// A part of a rule; it names other parts by their numbers, which are smaller than its own.
#[derive(Clone, Copy, Default)]
pub enum Part {
    // Two bare numbers, in the order in which `Rule::stretch` takes them.
    /// A name: where it starts in the text, and how many bytes it has.
    Name(usize, usize),
    #[default]
    True,
    False,
    Not(usize),
    And(usize, usize),
    Or(usize, usize),
    Path(Quantifier, Automaton, usize),
    Cycle(Cycle, Automaton),
}
