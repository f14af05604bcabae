ghost use Rattle.std.specs.Prelude.{◌≡◌};
ghost use Rattle.rule.specs.Bindings.{key_of, sign_of, joint_of, regular_of, Merged};

use crate::part::Part;
use automaton::{Letters, Piece, alternative};
use grammar::{Key, Sign};

/// How tightly a joint binds: `or` and `|` loosely, `and` and `.` tightly.
#[derive(Clone, Copy)]
pub(crate) enum Binding {
    Loose,
    Tight,
}

impl Binding {
    /// The key word that joins formulas so.
    pub(crate) fn key(self) -> Key
        ensures { result ≡ key_of self }
    {
        match self {
            Binding::Loose => Key::Or,
            Binding::Tight => Key::And,
        }
    }

    /// The sign that joins expressions so.
    pub(crate) fn sign(self) -> Sign
        ensures { result ≡ sign_of self }
    {
        match self {
            Binding::Loose => Sign::Bar,
            Binding::Tight => Sign::Dot,
        }
    }

    /// The part that joins two others so.
    pub(crate) fn joint(self, left: usize, right: usize) -> Part
        ensures { result ≡ joint_of self left right }
    {
        match self {
            Binding::Loose => Part::Or(left, right),
            Binding::Tight => Part::And(left, right),
        }
    }

    /// The piece that joins two others so, where the letters of the second come behind those of the first.
    pub(crate) fn merge(self, letters: &mut Letters, left: Piece, right: Piece) -> Piece
        ensures { Merged (regular_of self) left right result letters.old letters.new }
    {
        match self {
            Binding::Loose => alternative(left, right),
            Binding::Tight => letters.sequence(left, right),
        }
    }
}
