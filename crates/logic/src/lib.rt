#![tactic(auto)]

ghost use Rattle.logic.specs.Positions.{Spelled, Ends};

/// The four operators that speak of a path's states after a match.
#[derive(Clone, Copy, Debug, PartialEq, Eq)]
pub enum Quantifier {
    EF,
    AF,
    EG,
    AG,
}

/// The two operators that speak of matches one behind the other without end.
#[derive(Clone, Copy, Debug, PartialEq, Eq)]
pub enum Cycle {
    Loop,
    Sat,
}

/// The position automaton of an expression takes exactly the intervals that match the expression.
pub fn positions_stand()
    ensures spelled { Spelled }
    ensures ends { Ends }
{}
