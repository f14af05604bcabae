ghost use Rattle.std.specs.Prelude.{◌≡◌, length};
ghost use Rattle.barred.specs.Bars.{Marked};
ghost use Rattle.barred.specs.Sound.{Sound};

use crate::steps::Step;
use arrayvec::ArrayVec;
use machine::Machine;

/// A machine without some of its steps, where every state keeps an open one.
#[derive(Drop)]
pub struct Barred<M: Machine> {
    pub(crate) machine: M,
    pub(crate) bars: ArrayVec<Step, 64>,
    // false only at states that no barred step leaves: a table for speed, since a question about such a state then looks at no bar
    pub(crate) touched: [bool; 1024],
    ghost marks: { length touched ≡ 1024 },
    ghost marked: { Marked touched bars.items },
    ghost sound: { Sound (M.Machine.model machine) bars.items },
}
