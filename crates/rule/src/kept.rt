ghost use Rattle.std.specs.Prelude.{◌≡◌, ◌-◌, ◌<◌, ◌≤◌, length};
ghost use Rattle.logic.specs.Formulas.{Formula};
ghost use Rattle.rule.specs.Trees.{Stands};

use crate::part::Part;
use arrayvec::ArrayVec;

/// A rule that has been read: its text, and its parts, inner ones first. The last part stands for the whole rule.
#[derive(Drop)]
pub struct Rule {
    pub(crate) text: ArrayVec<u8, 255>,
    pub(crate) parts: ArrayVec<Part, 64>,
    ghost short: { length text.items ≤ 255 },
    ghost few: { length parts.items ≤ 64 },
    ghost some: { 0 < length parts.items },
    ghost sound: { ∥ ((f : Formula) × Stands text.items parts.items (length parts.items - 1) f) ∥₁ },
}
