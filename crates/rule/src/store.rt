ghost use Rattle.std.specs.Prelude.{◌≡◌, ◌-◌, ◌≤◌, length, drop};

use crate::part::Part;
use arrayvec::ArrayVec;

/// A rule that is being read: its text, what is left of it, its parts so far, and how many part words have been seen.
#[derive(Drop)]
pub(crate) struct Draft<'a> {
    pub(crate) text: &'a [u8],
    pub(crate) rest: &'a [u8],
    pub(crate) parts: ArrayVec<Part, 64>,
    pub(crate) seen: usize,
    ghost tail: { rest.now ≡ drop (length text.now - length rest.now) text.now },
    ghost behind: { length parts.items ≤ seen },
    ghost few: { seen ≤ 64 },
}
