ghost use Rattle.std.specs.Iterator.{YieldsFirstRef, item_count};
ghost use Rattle.report.specs.Left.{left_of};

use crate::line::split_line;

/// The lines that are left of a file.
// A type of its own: a chain of split_inclusive and map has a closure in its type, which no function can name in its result.
#[derive(Clone, Copy, Debug)]
pub struct Lines<'a> {
    pub(crate) rest: &'a [u8],
}

impl<'a> Iterator for Lines<'a> {
    type Item = &'a [u8];

    ghost next_gives = { YieldsFirstRef left_of };

    ghost remaining = { item_count left_of };

    #[tactic(auto, using(crate::proofs::Splits::lines_split))]
    fn next(&mut self) -> Option<&'a [u8]> {
        if self.rest.is_empty() {
            return None;
        }
        let (line, behind) = split_line(self.rest);
        self.rest = behind;
        Some(line)
    }
}
