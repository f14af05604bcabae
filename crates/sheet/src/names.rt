ghost use Rattle.std.specs.Prelude.{◌≡◌, ◌≤◌, map, length, None};
ghost use Rattle.std.specs.Iterator.{YieldsFirstRef, item_count};
ghost use Rattle.std.specs.List.{range_with_len, slice_get};
ghost use Rattle.std.specs.Option.{option_map};
ghost use Rattle.machine.specs.Model.{among};
ghost use Rattle.layout.specs.Descriptions.{place_from};
ghost use Rattle.layout.specs.Fields.{name_in};
ghost use Rattle.layout.specs.Judging.{first_fault, name_fault};
ghost use Rattle.sheet.specs.Fields.{names_size};

/// Names that follow each other, each behind its length byte.
#[derive(Clone, Copy)]
pub struct Names<'a> {
    bytes: &'a [u8],
    count: usize,
    ghost fit: { names_size count bytes.now ≤ length bytes.now },
}

impl<'a> Iterator for Names<'a> {
    ghost use Rattle.sheet.specs.Listed.{names_of};

    type Item = &'a [u8];

    ghost next_gives = { YieldsFirstRef names_of };

    ghost remaining = { item_count names_of };

    fn next(&mut self) -> Option<&'a [u8]> {
        if self.count == 0 {
            return None;
        }
        let (size, rest) = self.bytes.split_first()?;
        let (word, bytes) = rest.split_at(usize::from(*size));
        *self = Names {
            bytes,
            count: self.count - 1,
        };
        Some(word)
    }
}

impl<'a> Names<'a> {
    ghost use Rattle.sheet.specs.Listed.{names_of};

    /// No names.
    pub(crate) fn none() -> Names<'a>
        ensures { result.count ≡ 0 }
    {
        Names {
            bytes: &[],
            count: 0,
        }
    }

    /// The first names of a sheet.
    pub(crate) fn first(sheet: &'a [u8], count: usize) -> Names<'a>
        requires header { 8 ≤ length sheet.now }
        requires judged { first_fault count (name_fault sheet.now) ≡ None }
        ensures { names_of result ≡ map (name_in sheet.now) (range_with_len 0 count) }
    {
        Names {
            bytes: &sheet[8..],
            count,
        }
    }

    /// How many names there are.
    pub(crate) fn len(&self) -> usize
        ensures { result ≡ length (names_of self.now) }
    {
        self.count
    }

    /// The place of a word among the names.
    pub(crate) fn place(mut self, word: &[u8]) -> Option<usize>
        ensures { result ≡ place_from 0 (names_of self.entry) word.now }
    {
        self.position(|name| name == word)
    }

    /// Whether a word is one of the names.
    pub(crate) fn has(self, word: &[u8]) -> bool
        ensures { result ≡ among (names_of self.entry) word.now }
    {
        self.place(word).is_some()
    }

    /// Name i.
    pub(crate) fn at(mut self, i: usize) -> Option<&'a [u8]>
        ensures { option_map (λ x. x.now) result ≡ slice_get (names_of self.entry) i }
    {
        if i >= self.count {
            return None;
        }
        self.nth(i)
    }
}
