ghost use Rattle.std.specs.Prelude.{◌≡◌, ◌≤◌, length};

/// The letters of an expression that is being read: which can follow each, letter p as bit p of a set, and the part of the rule that each stands for.
// Two arrays side by side, since an array of pairs would be a third larger, and with it each part of a rule that holds one. And a
// count beside them, since the kit's vectors of fixed capacity are not `Copy`, as this type is and those parts, which are handed out by value.
#[derive(Clone, Copy)]
pub struct Letters {
    pub(crate) count: usize,
    pub(crate) follow: [u32; 31],
    pub(crate) parts: [usize; 31],
    ghost few: { count ≤ 31 },
    ghost rows: { length follow ≡ 31 },
    ghost named: { length parts ≡ 31 },
}
