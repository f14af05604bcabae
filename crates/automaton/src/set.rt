ghost use Rattle.std.specs.Prelude.{◌≡◌, ℕ, ◌<◌, ◌≤◌, true, ◌⊎◌, ◌↔◌, length};
ghost use Rattle.automaton.specs.Sets.{Bit, Linked};

// The sets stay numbers with functions beside them: each of them comes from a public field or answer and goes to one, so a
// type of its own would be wrapped and unwrapped at every call.

/// Whether k stands in the set.
fn has(set: u32, k: usize) -> bool
    requires { k < 32 }
    ensures { (result ≡ true) ↔ Bit set k }
{
    set & (1 << k) != 0
}

/// The set of k alone.
pub(crate) fn only(k: usize) -> u32
    requires { k < 32 }
    ensures { (j : ℕ) → Bit result j ↔ (j ≡ k) }
{
    1 << k
}

pub(crate) fn union(a: u32, b: u32) -> u32
    ensures { (j : ℕ) → Bit result j ↔ (Bit a j ⊎ Bit b j) }
{
    a | b
}

/// The set a, with b where more says so.
pub(crate) fn union_if(a: u32, more: bool, b: u32) -> u32
    ensures { (j : ℕ) → Bit result j ↔ (Bit a j ⊎ ((more ≡ true) × Bit b j)) }
{
    if more { union(a, b) } else { a }
}

/// Puts the letters of one set into the rows of those of another.
pub(crate) fn link(rows: &mut [u32], from: u32, to: u32)
    requires { length rows.old ≤ 32 }
    ensures { Linked rows.new rows.old (length rows.old) from to }
{
    for (p, row) in rows.iter_mut().enumerate() {
        if has(from, p) {
            *row = union(*row, to);
        }
    }
}
