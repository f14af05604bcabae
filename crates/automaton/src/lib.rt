#![tactic(auto)]

ghost use Rattle.std.specs.Prelude.{◌≡◌, ℕ, ◌+◌, ◌↔◌, List, if◌then◌else◌, Some, None, nat_le, nat_lt, slice_index};
ghost use Rattle.machine.specs.Model.{Model};
ghost use Rattle.logic.specs.Formulas.{Regular, size};
ghost use Rattle.logic.specs.Formulas.Regular.{seq, alt, star};
ghost use Rattle.logic.specs.Meaning.{Match};
ghost use Rattle.logic.specs.Positions.{joined, choice, again, letter_at};
ghost use Rattle.automaton.specs.Built.{as_positions, rows_of, labels_of, Same, Built, Lettered, Relinked};
ghost use Rattle.automaton.specs.Automata.{AutomatonOf, Spells};

mod set;
mod store;

use set::{link, only, union, union_if};
pub use store::Letters;

/// A piece of an expression: which letters it can begin with and end with, letter p as bit p of a set, and whether it matches the empty interval.
#[derive(Clone, Copy)]
pub struct Piece {
    pub first: u32,
    pub last: u32,
    pub nullable: bool,
}

impl Letters {
    /// No letters.
    pub fn new() -> Letters
        ensures { result.count ≡ 0 }
    {
        Letters {
            count: 0,
            follow: [0; 31],
            parts: [0; 31],
        }
    }

    /// Whether there is no room for another letter.
    pub fn is_full(&self) -> bool
        ensures { result ≡ nat_le 31 self.now.count }
    {
        self.count >= 31
    }

    /// One letter more, that stands for this part of the rule, unless 31 are there.
    pub fn letter(&mut self, part: usize) -> Option<Piece>
        ensures { Lettered part self.old self.new result }
    {
        if self.is_full() {
            return None;
        }
        let p = self.count;
        self.follow[p] = 0;
        self.parts[p] = part;
        self.count += 1;
        let here = only(p);
        Some(Piece {
            first: here,
            last: here,
            nullable: false,
        })
    }

    /// A piece, and then another, whose letters come behind.
    pub fn sequence(&mut self, a: Piece, b: Piece) -> Piece
        ensures value { Same 31 (as_positions result (rows_of self.new)) (joined (as_positions a (rows_of self.old)) (as_positions b (rows_of self.old))) }
        ensures built { (x y : Regular) (o : ℕ) → Built x o a self.old → Built y (o + size x) b self.old → Built (seq x y) o result self.new }
        ensures kept { Relinked a.last self.old self.new }
    {
        link(&mut self.follow, a.last, b.first);
        let nullable = a.nullable && b.nullable;
        Piece {
            first: union_if(a.first, a.nullable, b.first),
            last: union_if(b.last, b.nullable, a.last),
            nullable,
        }
    }

    /// A piece any number of times.
    pub fn repeated(&mut self, a: Piece) -> Piece
        ensures value { Same 31 (as_positions result (rows_of self.new)) (again (as_positions a (rows_of self.old))) }
        ensures built { (x : Regular) (o : ℕ) → Built x o a self.old → Built (star x) o result self.new }
        ensures kept { Relinked a.last self.old self.new }
    {
        link(&mut self.follow, a.last, a.first);
        Piece {
            first: a.first,
            last: a.last,
            nullable: true,
        }
    }
}

/// One of two pieces, where the letters of the second come behind those of the first.
pub fn alternative(a: Piece, b: Piece) -> Piece
    ensures value { (rows : List ℕ) → Same 31 (as_positions result rows) (choice (as_positions a rows) (as_positions b rows)) }
    ensures built { (x y : Regular) (o : ℕ) (e : Letters) → Built x o a e → Built y (o + size x) b e → Built (alt x y) o result e }
{
    let nullable = a.nullable || b.nullable;
    Piece {
        first: union(a.first, b.first),
        last: union(a.last, b.last),
        nullable,
    }
}

/// The position automaton of an expression, with the part of the rule that each letter stands for.
#[derive(Clone, Copy)]
pub struct Automaton {
    letters: Letters,
    whole: Piece,
}

impl Automaton {
    /// The automaton of these letters, where this piece is the whole expression.
    pub fn new(letters: Letters, whole: Piece) -> Automaton
        ensures letters { result.letters ≡ letters }
        ensures whole { result.whole ≡ whole }
        ensures made { (x : Regular) → Built x 0 whole letters → letters.count ≡ size x → AutomatonOf x result }
        ensures spells { (x : Regular) → Built x 0 whole letters → letters.count ≡ size x → (m : Model) (π : ℕ → ℕ) (i j : ℕ) → Match m π i j x ↔ Spells m π result (letter_at x) i j }
    {
        Automaton { letters, whole }
    }

    /// How many letters there are.
    pub fn letters(&self) -> usize
        ensures { result ≡ self.now.letters.count }
    {
        self.letters.count
    }

    /// The part of the rule that letter p stands for, if there is such a letter.
    pub fn part(&self, p: usize) -> Option<usize>
        ensures { result ≡ (if nat_lt p self.now.letters.count then Some (slice_index (labels_of self.now.letters) p) else None) }
    {
        self.letters.parts[..self.letters.count].get(p).copied()
    }

    /// The letters that a word can begin with.
    pub fn first(&self) -> u32
        ensures { result ≡ self.now.whole.first }
    {
        self.whole.first
    }

    /// The letters that a word can end with.
    pub fn last(&self) -> u32
        ensures { result ≡ self.now.whole.last }
    {
        self.whole.last
    }

    /// The letters that can follow letter p, none where there is no such letter.
    pub fn follow(&self, p: usize) -> u32
        ensures { result ≡ (if nat_lt p self.now.letters.count then slice_index (rows_of self.now.letters) p else 0) }
    {
        // 0 and no Option: the empty set, since nothing follows a letter that is not there.
        self.letters.follow[..self.letters.count]
            .get(p)
            .copied()
            .unwrap_or(0)
    }

    /// Whether the empty word is one.
    pub fn nullable(&self) -> bool
        ensures { result ≡ self.now.whole.nullable }
    {
        self.whole.nullable
    }
}
