#![tactic(auto)]

// The grammar of rule texts: definitions and theorems; of code only what a word is made of.
ghost use Rattle.std.specs.Prelude.{◌≡◌, Some, codes};
ghost use Rattle.std.specs.Result.{result_ok};
ghost use Rattle.grammar.specs.Words.{sign_of, key_of};

use logic::{Cycle, Quantifier};
use std::error::Error;
use std::fmt;

/// What is no such word.
#[derive(Clone, Copy, Debug, PartialEq, Eq)]
pub struct NoWord;

impl fmt::Display for NoWord {
    ghost output = { λ _. Some (codes "no such word") };

    fn fmt<W: fmt::Write>(&self, f: &mut fmt::Formatter<W>) -> fmt::Result {
        f.write_str("no such word")
    }
}

impl Error for NoWord {}

/// The words of one byte.
#[derive(Clone, Copy, Debug, PartialEq, Eq)]
pub enum Sign {
    Open,
    Close,
    OpenSquare,
    CloseSquare,
    OpenCurly,
    CloseCurly,
    Dot,
    Bar,
    Star,
}

impl TryFrom<char> for Sign {
    type Error = NoWord;

    ghost try_from_gives = { λ c r. result_ok r ≡ sign_of c };

    fn try_from(c: char) -> Result<Sign, NoWord> {
        match c {
            '(' => Ok(Sign::Open),
            ')' => Ok(Sign::Close),
            '[' => Ok(Sign::OpenSquare),
            ']' => Ok(Sign::CloseSquare),
            '{' => Ok(Sign::OpenCurly),
            '}' => Ok(Sign::CloseCurly),
            '.' => Ok(Sign::Dot),
            '|' => Ok(Sign::Bar),
            '*' => Ok(Sign::Star),
            _ => Err(NoWord),
        }
    }
}

/// The words that are no names.
#[derive(Clone, Copy, Debug, PartialEq, Eq)]
pub enum Key {
    True,
    False,
    Not,
    And,
    Or,
    Path(Quantifier),
    Cycle(Cycle),
}

impl TryFrom<&[u8]> for Key {
    type Error = NoWord;

    ghost try_from_gives = { λ word r. result_ok r ≡ key_of word.now };

    fn try_from(word: &[u8]) -> Result<Key, NoWord> {
        match word {
            b"true" => Ok(Key::True),
            b"false" => Ok(Key::False),
            b"not" => Ok(Key::Not),
            b"and" => Ok(Key::And),
            b"or" => Ok(Key::Or),
            b"EF" => Ok(Key::Path(Quantifier::EF)),
            b"AF" => Ok(Key::Path(Quantifier::AF)),
            b"EG" => Ok(Key::Path(Quantifier::EG)),
            b"AG" => Ok(Key::Path(Quantifier::AG)),
            b"LOOP" => Ok(Key::Cycle(Cycle::Loop)),
            b"SAT" => Ok(Key::Cycle(Cycle::Sat)),
            _ => Err(NoWord),
        }
    }
}
