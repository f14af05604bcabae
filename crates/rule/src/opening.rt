ghost use Rattle.std.specs.Prelude.{◌≡◌};
ghost use Rattle.word.specs.Tokens.{word_of};
ghost use Rattle.rule.specs.Openings.{opening_of_key, opening_of};

use crate::part::Part;
use grammar::{Key, Sign};
use logic::{Cycle, Quantifier};
use word::Token;

/// A formula of one word: a name, by where it starts and how many bytes it has, or a constant.
#[derive(Clone, Copy)]
pub(crate) enum Simple {
    Name(usize, usize),
    True,
    False,
}

impl From<Simple> for Part {
    ghost use Rattle.rule.specs.Openings.{part_of};

    ghost from_gives = { λ simple part. part ≡ part_of simple };

    fn from(simple: Simple) -> Part {
        match simple {
            Simple::Name(start, length) => Part::Name(start, length),
            Simple::True => Part::True,
            Simple::False => Part::False,
        }
    }
}

/// What a word opens where a formula or a letter is to come.
#[derive(Clone, Copy)]
pub(crate) enum Opening {
    Leaf(Simple),
    Negation,
    Path(Quantifier),
    Cycle(Cycle),
    Round,
    Curly,
}

fn opened_by_key(key: Key) -> Option<Opening>
    ensures { result ≡ opening_of_key key }
{
    match key {
        Key::True => Some(Opening::Leaf(Simple::True)),
        Key::False => Some(Opening::Leaf(Simple::False)),
        Key::Not => Some(Opening::Negation),
        Key::Path(quantifier) => Some(Opening::Path(quantifier)),
        Key::Cycle(cycle) => Some(Opening::Cycle(cycle)),
        Key::And | Key::Or => None,
    }
}

/// What a word at this place of the text opens, if anything.
pub(crate) fn opened_by(token: Token, place: usize) -> Option<Opening>
    ensures { result ≡ opening_of place (word_of token.entry) }
{
    match token {
        Token::Name(word) => Some(Opening::Leaf(Simple::Name(place, word.len()))),
        Token::Key(key) => opened_by_key(key),
        Token::Sign(Sign::Open) => Some(Opening::Round),
        Token::Sign(Sign::OpenCurly) => Some(Opening::Curly),
        Token::Sign(_) => None,
    }
}
