#![tactic(auto)]

ghost use Rattle.std.specs.Prelude.{◌≡◌, ◌≤◌, length};
ghost use Rattle.grammar.specs.Judging.{first_unknown};
ghost use Rattle.grammar.specs.Words.{run, skip, read, text_of};
ghost use Rattle.machine.specs.Model.{among};
ghost use Rattle.word.specs.Tokens.{shown};

use grammar::{Key, NoWord, Sign};
use machine::Machine;
use machine::name::{continues_word, is_letter};

/// A word of a rule; a name is a stretch of the rule's own text.
#[derive(Clone, Copy, Debug, PartialEq, Eq)]
pub enum Token<'a> {
    Sign(Sign),
    Key(Key),
    Name(&'a [u8]),
}

/// How many bytes at the front a word can go on with.
fn word_length(text: &[u8]) -> usize
    ensures is { result ≡ run text.now }
    ensures within { result ≤ length text.now }
{
    text.iter().take_while(|b| continues_word(**b)).count()
}

/// The text behind the gaps at its front.
pub fn skip_gaps(text: &[u8]) -> &[u8]
    ensures value { result.now ≡ skip text.now }
    ensures short { length result.now ≤ length text.now }
{
    let mut rest = text;
    // A loop, as the library trims: it needs no count and no index.
    while let [b' ', behind @ ..] = rest {
        rest = behind;
    }
    rest
}

/// The word that a text without gaps at its front begins with, and the text behind it.
pub fn read_word(text: &[u8]) -> Option<(Token<'_>, &[u8])>
    ensures { shown result ≡ read text.now }
{
    let (first, behind) = text.split_first()?;
    if let Ok(sign) = Sign::try_from(char::from(*first)) {
        return Some((Token::Sign(sign), behind));
    }
    if !is_letter(*first) {
        return None;
    }
    let (word, behind) = text.split_at(word_length(text));
    match Key::try_from(word) {
        Ok(key) => Some((Token::Key(key), behind)),
        Err(NoWord) => Some((Token::Name(word), behind)),
    }
}

/// The place of the first name in a text that the machine does not know.
pub fn first_unknown<M: Machine>(text: &[u8], machine: &M) -> Option<usize>
    ensures { result ≡ first_unknown (among (M.model machine.now).names) (text_of text.now) }
{
    let mut rest = skip_gaps(text);
    while let Some((token, next)) = read_word(rest) {
        if let Token::Name(word) = token
            && !machine.knows(word)
        {
            return Some(text.len() - rest.len());
        }
        rest = skip_gaps(next);
    }
    None
}
