ghost use Rattle.std.specs.Prelude.{◌≡◌, ◌||◌};
ghost use Rattle.std.specs.Str.{bytes_eq};
ghost use Rattle.machine.specs.Names.{is_letter, continues, all_continue, is_word, is_connective, is_operator, is_name};

/// Whether two words are the same.
pub fn same_word(left: &[u8], right: &[u8]) -> bool
    ensures { result ≡ bytes_eq left.now right.now }
{
    left == right
}

/// Whether a word can start with this byte.
pub fn is_letter(b: u8) -> bool
    ensures { result ≡ is_letter b }
{
    b.is_ascii_alphabetic()
}

/// Whether a word can go on with this byte.
pub fn continues_word(b: u8) -> bool
    ensures { result ≡ continues b }
{
    b.is_ascii_alphanumeric() || b == b'_'
}

fn all_continue(bytes: &[u8]) -> bool
    ensures { result ≡ all_continue bytes.now }
{
    bytes.iter().all(|b| continues_word(*b))
}

fn is_word(bytes: &[u8]) -> bool
    ensures { result ≡ is_word bytes.now }
{
    match bytes {
        [first, rest @ ..] => is_letter(*first) && all_continue(rest),
        [] => false,
    }
}

/// Whether the word has a meaning of its own in rules.
fn is_key_word(word: &[u8]) -> bool
    ensures { result ≡ (is_connective word.now || is_operator word.now) }
{
    // The same words are those of grammar's Key, in a crate above this one.
    matches!(
        word,
        b"true"
            | b"false"
            | b"not"
            | b"and"
            | b"or"
            | b"EF"
            | b"AF"
            | b"EG"
            | b"AG"
            | b"LOOP"
            | b"SAT"
    )
}

/// Whether the word can be a name.
pub fn is_name(word: &[u8]) -> bool
    ensures { result ≡ is_name word.now }
{
    is_word(word) && !is_key_word(word)
}
