//! Words of grammar files and of sentence lines.
ghost use Rattle.std.specs.Prelude.{◌≡◌};
ghost use Rattle.std.specs.List.{list_all};
ghost use Rattle.mh_lex_bytes.specs.Bytes.{is_word_byte};
ghost use Rattle.mh_lex_bytes.specs.Words.{is_word as is_word_text};

use crate::bytes::{continues_word, starts_word};

fn all_continue(bytes: &[u8]) -> bool
    ensures { result ≡ list_all is_word_byte bytes.now }
{
    bytes.iter().all(|byte| continues_word(*byte))
}

/// Returns whether the bytes are a word: a letter or `_`, followed by letters, digits, `_` and `'`.
pub fn is_word(bytes: &[u8]) -> bool
    ensures { result ≡ is_word_text bytes.now }
{
    match bytes {
        [first, rest @ ..] => starts_word(*first) && all_continue(rest),
        [] => false,
    }
}
