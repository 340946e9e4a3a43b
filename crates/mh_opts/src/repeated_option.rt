//! The option that may occur twice. Clap accepts an option once, so the second use is renamed before clap reads the
//! words.
ghost use Rattle.std.specs.Prelude.{◌≡◌, ◌++◌, IfOk, map, nat_eq, string_bytes};
ghost use Rattle.std.specs.List.{starts_with};
ghost use Rattle.mh_opts.specs.RepeatedOption as twice;

use std::alloc::{AllocError, Global};

/// The option with its two hyphens.
pub const ONCE: &str = "--compare-errors";

/// The option with `=`, before a value in the same word.
pub const ONCE_WITH_VALUE: &str = "--compare-errors=";

/// The other name of the option, with its two hyphens.
pub const AGAIN: &str = "--compare-errors-2";

/// The uses of the option among the words so far.
#[derive(Clone, Copy)]
pub enum SeenUses {
    Nothing,
    One,
    /// Both uses or the end of the options were seen: the words that follow are not renamed.
    All,
}

/// Returns true if the word ends the options.
fn is_end(word: &str) -> bool
    ensures { result ≡ twice.is_end word.now }
{
    word == "--"
}

fn begins_with(word: &str, prefix: &str) -> bool
    ensures { result ≡ starts_with nat_eq word.now prefix.now }
{
    word.starts_with(prefix)
}

/// Returns true if the word is the option, alone or with its value.
fn is_use(word: &str) -> bool
    ensures { result ≡ twice.is_use word.now }
{
    word == ONCE || begins_with(word, ONCE_WITH_VALUE)
}

/// The uses of the option up to this word.
fn seen_after(seen: SeenUses, word: &str) -> SeenUses
    ensures { result ≡ twice.seen_after seen word.now }
{
    match seen {
        SeenUses::Nothing => if is_end(word) {
            SeenUses::All
        } else if is_use(word) {
            SeenUses::One
        } else {
            SeenUses::Nothing
        },
        SeenUses::One => if is_end(word) || is_use(word) {
            SeenUses::All
        } else {
            SeenUses::One
        },
        SeenUses::All => SeenUses::All,
    }
}

fn copy_of(alloc: Global, word: &str) -> Result<String, AllocError>
    ensures { IfOk result (λ copy. string_bytes copy ≡ word.now) }
{
    format!(in alloc; "{word}")
}

/// The other name, followed by the value.
fn with_other_name(alloc: Global, value: &str) -> Result<String, AllocError>
    ensures { IfOk result (λ new. string_bytes new ≡ AGAIN.now ++ value.now) }
{
    format!(in alloc; "--compare-errors-2{value}")
}

/// The word with the other name of the option.
fn again(alloc: Global, word: &str) -> Result<String, AllocError>
    ensures { IfOk result (λ new. string_bytes new ≡ twice.again word.now) }
{
    match word.strip_prefix(ONCE) {
        Some(value) => with_other_name(alloc, value),
        None => copy_of(alloc, word),
    }
}

/// The word as clap reads it: renamed if it is the second use.
fn word_with(alloc: Global, seen: SeenUses, word: &str) -> Result<String, AllocError>
    ensures { IfOk result (λ new. string_bytes new ≡ twice.word_with seen word.now) }
{
    match seen {
        SeenUses::One if is_use(word) => again(alloc, word),
        _ => copy_of(alloc, word),
    }
}

/// The words as clap reads them. Fails only if memory runs out.
pub(crate) fn renamed(alloc: Global, words: &[String]) -> Result<Vec<String>, AllocError>
    ensures { IfOk result (λ new. map string_bytes new.items ≡ twice.renamed (map string_bytes words.now)) }
{
    let mut renamed = Vec::new(alloc);
    let mut seen = SeenUses::Nothing;
    for word in words {
        renamed.push(word_with(alloc, seen, word.as_str())?)?;
        seen = seen_after(seen, word.as_str());
    }
    Ok(renamed)
}

/// Returns true if some word before the end of the options begins with the other name.
pub(crate) fn is_reserved(words: &[String]) -> bool
    ensures { result ≡ twice.is_reserved (map string_bytes words.now) }
{
    for word in words {
        if is_end(word.as_str()) {
            return false;
        }
        if begins_with(word.as_str(), AGAIN) {
            return true;
        }
    }
    false
}
