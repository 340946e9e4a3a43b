//! The lengths of words, strings, quoted strings and character literals.
ghost use Rattle.std.specs.Prelude.{◌≡◌, ◌+◌, ◌<◌, ◌≤◌, ◌==◌, ◌&&◌, false, not, length, drop, IfSome, IsTrue};
ghost use Rattle.std.specs.Option.{unwrap_or};
ghost use Rattle.mh_lex_bytes.specs.Bytes.{byte_at, is_decimal, is_octal, is_hexadecimal, is_id_byte, is_escape};
ghost use Rattle.mh_lex.specs.LexemeLengths.{word_rest, string_rest, id_rest, quoted_opening, closes_quoted, quoted_rest, escaped, literal};

use mh_lex_bytes::{continues_word, has_byte};

fn continues_id(byte: u8) -> bool
    ensures { result ≡ is_id_byte byte }
{
    byte.is_ascii_lowercase() || byte == b'_'
}

/// The length of the longest prefix of word bytes.
pub(crate) fn word_length(rest: &[u8]) -> usize
    ensures value { result ≡ word_rest rest.now }
    ensures within { result ≤ length rest.now }
{
    let mut length = 0;
    for byte in rest {
        if !continues_word(*byte) {
            return length;
        }
        length += 1;
    }
    length
}

/// Returns whether this is the wanted byte, without a backslash that escapes it.
fn is_unescaped(escaped: bool, byte: u8, wanted: u8) -> bool
    ensures { result ≡ (not escaped && byte == wanted) }
{
    !escaped && byte == wanted
}

/// The number of bytes up to and including a string's closing quote; `None` if there is none.
#[tactic(auto, using(crate::proofs::OptionalLength::plus_more))]
pub(crate) fn string_length(rest: &[u8]) -> Option<usize>
    ensures value { result ≡ string_rest false rest.now }
    ensures within { IfSome result (λ n. n ≤ length rest.now) }
{
    let mut taken = false;
    for (place, byte) in rest.iter().enumerate() {
        if is_unescaped(taken, *byte, b'"') {
            return Some(place + 1);
        }
        taken = is_unescaped(taken, *byte, b'\\');
    }
    None
}

/// The length of the longest prefix of bytes of a quoted string's identifier.
fn id_length(rest: &[u8]) -> usize
    ensures value { result ≡ id_rest rest.now }
    ensures within { result ≤ length rest.now }
{
    let mut length = 0;
    for byte in rest {
        if !continues_id(*byte) {
            return length;
        }
        length += 1;
    }
    length
}

/// The length of a quoted string's opening; `None` if the bytes do not begin with one.
#[tactic(auto, unfolding(crate::specs::LexemeLengths::quoted_opening))]
pub(crate) fn quoted_opening_length(rest: &[u8]) -> Option<usize>
    ensures value { unwrap_or result 0 ≡ quoted_opening rest.now }
    ensures within { IfSome result (λ n. (2 ≤ n) × (n ≤ length rest.now)) }
{
    if !has_byte(rest, 0, b'{') {
        return None;
    }
    let id = id_length(&rest[1..]);
    if has_byte(rest, id + 1, b'|') {
        Some(id + 2)
    } else {
        None
    }
}

/// Returns whether the bytes begin with this identifier and a brace.
#[tactic(auto, unfolding(crate::specs::LexemeLengths::closes_quoted))]
fn closes_quoted_string(id: &[u8], rest: &[u8]) -> bool
    ensures value { result ≡ closes_quoted id.now rest.now }
    ensures within { IsTrue result → length id.now < length rest.now }
{
    rest.starts_with(id) && has_byte(rest, id.len(), b'}')
}

/// Returns whether a bar, this identifier and a brace are at a position.
fn closes_at(id: &[u8], rest: &[u8], place: usize) -> bool
    requires { place < length rest.now }
    ensures value { result ≡ (byte_at rest.now place == 124 && closes_quoted id.now (drop (place + 1) rest.now)) }
    ensures within { IsTrue result → place + 1 + length id.now < length rest.now }
{
    rest[place] == b'|' && closes_quoted_string(id, &rest[place + 1..])
}

/// The number of bytes up to and including the end of a quoted string with this identifier; `None` if it has no end.
#[tactic(auto, using(crate::proofs::OptionalLength::plus_more))]
pub(crate) fn quoted_length(id: &[u8], rest: &[u8]) -> Option<usize>
    ensures value { result ≡ quoted_rest id.now rest.now }
    ensures within { IfSome result (λ n. n ≤ length rest.now) }
{
    for place in 0..rest.len() {
        if closes_at(id, rest, place) {
            return Some(place + id.len() + 2);
        }
    }
    None
}

fn has_decimal(rest: &[u8], place: usize) -> bool
    ensures value { result ≡ is_decimal (byte_at rest.now place) }
{
    match rest.get(place) {
        Some(found) => found.is_ascii_digit(),
        None => false,
    }
}

fn has_octal(rest: &[u8], place: usize) -> bool
    ensures value { result ≡ is_octal (byte_at rest.now place) }
{
    match rest.get(place) {
        Some(found) => *found >= b'0' && *found <= b'7',
        None => false,
    }
}

fn has_hexadecimal(rest: &[u8], place: usize) -> bool
    ensures value { result ≡ is_hexadecimal (byte_at rest.now place) }
{
    match rest.get(place) {
        Some(found) => found.is_ascii_hexdigit(),
        None => false,
    }
}

/// Returns whether the byte at a position may follow the backslash of a character.
fn has_escape(rest: &[u8], place: usize) -> bool
    ensures value { result ≡ is_escape (byte_at rest.now place) }
{
    match rest.get(place) {
        Some(found) => {
            *found == b'\\'
                || *found == b'\''
                || *found == b'"'
                || *found == b'n'
                || *found == b't'
                || *found == b'b'
                || *found == b'r'
                || *found == b' '
        }
        None => false,
    }
}

/// The length of a character literal with a backslash; `None` if the bytes do not begin with one.
#[tactic(auto, unfolding(crate::specs::LexemeLengths::escaped))]
fn escaped_length(rest: &[u8]) -> Option<usize>
    ensures value { unwrap_or result 0 ≡ escaped rest.now }
    ensures within { IfSome result (λ n. (0 < n) × (n ≤ length rest.now)) }
{
    if has_escape(rest, 2) && has_byte(rest, 3, b'\'') {
        Some(4)
    } else if has_decimal(rest, 2)
        && has_decimal(rest, 3)
        && has_decimal(rest, 4)
        && has_byte(rest, 5, b'\'')
    {
        Some(6)
    } else if has_byte(rest, 2, b'x')
        && has_hexadecimal(rest, 3)
        && has_hexadecimal(rest, 4)
        && has_byte(rest, 5, b'\'')
    {
        Some(6)
    } else if has_byte(rest, 2, b'o')
        && has_octal(rest, 3)
        && has_octal(rest, 4)
        && has_octal(rest, 5)
        && has_byte(rest, 6, b'\'')
    {
        Some(7)
    } else {
        None
    }
}

/// The length of a character literal; `None` if the bytes do not begin with one.
#[tactic(auto, unfolding(crate::specs::LexemeLengths::literal))]
pub(crate) fn literal_length(rest: &[u8]) -> Option<usize>
    ensures value { unwrap_or result 0 ≡ literal rest.now }
    ensures within { IfSome result (λ n. (0 < n) × (n ≤ length rest.now)) }
{
    if !has_byte(rest, 0, b'\'') {
        return None;
    }
    match rest.get(1) {
        Some(b'\\') => escaped_length(rest),
        Some(b'\'' | b'\n') | None => None,
        Some(_) => if has_byte(rest, 2, b'\'') {
            Some(3)
        } else {
            None
        },
    }
}
