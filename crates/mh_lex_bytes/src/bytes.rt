//! The classes of bytes, and tests of the byte at a position.
ghost use Rattle.std.specs.Prelude.{◌≡◌, ◌<◌, ◌≤◌, length, IsTrue};
ghost use Rattle.mh_lex_bytes.specs.Bytes.{has, begins_arrow, is_blank, is_word_start, is_word_byte};

/// Returns whether the byte at a position is this one.
pub fn has_byte(rest: &[u8], place: usize, byte: u8) -> bool
    ensures value { result ≡ has rest.now place byte }
    ensures within { IsTrue result → place < length rest.now }
{
    match rest.get(place) {
        Some(found) => *found == byte,
        None => false,
    }
}

/// Returns whether the bytes begin with an arrow, `->`.
pub fn starts_arrow(rest: &[u8]) -> bool
    ensures value { result ≡ begins_arrow rest.now }
    ensures within { IsTrue result → 2 ≤ length rest.now }
{
    has_byte(rest, 0, b'-') && has_byte(rest, 1, b'>')
}

/// Returns whether a byte is a space, a tab, a line feed, a carriage return or a form feed.
pub fn is_blank_byte(byte: u8) -> bool
    ensures { result ≡ is_blank byte }
{
    byte == b' ' || byte == b'\t' || byte == b'\n' || byte == b'\r' || byte == b'\x0c'
}

/// Returns whether a word may begin with this byte: a letter or `_`.
pub fn starts_word(byte: u8) -> bool
    ensures { result ≡ is_word_start byte }
{
    byte.is_ascii_alphabetic() || byte == b'_'
}

/// Returns whether this byte may follow in a word: a letter, a digit, `_` or `'`.
pub fn continues_word(byte: u8) -> bool
    ensures { result ≡ is_word_byte byte }
{
    starts_word(byte) || byte.is_ascii_digit() || byte == b'\''
}
