//! The lexeme, comment or blank with which bytes outside of code begin.
ghost use Rattle.std.specs.Prelude.{◌≡◌, ◌+◌, ◌-◌, ◌<◌, ◌≤◌, length, drop};
ghost use Rattle.mh_lex_bytes.specs.Bytes.{is_mark};
ghost use Rattle.mh_lex.specs.LexemeStarts.{line_rest, keyword_of, percent_start, slash_start, lexeme_start};
ghost use Rattle.mh_lex.specs.code.Scans.{Begins};

use crate::code::{Delimiter, starts_comment};
use crate::items::{string_length, word_length};
use crate::kinds::{Kind, LexemeStart};
use mh_lex_bytes::{has_byte, is_blank_byte, keyword_of as keyword_named, starts_word};

fn is_mark_byte(byte: u8) -> bool
    ensures { result ≡ is_mark byte }
{
    byte == b':'
        || byte == b'|'
        || byte == b'='
        || byte == b','
        || byte == b';'
        || byte == b'('
        || byte == b')'
        || byte == b'?'
        || byte == b'*'
        || byte == b'+'
}

/// The number of bytes before the end of the line.
fn line_length(rest: &[u8]) -> usize
    ensures value { result ≡ line_rest rest.now }
    ensures within { result ≤ length rest.now }
{
    let mut length = 0;
    for byte in rest {
        if *byte == b'\n' {
            return length;
        }
        length += 1;
    }
    length
}

/// The keyword whose word follows its percent sign.
#[tactic(auto, unfolding(crate::specs::LexemeStarts::keyword_of))]
fn keyword_at(behind: &[u8]) -> LexemeStart
    ensures value { result ≡ keyword_of behind.now }
    ensures within { Begins (length behind.now + 1) result }
{
    let length = word_length(behind);
    if keyword_named(&behind[..length]).is_some() {
        LexemeStart::Short(Some(Kind::Keyword), length + 1)
    } else {
        LexemeStart::Fault
    }
}

/// The lexeme, or its opening, with which bytes begin whose first byte is a percent sign.
#[tactic(auto, unfolding(crate::specs::LexemeStarts::percent_start))]
fn percent_at(rest: &[u8]) -> LexemeStart
    requires { 0 < length rest.now }
    ensures value { result ≡ percent_start rest.now }
    ensures within { Begins (length rest.now) result }
{
    if has_byte(rest, 1, b'%') {
        return LexemeStart::Short(Some(Kind::Percents), 2);
    }
    if has_byte(rest, 1, b'{') {
        return LexemeStart::Long(Some(Kind::Header), Delimiter::Header, 2);
    }
    if has_byte(rest, 1, b'[') && has_byte(rest, 2, b'@') {
        return LexemeStart::Long(Some(Kind::Attribute), Delimiter::Bracket, 3);
    }
    keyword_at(&rest[1..])
}

/// The comment, or its opening, with which bytes begin whose first byte is a slash.
#[tactic(auto, unfolding(crate::specs::LexemeStarts::slash_start))]
fn slash_at(rest: &[u8]) -> LexemeStart
    requires { 0 < length rest.now }
    ensures value { result ≡ slash_start rest.now }
    ensures within { Begins (length rest.now) result }
{
    if has_byte(rest, 1, b'*') {
        LexemeStart::Long(None, Delimiter::Slash, 2)
    } else if has_byte(rest, 1, b'/') {
        LexemeStart::Short(None, line_length(&rest[2..]) + 2)
    } else {
        LexemeStart::Fault
    }
}

/// The lexeme, blank or comment, or its opening, with which the bytes begin.
#[tactic(auto, unfolding(crate::specs::LexemeStarts::lexeme_start))]
fn front_of(rest: &[u8]) -> LexemeStart
    ensures value { result ≡ lexeme_start rest.now }
    ensures within { Begins (length rest.now) result }
{
    let Some(first) = rest.first() else {
        return LexemeStart::Ended;
    };
    let first = *first;
    if is_blank_byte(first) {
        LexemeStart::Short(None, 1)
    } else if starts_word(first) {
        LexemeStart::Short(Some(Kind::Word), word_length(rest))
    } else if starts_comment(rest) {
        LexemeStart::Long(None, Delimiter::Comment, 2)
    } else if is_mark_byte(first) {
        LexemeStart::Short(Some(Kind::Mark), 1)
    } else if first == b'%' {
        percent_at(rest)
    } else if first == b'/' {
        slash_at(rest)
    } else if first == b'"' {
        match string_length(&rest[1..]) {
            Some(length) => LexemeStart::Short(Some(Kind::Quoted), length + 1),
            None => LexemeStart::Fault,
        }
    } else if first == b'{' {
        LexemeStart::Long(Some(Kind::Action), Delimiter::Brace, 1)
    } else if first == b'<' {
        LexemeStart::Long(Some(Kind::TypeText), Delimiter::Angle, 1)
    } else if first == b'[' && has_byte(rest, 1, b'@') {
        LexemeStart::Long(Some(Kind::Attribute), Delimiter::Bracket, 2)
    } else {
        LexemeStart::Fault
    }
}

/// The lexeme, blank or comment, or its opening, that begins at a position.
pub(crate) fn front_from(bytes: &[u8], at: usize) -> LexemeStart
    requires { at ≤ length bytes.now }
    ensures value { result ≡ lexeme_start (drop at bytes.now) }
    ensures within { Begins (length bytes.now - at) result }
{
    front_of(&bytes[at..])
}
