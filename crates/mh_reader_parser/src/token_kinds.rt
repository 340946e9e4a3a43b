//! Token kinds: the lexemes of a file as the grammar of grammar files sees them.
ghost use Rattle.std.specs.Prelude.{◌≡◌, drop};
ghost use Rattle.mh_lex.specs.declared.kinds.Kind.TheVariants.{Quoted};
ghost use Rattle.mh_lex_bytes.specs.Bytes.{byte_at};
ghost use Rattle.mh_reader_parser.specs.TokenKinds.{kind_of_mark, kind_of_keyword, kind_of_word, token_kind_by, text_by, is_capital};

use mh_grammar::Assoc;
use mh_lex::{Keyword, Kind, keyword_of};

/// The token kind of a lexeme in the grammar of grammar files.
#[derive(Clone, Copy)]
pub enum TokenKind {
    Word,
    Quoted,
    Colon,
    Bar,
    Equals,
    Comma,
    Semicolon,
    Open,
    Close,
    Question,
    Star,
    Plus,
    Percents,
    Token,
    Start,
    Type,
    Level(Assoc),
    OnErrorReduce,
    Parameter,
    Attribute,
    Public,
    Inline,
    Prec,
    Header,
    Action,
    TypeText,
    /// A kind that no lexeme of a file has.
    Unknown,
}

fn mark_of(byte: u8) -> TokenKind
    ensures { result ≡ kind_of_mark byte }
{
    if byte == b':' {
        TokenKind::Colon
    } else if byte == b'|' {
        TokenKind::Bar
    } else if byte == b'=' {
        TokenKind::Equals
    } else if byte == b',' {
        TokenKind::Comma
    } else if byte == b';' {
        TokenKind::Semicolon
    } else if byte == b'(' {
        TokenKind::Open
    } else if byte == b')' {
        TokenKind::Close
    } else if byte == b'?' {
        TokenKind::Question
    } else if byte == b'*' {
        TokenKind::Star
    } else if byte == b'+' {
        TokenKind::Plus
    } else {
        TokenKind::Unknown
    }
}

fn keyword_sign(keyword: Keyword) -> TokenKind
    ensures { result ≡ kind_of_keyword keyword }
{
    match keyword {
        Keyword::Token => TokenKind::Token,
        Keyword::Start => TokenKind::Start,
        Keyword::Type => TokenKind::Type,
        Keyword::Left => TokenKind::Level(Assoc::Left),
        Keyword::Right => TokenKind::Level(Assoc::Right),
        Keyword::Nonassoc => TokenKind::Level(Assoc::Nonassoc),
        Keyword::OnErrorReduce => TokenKind::OnErrorReduce,
        Keyword::Parameter => TokenKind::Parameter,
        Keyword::Attribute => TokenKind::Attribute,
        Keyword::Public => TokenKind::Public,
        Keyword::Inline => TokenKind::Inline,
        Keyword::Prec => TokenKind::Prec,
    }
}

fn mark_at(text: &[u8]) -> TokenKind
    ensures { result ≡ kind_of_mark (byte_at text.now 0) }
{
    match text.first() {
        Some(byte) => mark_of(*byte),
        None => TokenKind::Unknown,
    }
}

fn keyword_at(text: &[u8]) -> TokenKind
    ensures { result ≡ kind_of_word (drop 1 text.now) }
{
    match keyword_of(after_first(text)) {
        Some(keyword) => keyword_sign(keyword),
        None => TokenKind::Unknown,
    }
}

/// The bytes after the first.
fn after_first(text: &[u8]) -> &[u8]
    ensures value { result.now ≡ drop 1 text.now }
{
    if text.is_empty() {
        return text;
    }
    &text[1..]
}

/// The token kind of a lexeme with this kind and these bytes; an attribute has none.
pub fn token_kind_of(kind: Kind, text: &[u8]) -> Option<TokenKind>
    ensures { result ≡ token_kind_by kind text.now }
{
    match kind {
        Kind::Word => Some(TokenKind::Word),
        Kind::Mark => Some(mark_at(text)),
        Kind::Percents => Some(TokenKind::Percents),
        Kind::Keyword => Some(keyword_at(text)),
        Kind::Quoted => Some(TokenKind::Quoted),
        Kind::Header => Some(TokenKind::Header),
        Kind::Action => Some(TokenKind::Action),
        Kind::TypeText => Some(TokenKind::TypeText),
        Kind::Attribute => None,
    }
}

/// The bytes between the quotes of a string; all bytes of any other lexeme.
pub fn content_of(kind: Kind, text: &[u8]) -> &[u8]
    ensures { result.now ≡ text_by kind text.now }
{
    match kind {
        Kind::Quoted => between_quotes(text),
        _ => text,
    }
}

fn between_quotes(text: &[u8]) -> &[u8]
    ensures { result.now ≡ text_by Quoted text.now }
{
    if text.len() < 2 {
        return &text[..0];
    }
    &text[1..text.len() - 1]
}

/// Returns whether a word begins with `A` to `Z`.
pub(crate) fn is_capital_word(text: &[u8]) -> bool
    ensures { result ≡ is_capital text.now }
{
    match text.first() {
        Some(byte) => *byte >= b'A' && *byte <= b'Z',
        None => false,
    }
}
