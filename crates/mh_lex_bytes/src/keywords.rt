//! The words that may follow a percent sign, with a row for each.
ghost use Rattle.std.specs.Prelude.{◌≡◌};
ghost use Rattle.mh_lex_bytes.specs.Keywords.{keywords as all_rows, keyword_among, keyword_named, text_rows};

/// A keyword: a percent sign and a word.
#[derive(Clone, Copy)]
pub enum Keyword {
    Token,
    Start,
    Type,
    Left,
    Right,
    Nonassoc,
    OnErrorReduce,
    Parameter,
    Attribute,
    Public,
    Inline,
    Prec,
}

/// A keyword and its word. The type of the word is a parameter: `&str` in the table `KEYWORDS`, and a list of bytes in
/// the definitions.
pub struct KeywordRow<T> {
    pub word: T,
    pub keyword: Keyword,
}

const KEYWORDS: [KeywordRow<&str>; 12] = [
    KeywordRow {
        word: "token",
        keyword: Keyword::Token,
    },
    KeywordRow {
        word: "start",
        keyword: Keyword::Start,
    },
    KeywordRow {
        word: "type",
        keyword: Keyword::Type,
    },
    KeywordRow {
        word: "left",
        keyword: Keyword::Left,
    },
    KeywordRow {
        word: "right",
        keyword: Keyword::Right,
    },
    KeywordRow {
        word: "nonassoc",
        keyword: Keyword::Nonassoc,
    },
    KeywordRow {
        word: "on_error_reduce",
        keyword: Keyword::OnErrorReduce,
    },
    KeywordRow {
        word: "parameter",
        keyword: Keyword::Parameter,
    },
    KeywordRow {
        word: "attribute",
        keyword: Keyword::Attribute,
    },
    KeywordRow {
        word: "public",
        keyword: Keyword::Public,
    },
    KeywordRow {
        word: "inline",
        keyword: Keyword::Inline,
    },
    KeywordRow {
        word: "prec",
        keyword: Keyword::Prec,
    },
];

fn keywords<'a>() -> &'a [KeywordRow<&'a str>]
    ensures { text_rows result.now (λ word. word.now) ≡ all_rows }
{
    KEYWORDS.as_slice()
}

/// Finds the keyword of a word by some rows.
fn find_keyword(rows: &[KeywordRow<&str>], word: &[u8]) -> Option<Keyword>
    ensures { result ≡ keyword_among (text_rows rows.now (λ text. text.now)) word.now }
{
    for row in rows {
        if word == row.word.as_bytes() {
            return Some(row.keyword);
        }
    }
    None
}

/// Returns the keyword of a word, if the word may follow a percent sign.
pub fn keyword_of(word: &[u8]) -> Option<Keyword>
    ensures { result ≡ keyword_named word.now }
{
    find_keyword(keywords(), word)
}
