//! The reader of session lines.
ghost use Rattle.std.specs.Prelude.{◌≡◌, ◌∷◌, [], true, IfOk};
ghost use Rattle.std.specs.List.{list_all};
ghost use Rattle.mh_lex_bytes.specs.Words.{is_word as is_word_text};
ghost use Rattle.mh_grammar.specs.Plain.{plain_of, IsInRange};
ghost use Rattle.mh_msgfile.specs.Sentences.{pieces, tokens_of, vocabulary_in, vocabulary_of};
ghost use Rattle.mh_msgfile.specs.code.LineSteps.{after_tokens};
ghost use Rattle.mh_session_branches.specs.Names.{same};
ghost use Rattle.mh_session_branches.specs.LineForms.{FeedTo, ReadsCommand, meaning_of_form};
ghost use Rattle.mh_session_branches.specs.FormOfLine.{form_with_one_name, form_with_two_names, form_with_more_names, form_of_pieces, form_of};
ghost use Rattle.mh_session.specs.code.Forms.{as_form, as_forms, FirstWord, IsResultOfMeaning, tokens_or_unknown};

use mh_grammar::{Grammar, Memory, Sequence, Token, from_bytes};
use mh_lex_bytes::is_word;
use mh_msgfile::{Lexicon, first_piece};
use mh_session_branches::{Command, CommandFault};
use std::alloc::Global;

/// The form of a line, with names that are not looked up yet.
#[derive(Clone, Copy)]
enum LineForm<'a> {
    BeginOnly {
        name: &'a [u8],
    },
    BeginAt {
        name: &'a [u8],
        start: &'a [u8],
    },
    Offer {
        name: &'a [u8],
        token: &'a [u8],
    },
    /// `more` has the names of the tokens after the first one.
    Feed {
        name: &'a [u8],
        first: &'a [u8],
        more: &'a [u8],
    },
    Resume {
        name: &'a [u8],
    },
    Fork {
        name: &'a [u8],
        fresh: &'a [u8],
    },
    Show {
        name: &'a [u8],
    },
    Stack {
        name: &'a [u8],
    },
    Tree {
        name: &'a [u8],
    },
    Expected {
        name: &'a [u8],
    },
    Forget {
        name: &'a [u8],
    },
}

fn is_text(word: &[u8], text: &[u8]) -> bool
    ensures { result ≡ same word.now text.now }
{
    word == text
}

/// The form of a line of two words: a verb and a name.
#[tactic(auto, unfolding(mh_session_branches::specs::FormOfLine::form_with_one_name))]
fn with_one<'a>(verb: &[u8], name: &'a [u8]) -> Option<LineForm<'a>>
    ensures { as_forms result ≡ form_with_one_name verb.now name.now }
{
    if is_text(verb, b"begin") {
        Some(LineForm::BeginOnly { name })
    } else if is_text(verb, b"resume") {
        Some(LineForm::Resume { name })
    } else if is_text(verb, b"show") {
        Some(LineForm::Show { name })
    } else if is_text(verb, b"stack") {
        Some(LineForm::Stack { name })
    } else if is_text(verb, b"tree") {
        Some(LineForm::Tree { name })
    } else if is_text(verb, b"expected") {
        Some(LineForm::Expected { name })
    } else if is_text(verb, b"forget") {
        Some(LineForm::Forget { name })
    } else {
        None
    }
}

/// The form of a line of three words: a verb and two names.
#[tactic(auto, unfolding(mh_session_branches::specs::FormOfLine::form_with_two_names))]
fn with_two<'a>(verb: &[u8], name: &'a [u8], other: &'a [u8]) -> Option<LineForm<'a>>
    ensures { as_forms result ≡ form_with_two_names verb.now name.now other.now }
{
    if is_text(verb, b"begin") {
        Some(LineForm::BeginAt { name, start: other })
    } else if is_text(verb, b"offer") {
        Some(LineForm::Offer { name, token: other })
    } else if is_text(verb, b"feed") {
        Some(LineForm::Feed {
            name,
            first: other,
            more: b"",
        })
    } else if is_text(verb, b"fork") {
        Some(LineForm::Fork { name, fresh: other })
    } else {
        None
    }
}

/// The form of a line of more words: a verb and more than two names. `more` has the names after the first two.
#[tactic(auto, unfolding(mh_session_branches::specs::FormOfLine::form_with_more_names))]
fn with_more<'a>(
    verb: &[u8],
    name: &'a [u8],
    first: &'a [u8],
    more: &'a [u8],
) -> Option<LineForm<'a>>
    ensures { as_forms result ≡ form_with_more_names verb.now name.now first.now (pieces more.now) }
{
    if is_text(verb, b"feed") {
        Some(LineForm::Feed { name, first, more })
    } else {
        None
    }
}

/// True if each piece of a text is a word.
fn are_words(text: &[u8]) -> bool
    ensures { result ≡ list_all is_word_text (pieces text.now) }
{
    let mut rest = text;
    while let Some((word, after)) = first_piece(rest) {
        if !is_word(word) {
            return false;
        }
        rest = after;
    }
    true
}

/// The first piece of a line, if it is a word, with the rest of the line.
fn first_word(line: &[u8]) -> Option<(&[u8], &[u8])>
    ensures { FirstWord line.now result }
{
    match first_piece(line) {
        None => None,
        Some((word, rest)) => {
            if is_word(word) {
                Some((word, rest))
            } else {
                None
            }
        }
    }
}

/// The form of a line, given its first two words and the rest of the line.
fn with_rest<'a>(verb: &[u8], name: &'a [u8], rest: &'a [u8]) -> Option<LineForm<'a>>
    requires verb { is_word_text verb.now ≡ true }
    requires name { is_word_text name.now ≡ true }
    ensures { as_forms result ≡ form_of_pieces (verb.now ∷ name.now ∷ pieces rest.now) }
{
    let Some((other, more)) = first_piece(rest) else {
        return with_one(verb, name);
    };
    if !is_word(other) || !are_words(more) {
        return None;
    }
    match first_piece(more) {
        None => with_two(verb, name, other),
        Some(_) => with_more(verb, name, other, more),
    }
}

/// The form of a line, if it has one.
fn form_in(line: &[u8]) -> Option<LineForm<'_>>
    ensures { as_forms result ≡ form_of line.now }
{
    let Some((verb, after_verb)) = first_word(line) else {
        return None;
    };
    let Some((name, rest)) = first_word(after_verb) else {
        return None;
    };
    with_rest(verb, name, rest)
}

/// Appends the tokens with these names, up to the first name that no token has, and returns this name. Fails only if
/// memory runs out.
fn put_tokens<'a>(
    tokens: &mut Vec<Token>,
    lexicon: &Lexicon,
    names: &'a [u8],
) -> Result<Option<&'a [u8]>, Memory>
    ensures { IfOk result (λ unknown. after_tokens tokens.old.items (tokens_of (vocabulary_in lexicon.now) (pieces names.now)) ≡ tokens_or_unknown unknown tokens.new.items) }
{
    let mut rest = names;
    while let Some((name, after)) = first_piece(rest) {
        match lexicon.token(name) {
            Some(token) => tokens.push(token)?,
            None => return Ok(Some(name)),
        }
        rest = after;
    }
    Ok(None)
}

/// Appends the tokens of the first name and of the names after it, like `put_tokens`.
fn put_all_tokens<'a>(
    tokens: &mut Vec<Token>,
    lexicon: &Lexicon,
    first: &'a [u8],
    more: &'a [u8],
) -> Result<Option<&'a [u8]>, Memory>
    requires { tokens.old.items ≡ [] }
    ensures { IfOk result (λ unknown. tokens_of (vocabulary_in lexicon.now) (first.now ∷ pieces more.now) ≡ tokens_or_unknown unknown tokens.new.items) }
{
    match lexicon.token(first) {
        Some(token) => {
            tokens.push(token)?;
            put_tokens(tokens, lexicon, more)
        }
        None => Ok(Some(first)),
    }
}

/// The command that feeds tokens to a branch, or the first name that no token has.
fn feed_command(
    alloc: Global,
    lexicon: &Lexicon,
    name: &[u8],
    first: &[u8],
    more: &[u8],
) -> Result<Command, CommandFault>
    ensures { IsResultOfMeaning (meaning_of_form (vocabulary_in lexicon.now) (FeedTo name.now first.now (pieces more.now))) result }
{
    let mut tokens = Vec::new(alloc);
    match put_all_tokens(&mut tokens, lexicon, first, more)? {
        None => Ok(Command::Feed {
            name: from_bytes(alloc, name)?,
            tokens: Sequence::from_vec(tokens),
        }),
        Some(unknown) => Err(CommandFault::UnknownToken {
            name: from_bytes(alloc, unknown)?,
        }),
    }
}

/// The command of a form, or the first name in it that the grammar does not have.
fn command_of(
    alloc: Global,
    lexicon: &Lexicon,
    spelled: LineForm<'_>,
) -> Result<Command, CommandFault>
    ensures { IsResultOfMeaning (meaning_of_form (vocabulary_in lexicon.now) (as_form spelled.entry)) result }
{
    match spelled {
        LineForm::BeginOnly { name } => match lexicon.only_start() {
            Some(start) => Ok(Command::Begin {
                name: from_bytes(alloc, name)?,
                start,
            }),
            None => Err(CommandFault::MissingStart),
        },
        LineForm::BeginAt { name, start } => match lexicon.start(start) {
            Some(number) => Ok(Command::Begin {
                name: from_bytes(alloc, name)?,
                start: number,
            }),
            None => Err(CommandFault::UnknownStart {
                name: from_bytes(alloc, start)?,
            }),
        },
        LineForm::Offer { name, token } => match lexicon.token(token) {
            Some(number) => Ok(Command::Offer {
                name: from_bytes(alloc, name)?,
                token: number,
            }),
            None => Err(CommandFault::UnknownToken {
                name: from_bytes(alloc, token)?,
            }),
        },
        LineForm::Feed { name, first, more } => feed_command(alloc, lexicon, name, first, more),
        LineForm::Resume { name } => Ok(Command::Resume {
            name: from_bytes(alloc, name)?,
        }),
        LineForm::Fork { name, fresh } => Ok(Command::Fork {
            name: from_bytes(alloc, name)?,
            fresh: from_bytes(alloc, fresh)?,
        }),
        LineForm::Show { name } => Ok(Command::Show {
            name: from_bytes(alloc, name)?,
        }),
        LineForm::Stack { name } => Ok(Command::Stack {
            name: from_bytes(alloc, name)?,
        }),
        LineForm::Tree { name } => Ok(Command::Tree {
            name: from_bytes(alloc, name)?,
        }),
        LineForm::Expected { name } => Ok(Command::Expected {
            name: from_bytes(alloc, name)?,
        }),
        LineForm::Forget { name } => Ok(Command::Forget {
            name: from_bytes(alloc, name)?,
        }),
    }
}

/// Reads the command of a line like `read_command`, with the names of the grammar already collected in a lexicon.
pub(crate) fn read_command_by(
    alloc: Global,
    lexicon: &Lexicon,
    line: &[u8],
) -> Result<Command, CommandFault>
    ensures { ReadsCommand (vocabulary_in lexicon.now) line.now result }
{
    match form_in(line) {
        Some(spelled) => command_of(alloc, lexicon, spelled),
        None => Err(CommandFault::Unreadable),
    }
}

/// Reads the command of a line: `begin NAME`, `begin NAME START`, `offer NAME TOKEN`, `feed NAME TOKEN ..` with one
/// token or more, `resume NAME`, `fork NAME NAME`, `show NAME`, `stack NAME`, `tree NAME`, `expected NAME` or
/// `forget NAME`, with blanks between and around these words. Fails with `Unreadable` for any other form, with
/// `MissingStart` or `UnknownStart` for the start, with `UnknownToken` for the first name that no token has, and with
/// `Memory` only if memory runs out. It collects the names of the grammar on each call; `answer_line`
/// takes a lexicon that is made once for many lines.
pub fn read_command(alloc: Global, grammar: &Grammar, line: &[u8]) -> Result<Command, CommandFault>
    requires { IsInRange (plain_of grammar.now) }
    ensures { ReadsCommand (vocabulary_of grammar.now) line.now result }
{
    let lexicon = Lexicon::new(alloc, grammar)?;
    read_command_by(alloc, &lexicon, line)
}
