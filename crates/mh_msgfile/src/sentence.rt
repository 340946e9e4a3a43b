//! Sentence lines: the name of a start and a colon, which may be omitted if the grammar has only one start, and names
//! of tokens.
ghost use Rattle.std.specs.Prelude.{◌≡◌, ◌≤◌, [], length, IfOk, OnOk};
ghost use Rattle.mh_grammar.specs.Plain.{plain_of, IsInRange};
ghost use Rattle.mh_msgfile.specs.code.LineSteps.{IsOnlyWord, FindsStart, name_of, AreTokens, IsUnknownToken, AppendsSentence};
ghost use Rattle.mh_msgfile.specs.Sentences.{colon_place, start_by, vocabulary_of, vocabulary_in, sentence_in, sentence_from, ReadsSentence};
ghost use Rattle.mh_msgfile.specs.declared.sentence.SentenceFault.TheVariants.{Memory as Memory'};

use crate::lexicon::Lexicon;
use crate::pieces::first_piece;
use mh_grammar::{Grammar, Memory, Name, Sentence, Sequence, Token, from_bytes};
use mh_lex_bytes::is_word;
use std::alloc::{AllocError, AllocFailed, Global};

/// The reason why a line is no sentence.
#[derive(Drop)]
pub enum SentenceFault {
    /// The line does not have the form of a sentence line.
    Unreadable,
    /// No start symbol has the name before the colon.
    UnknownStart { name: Name },
    /// The line names no start, and the grammar has none or several.
    MissingStart,
    /// No token has this name, the first such name of the line.
    UnknownToken { name: Name },
    /// Memory ran out.
    Memory,
}

impl From<Memory> for SentenceFault {
    ghost from_gives = { λ _ e. e ≡ Memory' };

    fn from(_: Memory) -> Self {
        SentenceFault::Memory
    }
}

/// The number of bytes before the first colon.
fn place_of_colon(bytes: &[u8]) -> usize
    ensures value { result ≡ colon_place bytes.now }
    ensures within { result ≤ length bytes.now }
{
    let mut count = 0usize;
    for byte in bytes {
        if *byte == b':' {
            return count;
        }
        count += 1;
    }
    count
}

/// The only piece of a text, if there is exactly one and it is a word.
fn sole_name(bytes: &[u8]) -> Option<&[u8]>
    ensures { IsOnlyWord bytes.now result }
{
    match first_piece(bytes) {
        None => None,
        Some((name, rest)) => match first_piece(rest) {
            Some(_) => None,
            None => if is_word(name) { Some(name) } else { None },
        },
    }
}

/// The name of a line's start.
#[derive(Clone, Copy)]
enum StartName<'a> {
    Named(&'a [u8]),
    LeftOut,
}

/// Appends the tokens of the pieces of a line, in one pass. Returns the first piece that is no token's name, and fails
/// if some piece is no word.
fn put_tokens<'a>(
    tokens: &mut Vec<Token>,
    lexicon: &Lexicon,
    line: &'a [u8],
) -> Result<Option<&'a [u8]>, SentenceFault>
    requires { tokens.old.items ≡ [] }
    ensures pieces { AreTokens (vocabulary_in lexicon.now) line.now tokens.new.items result }
    ensures few { OnOk result (length tokens.new.items ≤ length line.now) }
{
    let mut unknown = None;
    let mut rest = line;
    while let Some((name, behind)) = first_piece(rest) {
        if !is_word(name) {
            return Err(SentenceFault::Unreadable);
        }
        match lexicon.token(name) {
            Some(token) => {
                if tokens.push(token).is_err() {
                    return Err(SentenceFault::Memory);
                }
            }
            None => unknown = unknown.or(Some(name)),
        }
        rest = behind;
    }
    Ok(unknown)
}

/// The number of the named start, or of the only start.
fn find_start(alloc: Global, lexicon: &Lexicon, start: StartName<'_>) -> Result<u16, SentenceFault>
    ensures { FindsStart (start_by (vocabulary_in lexicon.now) (name_of start.entry)) result }
{
    match start {
        StartName::Named(name) => match lexicon.start(name) {
            Some(start) => Ok(start),
            None => {
                let name = from_bytes(alloc, name)?;
                Err(SentenceFault::UnknownStart { name })
            }
        },
        StartName::LeftOut => match lexicon.only_start() {
            Some(start) => Ok(start),
            None => Err(SentenceFault::MissingStart),
        },
    }
}

/// The fault that no token has this name.
fn unknown_token(alloc: Global, name: &[u8]) -> SentenceFault
    ensures { IsUnknownToken name.now result }
{
    match from_bytes(alloc, name) {
        Ok(name) => SentenceFault::UnknownToken { name },
        Err(_) => SentenceFault::Memory,
    }
}

/// Appends the tokens of these names, and returns the number of the start.
fn put_sentence(
    alloc: Global,
    lexicon: &Lexicon,
    start: StartName<'_>,
    names: &[u8],
    tokens: &mut Vec<Token>,
) -> Result<u16, SentenceFault>
    requires { tokens.old.items ≡ [] }
    ensures sentence { AppendsSentence (sentence_from (vocabulary_in lexicon.now) (name_of start.entry) names.now) tokens.new.items result }
    ensures few { OnOk result (length tokens.new.items ≤ length names.now) }
{
    match put_tokens(tokens, lexicon, names) {
        Ok(unknown) => match find_start(alloc, lexicon, start) {
            Ok(start) => match unknown {
                Some(name) => Err(unknown_token(alloc, name)),
                None => Ok(start),
            },
            Err(fault) => Err(fault),
        },
        Err(fault) => Err(fault),
    }
}

/// The sentence of this start and these names of tokens.
fn sentence_of(
    alloc: Global,
    lexicon: &Lexicon,
    start: StartName<'_>,
    names: &[u8],
) -> Result<Sentence, SentenceFault>
    ensures sentence { ReadsSentence (sentence_from (vocabulary_in lexicon.now) (name_of start.entry) names.now) result }
    ensures few { IfOk result (λ sentence. length sentence.tokens ≤ length names.now) }
{
    let mut tokens = Vec::new(alloc);
    match put_sentence(alloc, lexicon, start, names, &mut tokens) {
        Ok(start) => Ok(Sentence {
            start,
            tokens: Sequence::from_vec(tokens),
        }),
        Err(fault) => Err(fault),
    }
}

impl Lexicon {
    /// Reads the sentence of a line, as `read_sentence` does.
    pub fn read(&self, alloc: Global, line: &[u8]) -> Result<Sentence, SentenceFault>
        ensures sentence { ReadsSentence (sentence_in (vocabulary_in self.now) line.now) result }
        ensures few { IfOk result (λ sentence. length sentence.tokens ≤ length line.now) }
    {
        let place = place_of_colon(line);
        if place < line.len() {
            match sole_name(&line[..place]) {
                Some(name) => sentence_of(alloc, self, StartName::Named(name), &line[place + 1..]),
                None => Err(SentenceFault::Unreadable),
            }
        } else {
            sentence_of(alloc, self, StartName::LeftOut, line)
        }
    }
}

/// Reads the sentence of a line: the name of a start, a colon, and names of tokens, with blanks between and around
/// them. The name of the start and the colon may be omitted if the grammar has only one start. Fails with `Unreadable`
/// for any other form, then with `UnknownStart` or `MissingStart`, then with `UnknownToken` for the first name that no
/// token has, and with `Memory` only if memory runs out. To read many lines of one grammar, make a `Lexicon` once and
/// call `Lexicon::read`.
pub fn read_sentence(
    alloc: Global,
    grammar: &Grammar,
    line: &[u8],
) -> Result<Sentence, SentenceFault>
    requires { IsInRange (plain_of grammar.now) }
    ensures sentence { ReadsSentence (sentence_in (vocabulary_of grammar.now) line.now) result }
    ensures few { IfOk result (λ sentence. length sentence.tokens ≤ length line.now) }
{
    let lexicon = Lexicon::new(alloc, grammar)?;
    let sentence = lexicon.read(alloc, line);
    drop(lexicon);
    sentence
}
