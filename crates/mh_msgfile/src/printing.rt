//! The texts of sentences and of messages files.
ghost use Rattle.std.specs.Prelude.{◌≡◌, ◌++◌, IfOk, OnOk};
ghost use Rattle.mh_msgfile.specs.FileTexts.{names_after, sentence_text, sentence_line, sentence_lines, entry_text, file_text, echo_text};

use crate::messages::{Entry, MsgFile, MsgSentence};
use mh_grammar::{Grammar, Memory, Token, start_name, token_name};
use std::alloc::Global;

/// Appends the names of the tokens, each after one space. Fails only if memory runs out.
pub fn write_names(text: &mut Vec<u8>, grammar: &Grammar, tokens: &[Token]) -> Result<(), Memory>
    ensures { OnOk result (text.new.items ≡ text.old.items ++ names_after grammar.now tokens.now) }
{
    for token in tokens {
        text.push(b' ')?;
        text.extend_from_slice(token_name(grammar, *token))?;
    }
    Ok(())
}

/// Appends the canonical line of a sentence to a text, without an LF: the name of the start, a colon, and the name of
/// each token after one space. Fails only if memory runs out.
pub fn write_sentence(
    text: &mut Vec<u8>,
    grammar: &Grammar,
    start: u16,
    tokens: &[Token],
) -> Result<(), Memory>
    ensures { OnOk result (text.new.items ≡ text.old.items ++ sentence_text grammar.now start tokens.now) }
{
    text.extend_from_slice(start_name(grammar, start))?;
    text.push(b':')?;
    write_names(text, grammar, tokens)
}

fn write_line(text: &mut Vec<u8>, grammar: &Grammar, sentence: &MsgSentence) -> Result<(), Memory>
    ensures { OnOk result (text.new.items ≡ text.old.items ++ sentence_line grammar.now sentence.now) }
{
    write_sentence(text, grammar, sentence.start, sentence.tokens.as_slice())?;
    text.push(b'\n')?;
    Ok(())
}

fn write_lines(
    text: &mut Vec<u8>,
    grammar: &Grammar,
    sentences: &[MsgSentence],
) -> Result<(), Memory>
    ensures { OnOk result (text.new.items ≡ text.old.items ++ sentence_lines grammar.now sentences.now) }
{
    for sentence in sentences {
        write_line(text, grammar, sentence)?;
    }
    Ok(())
}

fn write_entry(text: &mut Vec<u8>, grammar: &Grammar, entry: &Entry) -> Result<(), Memory>
    ensures { OnOk result (text.new.items ≡ text.old.items ++ entry_text grammar.now entry.now) }
{
    write_lines(text, grammar, entry.sentences.as_slice())?;
    text.push(b'\n')?;
    text.extend_from_slice(entry.message.as_slice())?;
    text.push(b'\n')?;
    Ok(())
}

/// Returns the text of a messages file: for each entry its sentences, an empty line, its message, and an empty line.
/// Fails only if memory runs out.
pub fn print_messages(alloc: Global, grammar: &Grammar, file: &MsgFile) -> Result<Vec<u8>, Memory>
    ensures { IfOk result (λ text. text.items ≡ file_text grammar.now file.now) }
{
    let mut text = Vec::new(alloc);
    for entry in file.entries.as_slice() {
        write_entry(&mut text, grammar, entry)?;
    }
    Ok(text)
}

/// Returns the sentences of a messages file, one a line, in order and without messages. Fails only if memory runs out.
pub fn echo(alloc: Global, grammar: &Grammar, file: &MsgFile) -> Result<Vec<u8>, Memory>
    ensures { IfOk result (λ text. text.items ≡ echo_text grammar.now file.now) }
{
    let mut text = Vec::new(alloc);
    for entry in file.entries.as_slice() {
        write_lines(&mut text, grammar, entry.sentences.as_slice())?;
    }
    Ok(text)
}
