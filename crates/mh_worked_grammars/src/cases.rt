//! Cases as texts: blocks with an empty line between them. A block is a grammar, and a row for each question about the
//! grammar, with ` = ` between the question and the wanted answer.
use crate::made::grammar_of;
use mh_grammar::Grammar;
use std::alloc::Global;
use std::test::Fail;

/// The questions that rows may ask.
pub trait Questions {
    /// Appends the answer to a question about a grammar. The first word of the question is its kind.
    fn put_answer(
        &self,
        alloc: Global,
        text: &mut String,
        grammar: &Grammar,
        kind: &str,
        rest: &str,
    ) -> Result<(), Fail>;
}

/// Appends to a text. If memory runs out, the text lacks the addition, and so differs from the wanted text.
pub fn put(text: &mut String, more: &str) {
    let _ = text.push_str(more);
}

/// Appends bytes that are a text.
pub fn put_bytes(text: &mut String, bytes: &[u8]) {
    put(text, str::from_utf8(bytes).unwrap_or("no text"));
}

/// Appends a comma if the text is not empty.
pub fn put_comma(text: &mut String) {
    put(text, if text.is_empty() { "" } else { ", " });
}

/// A failure with the found text and the row or the file that asked for another text.
fn unlike(alloc: Global, found: &str, at: &str) -> Fail {
    match format!(in alloc; "{found:?} at {at}") {
        Ok(text) => Fail::new(text),
        Err(_) => Fail::from("another text"),
    }
}

/// Fails if a text is not the wanted one, and drops the text.
pub fn check(alloc: Global, found: String, wanted: &str, at: &str) -> Result<(), Fail> {
    let result = if found.as_str() == wanted {
        Ok(())
    } else {
        Err(unlike(alloc, &found, at))
    };
    drop(found);
    result
}

fn check_row<Q: Questions>(
    alloc: Global,
    questions: &Q,
    grammar: &Grammar,
    row: &str,
) -> Result<(), Fail> {
    let (asked, wanted) = row.split_once(" =").ok_or("a row without a =")?;
    let wanted = wanted.strip_prefix(' ').unwrap_or(wanted);
    let (kind, rest) = asked.split_once(' ').unwrap_or((asked, ""));
    let mut text = String::new(alloc);
    match questions.put_answer(alloc, &mut text, grammar, kind, rest) {
        Ok(()) => check(alloc, text, wanted, row),
        Err(fail) => {
            drop(text);
            Err(fail)
        }
    }
}

fn check_rows<Q: Questions>(
    alloc: Global,
    questions: &Q,
    grammar: &Grammar,
    rows: &str,
) -> Result<(), Fail> {
    for row in rows.lines() {
        check_row(alloc, questions, grammar, row)?;
    }
    Ok(())
}

fn check_block<Q: Questions>(alloc: Global, questions: &Q, block: &str) -> Result<(), Fail> {
    let (grammar, rows) = block.split_once('\n').ok_or("a block without rows")?;
    let grammar = grammar_of(alloc, grammar)?;
    let result = check_rows(alloc, questions, &grammar, rows);
    drop(grammar);
    result
}

/// Fails if some answer about some grammar is not the wanted one.
pub fn check_cases<Q: Questions>(alloc: Global, questions: &Q, cases: &str) -> Result<(), Fail> {
    for block in cases.split("\n\n") {
        check_block(alloc, questions, block)?;
    }
    Ok(())
}
