//! Runs on sentences of whole grammars, worked out by hand, with their last reductions and their trees.
ghost use Rattle.std.specs.Prelude.{◌<◌, length, IsTrue, All};

use crate::run_cases::check_cases;
use crate::trees::put_tree;
use mh_engine::{TreeOutcome, run_with_trees};
use mh_grammar::{Grammar, Token};
use mh_run::{trace, verdict};
use mh_tables_core::Halting;
use mh_worked_grammars::{halting_of, put};
use std::alloc::Global;
use std::fmt::Write;
use std::test::Fail;

fn push_digits(sentence: &mut Vec<Token>, digits: &str) -> Result<(), Fail> {
    for digit in digits.bytes() {
        sentence.push(Token::from(digit.wrapping_sub(b'0')))?;
    }
    Ok(())
}

/// Appends the tokens of a word: its digits, repeated as often as the number after `*` says.
fn push_word(sentence: &mut Vec<Token>, word: &str) -> Result<(), Fail> {
    let (digits, times) = word.split_once('*').unwrap_or((word, "1"));
    let times: u32 = times.parse()?;
    for _ in 0..times {
        push_digits(sentence, digits)?;
    }
    Ok(())
}

fn push_words(sentence: &mut Vec<Token>, words: &str) -> Result<(), Fail> {
    for word in words.split_ascii_whitespace() {
        push_word(sentence, word)?;
    }
    Ok(())
}

/// Returns true if the table has a start symbol and the tokens of the sentence.
pub fn can_run(table: &Halting, sentence: &[Token]) -> bool
    ensures start { IsTrue result → 0 < length table.now.grammar.starts }
    ensures tokens { IsTrue result → All (λ z. z < table.now.grammar.tokens) sentence.now }
    ensures few { IsTrue result → length sentence.now < 2000000 }
{
    let table = table.table();
    let tokens = table.tokens();
    0 < table.starts() && sentence.len() < 2_000_000 && sentence.iter().all(|token| *token < tokens)
}

/// Appends the end of a run with trees: if it accepts, the number of tokens read, and the tree or its height.
fn put_outcome(
    alloc: Global,
    text: &mut String,
    grammar: &Grammar,
    outcome: &TreeOutcome,
    is_whole: bool,
) -> Result<(), Fail> {
    match outcome {
        TreeOutcome::Accept { read, tree } => {
            let _ = write!(text, "Accept {read} ");
            if is_whole {
                put_tree(alloc, text, grammar, tree)?;
            } else {
                let _ = write!(text, "{}", tree.height());
            }
        }
        TreeOutcome::Reject { at, state } => {
            let _ = write!(text, "Reject {at} {state}");
        }
        TreeOutcome::Overshoot { state } => {
            let _ = write!(text, "Overshoot {state}");
        }
        TreeOutcome::TooDeep => put(text, "TooDeep"),
    }
    Ok(())
}

fn put_trees(
    alloc: Global,
    text: &mut String,
    grammar: &Grammar,
    table: &Halting,
    sentence: &[Token],
    is_whole: bool,
) -> Result<(), Fail>
    requires start { 0 < length table.now.grammar.starts }
    requires tokens { All (λ z. z < table.now.grammar.tokens) sentence.now }
    requires few { length sentence.now < 2000000 }
{
    let outcome = run_with_trees(alloc, table, 0, sentence)?;
    let result = put_outcome(alloc, text, grammar, &outcome, is_whole);
    drop(outcome);
    result
}

/// Appends the verdict and the reductions since the last shift.
fn put_trace(
    alloc: Global,
    text: &mut String,
    table: &Halting,
    sentence: &[Token],
) -> Result<(), Fail>
    requires start { 0 < length table.now.grammar.starts }
    requires tokens { All (λ z. z < table.now.grammar.tokens) sentence.now }
    requires few { length sentence.now < 2000000 }
{
    let (verdict, reduced) = trace(alloc, table, 0, sentence)?;
    let _ = write!(text, "{verdict:?} {:?}", reduced.as_slice());
    drop(reduced);
    Ok(())
}

fn put_verdict(
    alloc: Global,
    text: &mut String,
    table: &Halting,
    sentence: &[Token],
) -> Result<(), Fail>
    requires start { 0 < length table.now.grammar.starts }
    requires tokens { All (λ z. z < table.now.grammar.tokens) sentence.now }
    requires few { length sentence.now < 2000000 }
{
    let verdict = verdict(alloc, table, 0, sentence)?;
    let _ = write!(text, "{verdict:?}");
    Ok(())
}

fn put_kind(
    alloc: Global,
    text: &mut String,
    grammar: &Grammar,
    table: &Halting,
    kind: &str,
    sentence: &[Token],
) -> Result<(), Fail> {
    if !can_run(table, sentence) {
        return Err(Fail::from("no tokens of the table"));
    }
    match kind {
        "verdict" => put_verdict(alloc, text, table, sentence),
        "trace" => put_trace(alloc, text, table, sentence),
        "tree" => put_trees(alloc, text, grammar, table, sentence, true),
        _ => put_trees(alloc, text, grammar, table, sentence, false),
    }
}

fn put_words(
    alloc: Global,
    text: &mut String,
    grammar: &Grammar,
    table: &Halting,
    words: &str,
) -> Result<(), Fail> {
    let (kind, words) = words.split_once(' ').unwrap_or((words, ""));
    let mut sentence = Vec::new(alloc);
    let result = match push_words(&mut sentence, words) {
        Ok(()) => put_kind(alloc, text, grammar, table, kind, &sentence),
        Err(fail) => Err(fail),
    };
    drop(sentence);
    result
}

/// Appends the result of a run: its verdict, its trace, its end with trees, or its whole tree.
pub fn put_run(
    alloc: Global,
    text: &mut String,
    grammar: &Grammar,
    words: &str,
) -> Result<(), Fail> {
    let table = halting_of(alloc, grammar)?;
    let result = put_words(alloc, text, grammar, &table, words);
    drop(table);
    result
}

/// A grammar with one sentence.
const PAIR: &str = "A EOF; s; s: A EOF
run verdict 01 = Accept { read: 2 }
run verdict 010 = Accept { read: 2 }
run verdict = Overshoot { state: 0 }
run verdict 0 = Overshoot { state: 1 }
run verdict 1 = Reject { at: 0, state: 0 }
run verdict 00 = Reject { at: 1, state: 1 }";

/// After `e EQ e`, neither EQ is accepted. In INT EQ INT EQ INT, the first INT was reduced before EQ was shifted. In
/// INT EQ INT EOF, both sides of EQ were reduced, and after EOF the whole sentence is. An INT is reduced only on EQ and
/// EOF, so the last INT of INT EQ INT INT is refused before any reduction.
const COMPARISONS: &str = "INT EQ%00n EOF; main e; main: e EOF; e: INT; e: e EQ e %00n
run trace 01010 = Reject { at: 3, state: 6 } [2]
run trace 01 = Overshoot { state: 4 } []
run trace 0102 = Accept { read: 4 } [1]
run trace 0100 = Reject { at: 3, state: 1 } []
run end 01010 = Reject 3 6
run end 01 = Overshoot 4";

/// The conflict on ELSE is resolved by shifting.
const CONDITIONALS: &str = "IF ELSE X EOF; main s; main: s EOF; s: IF s; s: IF s ELSE s; s: X
run tree 002123 = Accept 6 5 [0, 0, 2, 1, 2, 3] [main: [s: IF [s: IF [s: X] ELSE [s: X]]] EOF]";

/// A right-recursive list. In A A B, first `s: B` is reduced, and then `s: A s` twice. The tree of k times A and then B
/// has the height k + 2. With 4,000 times A, the stack has as many pairs, which is the most that is allowed; with one
/// more token the run is too deep, though no tree is high.
const CHAIN: &str = "A B; s; s: A s; s: B
run trace 001 = Accept { read: 3 } [2, 1, 1]
run end 0*3998 1 = Accept 3999 4000
run verdict 0*3998 1 = Accept { read: 3999 }
run end 0*3999 1 = TooDeep
run verdict 0*3999 1 = Accept { read: 4000 }
run end 0*4000 = Overshoot 1
run end 0*4001 = TooDeep";

/// The same list with a million tokens. All their states are on the stack before the first reduction.
const LONG_CHAIN: &str = "A B; s; s: A s; s: B
run verdict 0*999999 1 = Accept { read: 1000000 }";

/// A left-recursive sum of a million tokens, whose stack never holds more than four states. The states are 0; 1 after
/// INT; 2 after main; 3 after e; 4 after e PLUS; 5 after e EOF; 6 after e PLUS INT.
const SUMS: &str = "INT PLUS EOF; main e; main: e EOF; e: e PLUS INT; e: INT
run verdict 0 10*499999 2 = Accept { read: 1000000 }
run verdict 0 10*499999 1 = Overshoot { state: 4 }
run verdict 0 10*499999 0 = Reject { at: 999999, state: 6 }";

#[test]
fn runs(rt: HostRuntime) -> Result<(), Fail> {
    check_cases(rt.alloc(), PAIR)?;
    check_cases(rt.alloc(), COMPARISONS)?;
    check_cases(rt.alloc(), CONDITIONALS)?;
    check_cases(rt.alloc(), CHAIN)
}

#[test]
fn long_chain(rt: HostRuntime) -> Result<(), Fail> {
    check_cases(rt.alloc(), LONG_CHAIN)
}

#[test]
fn long_sums(rt: HostRuntime) -> Result<(), Fail> {
    check_cases(rt.alloc(), SUMS)
}
