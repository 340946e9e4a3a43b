//! Sentence lines and how they are read, worked out by hand.
ghost use Rattle.std.specs.Prelude.{◌<◌, ◌^◌, length};
ghost use Rattle.mh_grammar.specs.Plain.{plain_of, IsInRange};

use crate::cases::{Subject, check_cases, digit};
use crate::filling::put;
use crate::messages::{put_echoed, put_printed};
use mh_grammar::{
    Grammar, Memory, NontermInfo, Sentence, Sequence, TokenInfo, from_bytes, is_in_range,
};
use mh_msgfile::{SentenceFault, read_sentence};
use std::alloc::Global;
use std::test::Fail;

fn add_token(alloc: Global, grammar: &mut Grammar, name: &str) -> Result<(), Memory> {
    let name = from_bytes(alloc, name.as_bytes())?;
    grammar.tokens.push(TokenInfo {
        name,
        level: None,
        cost: 1,
    })?;
    Ok(())
}

fn add_nonterminal(alloc: Global, grammar: &mut Grammar, name: &str) -> Result<(), Memory> {
    let name = from_bytes(alloc, name.as_bytes())?;
    grammar.nonterminals.push(NontermInfo {
        name,
        on_error: None,
    })?;
    Ok(())
}

fn add_starts(grammar: &mut Grammar, starts: &[u16]) {
    for start in starts {
        let _ = grammar.starts.push(*start);
    }
}

/// A grammar with the tokens `A`, `B'` and `EOF`, the nonterminals `r` and `s`, and these start symbols. If memory runs
/// out, the grammar lacks some of them, and the case fails.
fn sample(alloc: Global, starts: &[u16]) -> Grammar {
    let mut grammar = Grammar {
        tokens: Sequence::new(alloc),
        nonterminals: Sequence::new(alloc),
        productions: Sequence::new(alloc),
        starts: Sequence::new(alloc),
    };
    for name in ["A", "B'", "EOF"] {
        let _ = add_token(alloc, &mut grammar, name);
    }
    for name in ["r", "s"] {
        let _ = add_nonterminal(alloc, &mut grammar, name);
    }
    add_starts(&mut grammar, starts);
    grammar
}

pub fn put_both(text: &mut Vec<u8>, front: &str, name: &[u8]) {
    put(text, front.as_bytes());
    put(text, name);
}

/// Appends the digit of a sentence's start, a colon, and the digits of its tokens.
fn put_digits(text: &mut Vec<u8>, sentence: &Sentence) {
    put(text, &[digit(u64::from(sentence.start)), b':']);
    for token in sentence.tokens.as_slice() {
        put(text, &[digit(u64::from(*token))]);
    }
}

/// Appends the digits of the sentence of a line, or its fault with the name.
fn put_sentence(alloc: Global, text: &mut Vec<u8>, grammar: &Grammar, line: &[u8])
    requires { IsInRange (plain_of grammar.now) }
{
    match read_sentence(alloc, grammar, line) {
        Ok(sentence) => {
            put_digits(text, &sentence);
            drop(sentence);
        }
        Err(fault) => {
            put_fault(text, &fault);
            drop(fault);
        }
    }
}

fn put_fault(text: &mut Vec<u8>, fault: &SentenceFault) {
    match fault {
        SentenceFault::Unreadable => put_both(text, "unreadable", b""),
        SentenceFault::UnknownStart { name } => put_both(text, "no start ", name.as_slice()),
        SentenceFault::MissingStart => put_both(text, "missing start", b""),
        SentenceFault::UnknownToken { name } => put_both(text, "no token ", name.as_slice()),
        SentenceFault::Memory => put_both(text, "no memory", b""),
    }
}

/// What is read from the bytes of a case.
#[derive(Clone, Copy)]
pub enum Reading {
    /// The sentence of a line.
    Sentence,
    /// The printed text of a messages file.
    Printed,
    /// The sentences of a messages file.
    Echoed,
}

fn put_read(alloc: Global, text: &mut Vec<u8>, grammar: &Grammar, reading: Reading, bytes: &[u8])
    requires range { IsInRange (plain_of grammar.now) }
    requires size { length bytes.now < 2 ^ 31 }
{
    match reading {
        Reading::Sentence => put_sentence(alloc, text, grammar, bytes),
        Reading::Printed => put_printed(alloc, text, grammar, bytes),
        Reading::Echoed => put_echoed(alloc, text, grammar, bytes),
    }
}

/// Appends what is read from the bytes, for the grammar with these start symbols.
pub fn put_reading(
    alloc: Global,
    text: &mut Vec<u8>,
    reading: Reading,
    starts: &[u16],
    bytes: &[u8],
) {
    let grammar = sample(alloc, starts);
    if is_in_range(&grammar) && bytes.len() < 1_000 {
        put_read(alloc, text, &grammar, reading, bytes);
    } else {
        put(text, b"out of range");
    }
    drop(grammar);
}

/// Lines for a grammar whose only start symbol is `s`, with `~` before the result and `^` between cases.
const OF_ONE_START: &str = "~0:^\
     \u{20}\t\r~0:^\
     s:~0:^\
     s:A EOF~0:02^\
     \rs\t: A ~0:0^\
     \tA\tB'  EOF\r~0:012^\
     A\u{b}EOF~unreadable^\
     s:A:EOF~unreadable^\
     :A~unreadable^\
     s s: A~unreadable^\
     1: A~unreadable^\
     A 1~unreadable^\
     A 'B~unreadable^\
     A \"a\"~unreadable^\
     AEOF~no token AEOF^\
     B'A_1 A~no token B'A_1^\
     A Y Z~no token Y^\
     s~no token s^\
     A: A~no start A^\
     r: A~no start r^\
     x: Y~no start x^\
     x: Y 1~unreadable";

/// Lines for a grammar whose start symbol 0 is `s` and whose start symbol 1 is `r`.
const OF_TWO_STARTS: &str = "s: A~0:0^\
     r:EOF A~1:20^\
     A~missing start^\
     Y~missing start^\
     x: Y~no start x^\
     r: A Y~no token Y^\
     A 1~unreadable^\
     :~unreadable";

#[test]
fn lines(rt: HostRuntime) -> Result<(), Fail> {
    let of_one = Subject::OfGrammar(Reading::Sentence, &[1]);
    check_cases(rt.alloc(), &of_one, OF_ONE_START, 22)?;
    let of_two = Subject::OfGrammar(Reading::Sentence, &[1, 0]);
    check_cases(rt.alloc(), &of_two, OF_TWO_STARTS, 8)
}
