//! Examples of shortest words, computed by hand, and of random sentences, which `bench/random_sentences.py` computes
//! from the definition of the generator.
ghost use Rattle.std.specs.Prelude.{◌<◌, ◌≤◌, length, IsTrue};
ghost use Rattle.mh_grammar.specs.Plain.{plain_of, IsInRange};
ghost use Rattle.mh_sample.specs.declared.word.TheConstants.{MAX_WORD as MAX_WORD'};

use crate::run_cases::check_cases;
use crate::runs::can_run;
use mh_grammar::{Grammar, Token, is_in_range, nonterminal_name, start_name, token_name};
use mh_run::{Verdict, verdict};
use mh_sample::{MAX_WORD, RandomFault, Shortest, TokenWord, random_sentence, shortest_words};
use mh_tables_core::Halting;
use mh_worked_grammars::{halting_of, put, put_bytes, put_comma};
use std::alloc::Global;
use std::fmt::Write;
use std::test::Fail;

fn put_tokens(text: &mut String, grammar: &Grammar, tokens: &[Token]) {
    for token in tokens {
        put(text, " ");
        put_bytes(text, token_name(grammar, *token));
    }
}

/// Appends a shortest word, or the number of tokens of a long word.
fn put_word(text: &mut String, grammar: &Grammar, word: &TokenWord) {
    if word.len() <= 8 {
        put_tokens(text, grammar, word.as_slice());
    } else {
        let _ = write!(text, " {} tokens", word.len());
    }
}

fn put_shortest(text: &mut String, grammar: &Grammar, shortest: &[Shortest]) {
    for (place, answer) in shortest.iter().enumerate() {
        let number = u16::try_from(place).unwrap_or(u16::MAX);
        put_comma(text);
        put_bytes(text, nonterminal_name(grammar, number));
        put(text, ":");
        match answer {
            Shortest::None => put(text, " none"),
            Shortest::Longer => put(text, " longer"),
            Shortest::Word(word) => put_word(text, grammar, word),
        }
    }
}

/// Appends the shortest word of each nonterminal.
pub fn put_shortest_words(alloc: Global, text: &mut String, grammar: &Grammar) -> Result<(), Fail> {
    if !is_in_range(grammar) {
        return Err(Fail::from("out of range"));
    }
    let shortest = shortest_words(alloc, grammar)?;
    put_shortest(text, grammar, &shortest);
    drop(shortest);
    Ok(())
}

/// Returns true if random sentences of at most `most` tokens may be requested.
fn can_draw(grammar: &Grammar, most: u32) -> bool
    ensures range { IsTrue result → IsInRange (plain_of grammar.now) }
    ensures start { IsTrue result → 0 < length grammar.now.starts }
    ensures few { IsTrue result → most ≤ MAX_WORD' }
{
    is_in_range(grammar) && !grammar.starts.is_empty() && most as usize <= MAX_WORD
}

/// Appends the random sentence of a seed and a length.
pub fn put_random_sentence(
    alloc: Global,
    text: &mut String,
    grammar: &Grammar,
    words: &str,
) -> Result<(), Fail> {
    let (seed, length) = words.split_once(' ').ok_or("no length")?;
    let seed: u64 = seed.parse()?;
    let length: u32 = length.parse()?;
    if !can_draw(grammar, length) {
        return Err(Fail::from("out of range"));
    }
    match random_sentence(alloc, grammar, seed, length) {
        Ok(word) => {
            put_bytes(text, start_name(grammar, 0));
            put(text, ":");
            put_tokens(text, grammar, word.as_slice());
        }
        Err(RandomFault::NoneWithin) => put(text, "none within"),
        Err(RandomFault::Memory) => put(text, "out of memory"),
    }
    Ok(())
}

/// Returns true if the table accepts the whole word.
fn accepts(alloc: Global, table: &Halting, word: &TokenWord) -> Result<bool, Fail> {
    if !can_run(table, word.as_slice()) {
        return Ok(false);
    }
    match verdict(alloc, table, 0, word.as_slice())? {
        Verdict::Accept { read } => Ok(read as usize == word.len()),
        _ => Ok(false),
    }
}

/// Returns true if the table accepts the random sentence of the seed, of at most `most` tokens.
fn accepts_random(
    alloc: Global,
    grammar: &Grammar,
    table: &Halting,
    seed: u64,
    most: u32,
) -> Result<bool, Fail> {
    if !can_draw(grammar, most) {
        return Ok(false);
    }
    match random_sentence(alloc, grammar, seed, most) {
        Ok(word) => accepts(alloc, table, &word),
        Err(_) => Ok(false),
    }
}

/// The first seed below `seeds` whose random sentence the table does not accept.
fn first_refused(
    alloc: Global,
    grammar: &Grammar,
    table: &Halting,
    seeds: u64,
    most: u32,
) -> Result<Option<u64>, Fail> {
    for seed in 0..seeds {
        if !accepts_random(alloc, grammar, table, seed, most)? {
            return Ok(Some(seed));
        }
    }
    Ok(None)
}

/// Appends whether the table of the grammar accepts the random sentences of the first seeds, of at most `length`
/// tokens.
pub fn put_accepted(
    alloc: Global,
    text: &mut String,
    grammar: &Grammar,
    words: &str,
) -> Result<(), Fail> {
    let (seeds, most) = words.split_once(' ').ok_or("no length")?;
    let seeds: u64 = seeds.parse()?;
    let most: u32 = most.parse()?;
    let table = halting_of(alloc, grammar)?;
    let refused = first_refused(alloc, grammar, &table, seeds, most);
    drop(table);
    match refused? {
        None => put(text, "all"),
        Some(seed) => {
            let _ = write!(text, "not of {seed}");
        }
    }
    Ok(())
}

/// Sums of products.
const SUMS: &str =
    "INT PLUS TIMES EOF; main e t; main: e EOF; e: e PLUS t; e: t; t: t TIMES INT; t: INT
shortest = main: INT EOF, e: INT, t: INT
random 7 1 = none within
random 7 2 = main: INT EOF
random 0 50 = main: INT EOF
random 1 50 = main: INT TIMES INT PLUS INT TIMES INT TIMES INT TIMES INT TIMES INT TIMES INT EOF
random 4 50 = main: INT TIMES INT TIMES INT TIMES INT EOF
random 5 50 = main: INT PLUS INT TIMES INT EOF
random 6 50 = main: INT TIMES INT PLUS INT PLUS INT PLUS INT PLUS INT EOF
random 7 50 = main: INT TIMES INT TIMES INT PLUS INT TIMES INT TIMES INT EOF
random 12 50 = main: INT TIMES INT TIMES INT EOF
random 100 50 = main: INT TIMES INT TIMES INT TIMES INT EOF
random 1234567890123456789 50 = main: INT TIMES INT TIMES INT TIMES INT PLUS INT EOF
random 9999999999999999999 50 = main: INT TIMES INT TIMES INT TIMES INT EOF
accepted 100 50 = all";

/// The empty word, and a nonterminal that derives no word.
const EMPTY: &str = "A; s; s:
shortest = s:
random 3 0 = s:

A; s t; s: A; s: t; t: t A
shortest = s: A, t: none
random 3 1 = s: A";

/// Words of one length, ordered by the numbers of the tokens, and nonterminals that derive one another in a cycle.
const RINGS: &str = "A B C; s a b; s: a; a: b; b: a; b: C; a: B C; b: B; s: a A
shortest = s: B, a: B, b: B

A B C; s a b; s: a b; a: B; a: A b; b: C; b: A; b:
shortest = s: A, a: A, b:";

/// Words that double in length: 512 tokens, and then more than `MAX_WORD`.
const DOUBLES: &str =
    "A; l k j i h g f e d c b; l: k k; k: j j; j: i i; i: h h; h: g g; g: f f; f: e e; e: d d; d: c c; c: b b; b: A
shortest = l: longer, k: 512 tokens, j: 256 tokens, i: 128 tokens, h: 64 tokens, g: 32 tokens, f: 16 tokens, e: A A A A A A A A, d: A A A A, c: A A, b: A
random 1 1000 = none within";

#[test]
fn shortest_words_and_random_sentences(rt: HostRuntime) -> Result<(), Fail> {
    check_cases(rt.alloc(), SUMS)?;
    check_cases(rt.alloc(), EMPTY)?;
    check_cases(rt.alloc(), RINGS)?;
    check_cases(rt.alloc(), DOUBLES)
}
