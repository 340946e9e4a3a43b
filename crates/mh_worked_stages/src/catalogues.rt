//! Catalogues of whole grammars, worked out by hand. A catalogue lists the states of the canonical automaton in which
//! some sentence fails. The sentence of a state is one of least cost; among these, one of the lowest start symbol; and
//! among these, the first in the lexicographic order of token numbers.
use crate::run_cases::check_cases;
use mh_catalogue::{CatalogueFault, Row, catalogue};
use mh_grammar::{Grammar, start_name, token_name};
use mh_tables_core::Halting;
use mh_worked_grammars::{halting_of, put, put_bytes, put_comma};
use std::alloc::Global;
use std::fmt::Write;
use std::test::Fail;

/// Appends the start symbol and the tokens of a row.
fn put_sentence(text: &mut String, grammar: &Grammar, row: &Row) {
    put_bytes(text, start_name(grammar, row.start));
    put(text, ":");
    for token in row.sentence.as_slice() {
        put(text, " ");
        put_bytes(text, token_name(grammar, *token));
    }
}

/// Appends the state of each row, and the row's sentence or its length.
fn put_rows(text: &mut String, grammar: &Grammar, rows: &[Row], is_whole: bool) {
    for row in rows {
        put_comma(text);
        let _ = write!(text, "{} ", row.state);
        if is_whole {
            put_sentence(text, grammar, row);
        } else {
            let _ = write!(text, "{}", row.sentence.len());
        }
    }
}

/// Appends the catalogue of a table, or its fault.
fn put_catalogue(
    alloc: Global,
    text: &mut String,
    grammar: &Grammar,
    table: &Halting,
    is_whole: bool,
) {
    match catalogue(alloc, table) {
        Ok(rows) => {
            put_rows(text, grammar, &rows, is_whole);
            drop(rows);
        }
        Err(CatalogueFault::TooLong { state }) => {
            let _ = write!(text, "too long: {state}");
        }
        Err(CatalogueFault::Memory) => put(text, "no memory"),
    }
}

/// Appends the catalogue of a grammar, with its sentences or their lengths.
pub fn put_catalogue_of(
    alloc: Global,
    text: &mut String,
    grammar: &Grammar,
    is_whole: bool,
) -> Result<(), Fail> {
    let table = halting_of(alloc, grammar)?;
    put_catalogue(alloc, text, grammar, &table, is_whole);
    drop(table);
    Ok(())
}

/// The state of each row, and the length of its sentence.
const ROWS: &str = "A EOF; s; s: A EOF
lengths = 0 1, 1 2

A B EOF; s; s: A EOF
lengths = 0 1, 1 2

INT EQ%00n EOF; main e; main: e EOF; e: INT; e: e EQ e %00n
lengths = 0 1, 1 2, 4 3, 6 4

X SEMI EOF; main s; main: s EOF; s: X; s: X SEMI
lengths = 0 1, 1 2, 4 3

X SEMI EOF; main s<0; main: s EOF; s: X; s: X SEMI
lengths = 0 1, 3 2

INT PLUS TIMES EOF; main e t; main: e EOF; e: e PLUS t; e: t; t: t TIMES INT; t: INT
lengths = 0 1, 1 2, 5 3, 7 3, 9 4";

/// Catalogues in which some sentence fails in each state that needs a token, or in no state.
const ALL_OR_NONE: &str = "A B C; s; s: A B C
lengths = 0 1, 1 2, 3 3

; s; s:
lengths =

A; s; s:
lengths =";

/// Two start symbols that share the state after C and the state after C D, and two that share no state.
const TWO_STARTS: &str = "A B C D; p q* x; p: x A; q: B x A; x: C D
lengths = 0 1, 1 1, 2 2, 5 2, 7 3

A B C D; p q* x; p: x A; q: x B; x: C D
lengths = 0 1, 1 1, 2 2, 5 2, 8 3, 10 3";

/// The state after C is reached by A C and by B B C. The cost of A decides which of the two is cheaper.
const COSTS: &str = "A B C D; s z; s: A z; s: B B z; z: C D
lengths = 0 1, 1 2, 2 2, 4 3, 6 3

A$10 B C D; s z; s: A z; s: B B z; z: C D
lengths = 0 1, 1 2, 2 2, 4 4, 6 3";

/// One nonterminal derives only a sequence of 1,048,576 tokens.
const LONG: &str =
    "A B; main x20 x19 x18 x17 x16 x15 x14 x13 x12 x11 x10 x9 x8 x7 x6 x5 x4 x3 x2 x1 x0; main: x20 B; x20: x19 x19; x19: x18 x18; x18: x17 x17; x17: x16 x16; x16: x15 x15; x15: x14 x14; x14: x13 x13; x13: x12 x12; x12: x11 x11; x11: x10 x10; x10: x9 x9; x9: x8 x8; x8: x7 x7; x7: x6 x6; x6: x5 x5; x5: x4 x4; x4: x3 x3; x3: x2 x2; x2: x1 x1; x1: x0 x0; x0: A
lengths = too long: 82";

/// Each row: its state, its start symbol, and its tokens. If A is expensive, states that A or B lead to are reached by
/// B.
const BY_COST: &str = "A B C EOF; s x; s: x EOF; x: A; x: B
sentences = 0 s: C, 1 s: A A, 2 s: B A

A$5 B C EOF; s x; s: x EOF; x: A; x: B
sentences = 0 s: C, 1 s: A B, 2 s: B B

A B C D; s z; s: A z; s: B B z; z: C D
sentences = 0 s: C, 1 s: A A, 2 s: B A, 4 s: A C A, 6 s: B B A

A$5 B C D; s z; s: A z; s: B B z; z: C D
sentences = 0 s: C, 1 s: A B, 2 s: B C, 4 s: B B C B, 6 s: B B B";

/// The state after C is reached from both start symbols: for less from the first, for the same cost from both, and for
/// less from the second.
const BY_START: &str = "A B C D; p q* x; p: x A; q: B x A; x: C D
sentences = 0 p: A, 1 q: A, 2 p: C A, 5 q: B A, 7 p: C D B

A B C D; p q* x; p: B x A; q: A x A; x: C D
sentences = 0 p: A, 1 q: B, 2 p: B A, 4 q: A A, 6 p: B C A, 9 p: B C D B

A B C D; p q* x; p: B B x A; q: A x A; x: C D
sentences = 0 p: A, 1 q: B, 2 p: B A, 4 q: A A, 6 p: B B A, 7 q: A C A, 10 q: A C D B";

/// Rules whose words have the same cost, where the later rule has the lower tokens. In the second grammar, both words
/// have the same first token, and their parts have different costs.
const BY_TOKENS: &str = "A B C D; s x z; s: x z; x: B; x: A; z: C D
sentences = 0 s: C, 1 s: A A, 2 s: B A, 5 s: A C A

A B C D; s z x y u w; s: z D D; z: x y; z: u w; x: A; y: C B; u: A B; w: B
sentences = 0 s: B, 1 s: A A, 6 s: A B A, 7 s: A B B D A, 8 s: A C A, 10 s: A B B A, 13 s: A C B A";

#[test]
fn lengths(rt: HostRuntime) -> Result<(), Fail> {
    check_cases(rt.alloc(), ROWS)?;
    check_cases(rt.alloc(), ALL_OR_NONE)?;
    check_cases(rt.alloc(), TWO_STARTS)?;
    check_cases(rt.alloc(), COSTS)
}

#[test]
fn too_long(rt: HostRuntime) -> Result<(), Fail> {
    check_cases(rt.alloc(), LONG)
}

#[test]
fn sentences(rt: HostRuntime) -> Result<(), Fail> {
    check_cases(rt.alloc(), BY_COST)?;
    check_cases(rt.alloc(), BY_START)?;
    check_cases(rt.alloc(), BY_TOKENS)
}
