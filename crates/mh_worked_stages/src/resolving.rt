//! Cells, defaults, reductions on errors and conflicts that were worked out by hand. Each grammar begins with the token
//! A, and state 1 is the state after A.
use crate::table_cases::check_cases;
use mh_grammar::Grammar;
use mh_resolve_cells::{Conflict, Mode};
use mh_tables_core::Table;
use mh_worked_grammars::{put, put_comma, resolved};
use std::alloc::Global;
use std::fmt::Write;
use std::test::Fail;

/// Appends the action of a state on a token, and the kind of each conflict there.
fn put_cell(text: &mut String, table: &Table, conflicts: &[Conflict], state: u32, token: u16) {
    if state < table.states() && token < table.tokens() {
        let _ = write!(text, "{:?}", table.action(state, token));
    }
    for conflict in conflicts {
        let _ = write!(text, " {:?}", conflict.kind);
    }
}

fn put_default(text: &mut String, table: &Table, state: u32) {
    if state < table.states() {
        let _ = write!(text, "{:?}", table.fallback(state));
    }
}

fn put_goto(text: &mut String, table: &Table, state: u32, nonterminal: u16) {
    if state < table.states() {
        let _ = write!(text, "{:?}", table.goto(state, nonterminal));
    }
}

/// Appends the state, the look and the kind of each conflict.
fn put_conflicts(text: &mut String, conflicts: &[Conflict]) {
    for conflict in conflicts {
        let (state, look, kind) = (conflict.state, conflict.look, conflict.kind);
        put_comma(text);
        let _ = write!(text, "{state} {look:?} {kind:?}");
    }
}

fn put_counts(text: &mut String, table: &Table) {
    let (states, tokens) = (table.states(), table.tokens());
    let (starts, productions) = (table.starts(), table.productions());
    let _ = write!(
        text,
        "{states} states, {tokens} tokens, {starts} starts, {productions} productions"
    );
}

/// Appends the left side of a production that is not a start production.
fn put_left(text: &mut String, table: &Table, production: u32) {
    if u32::from(table.starts()) <= production && production < table.productions() {
        let _ = write!(text, "{}", table.lhs_of(production));
    }
}

/// Appends the symbols of a production.
fn put_right(text: &mut String, table: &Table, production: u32) {
    if production < table.productions() {
        for at in 0..table.length_of(production) {
            put_comma(text);
            let _ = write!(text, "{:?}", table.symbol_of(production, at));
        }
    }
}

/// Appends a part of a table, given by its kind and two numbers.
fn put_by(
    text: &mut String,
    table: &Table,
    conflicts: &[Conflict],
    (kind, number, place): (&str, u32, u16),
) {
    match kind {
        "cell" => put_cell(text, table, conflicts, number, place),
        "default" | "merged" => put_default(text, table, number),
        "goto" => put_goto(text, table, number, place),
        "left" => put_left(text, table, number),
        "right" => put_right(text, table, number),
        "conflicts" => put_conflicts(text, conflicts),
        "counts" => put_counts(text, table),
        _ => put(text, "unknown"),
    }
}

/// Appends a part of a grammar's table: `cell`, `default` or `goto` with a state and a number, `left` or `right` with a
/// production, `conflicts` or `counts`; `merged` is the default of a state of the merged table. A missing number is 0.
pub fn put_part(
    alloc: Global,
    text: &mut String,
    grammar: &Grammar,
    kind: &str,
    numbers: &str,
) -> Result<(), Fail> {
    let (number, place) = numbers.split_once(' ').unwrap_or((numbers, ""));
    let part = (
        kind,
        number.parse().unwrap_or(0),
        place.parse().unwrap_or(0),
    );
    let mode = match kind {
        "merged" => Mode::Merged,
        _ => Mode::Canonical,
    };
    let (table, conflicts) = resolved(alloc, grammar, mode)?;
    put_by(text, &table, &conflicts, part);
    drop(table);
    drop(conflicts);
    Ok(())
}

/// The action of state 1 on T. Production 1 shifts T, and productions 3 and 5 can be reduced before T.
const CELLS: &str = "A T%10l; s x; s: A T; s: x T; x: A %11r
cell 1 1 = Reduce(3) Solved

A T%11r; s x; s: A T; s: x T; x: A %10l
cell 1 1 = Shift(4) Solved

A T%10l; s x; s: A T; s: x T; x: A %10l
cell 1 1 = Reduce(3) Solved

A T%11r; s x; s: A T; s: x T; x: A %11r
cell 1 1 = Shift(4) Solved

A T%12n; s x; s: A T; s: x T; x: A %12n
cell 1 1 = Refuse Solved

A T%10l; s x; s: A T; s: x T; x: A
cell 1 1 = Shift(4) Unsolved

A T; s x; s: A T; s: x T; x: A %10l
cell 1 1 = Shift(4) Unsolved

A T%10l; s x; s: A T; s: x T; x: A %20l
cell 1 1 = Shift(4) Unsolved

A T%11r; s x y; s: A T; s: x T; x: A %10l; s: y T; y: A %12n
cell 1 1 = Reduce(5) Solved

A T%12n; s x y; s: A T; s: x T; x: A %12n; s: y T; y: A %10l
cell 1 1 = Refuse Solved

A T%10l; s x y; s: A T; s: x T; x: A %11r; s: y T; y: A %10l
cell 1 1 = Reduce(3) Unsolved

A T%10l; s x y; s: A T; s: x T; x: A; s: y T; y: A %11r
cell 1 1 = Reduce(5) Unsolved

A T%12n; s x; s: x T; x: A %12n
cell 1 1 = Reduce(2)

A T%10l; s x y; s: x T; x: A %20l; s: y T; y: A %12n
cell 1 1 = Reduce(2) Unsolved";

/// The action of state 1 on T, on which no item of the state acts. For the last two grammars it is state 2, after `s`.
/// Its start production is not a candidate; it has an action at the end of the stream and another action on U.
const ERRORS: &str = "A T U; s a<1; s: a U; a: A
cell 1 1 = Reduce(2)

A T U V; s a<1 b<0; s: a U; s: b V; a: A; b: A
cell 1 1 = Reduce(4)

A T U V; s c<1 d; s: d U; s: c V; d: A; c: A
cell 1 1 = Reduce(4)

A T U V; s c<1 d; s: d U; s: d V; d: A; c: A
cell 1 1 = Refuse

A T U V; s a<1 c<1; s: a U; s: c V; a: A; c: A
cell 1 1 = Refuse

A T U; s a<1; s: a U; a: A; a: A
cell 1 1 = Refuse Unsolved

A T U; s<0 d; s: A; s: d U; d: s
cell 2 1 = Refuse Stream

A T U; s d<0; s: A; s: d U; d: s
cell 2 1 = Reduce(3) Stream";

/// The default of state 1 in the merged table and in the canonical one.
const DEFAULTS: &str = "A T; s x; s: x; s: x T; x: A
merged 1 = Some(Reduce(3))
default 1 = Some(Reduce(3))

A T; s x; s: x T; x: A
merged 1 = Some(Reduce(2))
default 1 = None

A T; s x; s: x; x: A
merged 1 = Some(Reduce(2))
default 1 = Some(Reduce(2))

A; s x; s: A x
merged 1 = None
default 1 = None

A T%10n U; s x; s: A T; s: x T; s: x U; x: A %10n
merged 1 = None
default 1 = None

A T U; s x y; s: x T; s: y U; x: A; y: A
merged 1 = None
default 1 = None

A T U; s x; s: A T; s: x U; x: A
merged 1 = None
default 1 = None";

/// In the state after A, T is shifted or `x` is reduced, and at the end `x` or `y` is reduced; so there is an action at
/// the end and another one on T. In state 3, after `x`, T is shifted, or `s` is reduced at the end.
const CONFLICTS: &str = "A T; s x y; s: x; s: y; s: A T; s: x T; x: A; y: A
conflicts = 1 Token(1) Unsolved, 1 End Unsolved, 1 End Stream, 3 End Stream";

#[test]
fn resolved_tables(rt: HostRuntime) -> Result<(), Fail> {
    check_cases(rt.alloc(), CELLS)?;
    check_cases(rt.alloc(), ERRORS)?;
    check_cases(rt.alloc(), DEFAULTS)?;
    check_cases(rt.alloc(), CONFLICTS)
}
