//! A table that is made by hand from a grammar that is made by hand. The grammar has no start, so its table needs no
//! state. Also a `StateParts` that is made by hand: a table has one `StateParts` for each state.
ghost use Rattle.std.specs.Prelude.{◌≡◌, []};
ghost use Rattle.mh_grammar.specs.Costs.{HaveCosts};
ghost use Rattle.mh_grammar.specs.Plain.{plain_of, IsInRange};

use crate::making::{A, EOF, is_small};
use mh_grammar::{Edge, Grammar, NontermInfo, Production, Sequence, Symbol, TokenInfo, from_bytes};
use mh_tables::{Action, Place, StateParts, Table, table_of};
use std::alloc::Global;
use std::process::Abort;
use std::test::Fail;

/// A token without a level.
fn token_of(alloc: Global, name: &[u8], cost: u32) -> Result<TokenInfo, Fail> {
    Ok(TokenInfo {
        name: from_bytes(alloc, name)?,
        level: None,
        cost,
    })
}

/// The production `s -> A EOF`, where `s` is the nonterminal 0.
fn production_of_s(alloc: Global) -> Result<Production, Fail> {
    let mut rhs = Sequence::new(alloc);
    rhs.push(Symbol::T(A))?;
    rhs.push(Symbol::T(EOF))?;
    Ok(Production {
        lhs: 0,
        rhs,
        level: None,
    })
}

/// Adds the tokens `A` and `EOF` with the costs 1 and 3, the nonterminal `s` and its production.
fn fill(alloc: Global, grammar: &mut Grammar) -> Result<(), Fail> {
    grammar.tokens.push(token_of(alloc, b"A", 1)?)?;
    grammar.tokens.push(token_of(alloc, b"EOF", 3)?)?;
    grammar.nonterminals.push(NontermInfo {
        name: from_bytes(alloc, b"s")?,
        on_error: None,
    })?;
    grammar.productions.push(production_of_s(alloc)?)?;
    Ok(())
}

/// The table has no states, but the counts of the grammar and the costs of its tokens.
fn check_table(rt: &impl Abort, table: &Table) -> Result<(), Fail> {
    let counts = (table.tokens(), table.starts(), table.productions());
    assert!(rt; table.states() == 0 && counts == (2, 0, 1) && table.nonterminals() == 1);
    if table.tokens() != 2 {
        return Err(Fail::from("other tokens"));
    }
    assert!(rt; table.token_cost(A) == 1 && table.token_cost(EOF) == 3);
    Ok(())
}

/// The table without states of a grammar without starts.
fn table_without_states(alloc: Global, grammar: &Grammar) -> Result<Table, Fail>
    requires range { IsInRange (plain_of grammar.now) }
    requires costs { HaveCosts grammar.now.tokens }
    requires starts { grammar.now.starts ≡ [] }
{
    Ok(table_of(alloc, grammar, Vec::new(alloc))?)
}

fn check_grammar(rt: &impl Abort, alloc: Global, grammar: &Grammar) -> Result<(), Fail> {
    if !is_small(grammar) || !grammar.starts.is_empty() {
        return Err(Fail::from("a grammar in range without starts"));
    }
    let table = table_without_states(alloc, grammar)?;
    let result = check_table(rt, &table);
    drop(table);
    result
}

/// A grammar without content.
fn empty_grammar(alloc: Global) -> Grammar {
    Grammar {
        tokens: Sequence::new(alloc),
        nonterminals: Sequence::new(alloc),
        productions: Sequence::new(alloc),
        starts: Sequence::new(alloc),
    }
}

#[test]
fn a_table_by_hand(rt: HostRuntime) -> Result<(), Fail> {
    let mut grammar = empty_grammar(rt.alloc());
    let result = match fill(rt.alloc(), &mut grammar) {
        Ok(()) => check_grammar(&rt, rt.alloc(), &grammar),
        Err(fail) => Err(fail),
    };
    drop(grammar);
    result
}

/// The parts of state 1 of the examples, whose only item is `s -> A . EOF`.
fn parts_of_state_1(alloc: Global) -> Result<StateParts, Fail> {
    let mut cells = Sequence::new(alloc);
    cells.push(Action::Refuse)?;
    cells.push(Action::Shift(3))?;
    let mut edges = Sequence::new(alloc);
    edges.push(Edge {
        symbol: Symbol::T(EOF),
        target: 3,
    })?;
    let mut core = Sequence::new(alloc);
    core.push(Place {
        production: 1,
        dot: 1,
    })?;
    Ok(StateParts {
        cells,
        fallback: None,
        edges,
        core,
    })
}

/// The state has one cell for each token, no default, and one item without its lookaheads.
fn check_parts(rt: &impl Abort, parts: &StateParts) -> Result<(), Fail> {
    let place: &Place = parts.core.get(0).ok_or("no item")?;
    let cells = [Action::Refuse, Action::Shift(3)];
    assert!(rt;
        (place.production, place.dot) == (1, 1) && parts.cells.as_slice() == cells.as_slice()
    );
    assert!(rt; parts.fallback.is_none() && parts.core.len() == 1 && parts.edges.len() == 1);
    Ok(())
}

#[test]
fn a_state_by_hand(rt: HostRuntime) -> Result<(), Fail> {
    let parts = parts_of_state_1(rt.alloc())?;
    let result = check_parts(&rt, &parts);
    drop(parts);
    result
}
