//! The automaton and the table of the grammar of the examples.
use crate::making::{A, EOF};
use mh_grammar::{Edge, Symbol};
use mh_items::Automaton;
use mh_tables::Table;

/// State 0 has an edge on `A` to state 1 and on `s` to state 2. State 1 has an edge on `EOF` to state 3.
pub fn has_edges(automaton: &Automaton<1>) -> bool {
    let wanted = [
        Edge {
            symbol: Symbol::T(A),
            target: 1,
        },
        Edge {
            symbol: Symbol::N(0),
            target: 2,
        },
        Edge {
            symbol: Symbol::T(EOF),
            target: 3,
        },
    ];
    let first = match automaton.edges.get(0) {
        Some(edges) => edges.as_slice() == &wanted[..2],
        None => false,
    };
    let second = match automaton.edges.get(1) {
        Some(edges) => edges.as_slice() == &wanted[2..],
        None => false,
    };
    first && second && automaton.kernels.len() == 4
}

/// The counts of a table. Its productions are the start production and `s -> A EOF`.
pub fn has_counts(table: &Table) -> bool {
    (
        table.states(),
        table.tokens(),
        table.starts(),
        table.productions(),
    ) == (4, 2, 1, 2)
}
