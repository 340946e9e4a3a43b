//! Edges between states, and the search for the edge on a symbol.
ghost use Rattle.std.specs.Prelude.{◌≡◌, ◌↔◌, IsTrue};
ghost use Rattle.mh_grammar.specs.Edges.{IsRising, IsEdgeBefore, IsSymbolBefore, same_symbol, find_edge as edge_on};

use crate::types::Symbol;

/// An edge of an automaton, from the state that contains it to another state.
#[derive(Clone, Copy, PartialEq, Eq)]
pub struct Edge {
    /// The symbol of the edge.
    pub symbol: Symbol,
    /// The number of the state that the edge leads to.
    pub target: u32,
}

/// Returns whether two symbols are equal.
fn is_same(left: Symbol, right: Symbol) -> bool
    ensures { result ≡ same_symbol left right }
{
    match (left, right) {
        (Symbol::T(a), Symbol::T(b)) => a == b,
        (Symbol::N(a), Symbol::N(b)) => a == b,
        _ => false,
    }
}

/// Returns whether a symbol is before another: tokens by number, then nonterminals by number.
fn is_before(left: Symbol, right: Symbol) -> bool
    ensures { IsTrue result ↔ IsSymbolBefore left right }
{
    match (left, right) {
        (Symbol::T(a), Symbol::T(b)) => a < b,
        (Symbol::T(_), Symbol::N(_)) => true,
        (Symbol::N(_), Symbol::T(_)) => false,
        (Symbol::N(a), Symbol::N(b)) => a < b,
    }
}

/// Finds the target of the edge on a symbol by binary search. The edges are in the order of their symbols.
pub fn find_edge(edges: &[Edge], symbol: Symbol) -> Option<u32>
    requires { IsRising IsEdgeBefore edges.now }
    ensures { result ≡ edge_on edges.now symbol }
{
    let mut low = 0usize;
    let mut high = edges.len();
    while low < high {
        let middle = low + (high - low) / 2;
        let edge = edges[middle];
        if is_same(edge.symbol, symbol) {
            return Some(edge.target);
        }
        if is_before(edge.symbol, symbol) {
            low = middle + 1;
        } else {
            high = middle;
        }
    }
    None
}
