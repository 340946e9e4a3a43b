//! All moves of a closure in one pass: each item is put into the row of the symbol at its dot.
ghost use Rattle.std.specs.Prelude.{◌≡◌, ◌<◌, ◌+◌, map, length, IfOk, OnOk};
ghost use Rattle.mh_grammar.specs.Plain.{plain_of, IsInRange};
ghost use Rattle.mh_items_kernels.specs.Kernels.{IsItemList};
ghost use Rattle.mh_items.specs.Fitting.{FitsSets};
ghost use Rattle.mh_items.specs.code.SymbolRows.{AreRowsEmpty, AreRowsOfMoves, AreRowsSorted, move_from, symbol_of_row};
ghost use Rattle.mh_items.specs.code.AllMoves.{AreMoves};

use crate::rows::{SymbolRows, place};
use mh_grammar::{Grammar, Memory, Sequence, Symbol};
use mh_items_kernels::{Closure, ItemsWith, KernelItem, advanced, symbol_at};
use mh_sets::TokenSet;
use std::alloc::Global;
use std::mem;

/// A symbol after the dots of some items of a closure, and the kernel of these items with their dots moved past the
/// symbol.
#[derive(Drop)]
pub struct MoveWith<L> {
    pub symbol: Symbol,
    /// The kernel of the moved items.
    pub kernel: ItemsWith<L>,
}

/// A move whose lookahead sets have W words.
pub type Move<const W: usize> = MoveWith<TokenSet<W>>;

/// Returns the moves of a closure, on tokens rising and then on nonterminals rising (Knuth 1965). The rows are scratch
/// space: they must be empty, and are empty again on success. It fails only if there is no memory.
pub(crate) fn moves<const W: usize>(
    alloc: Global,
    grammar: &Grammar,
    closed: &Closure<W>,
    rows: &mut SymbolRows<W>,
) -> Result<Vec<Move<W>>, Memory>
    requires fits { FitsSets W grammar.now }
    requires kernel { IsItemList (plain_of grammar.now) closed.now }
    requires empty { AreRowsEmpty (plain_of grammar.now) rows.old }
    ensures moves { IfOk result (λ v. AreMoves (plain_of grammar.now) closed.now v.items) }
    ensures empty { IfOk result (λ _. AreRowsEmpty (plain_of grammar.now) rows.new) }
{
    gather(grammar, closed.items.as_slice(), rows)?;
    rows.filled.sort_unstable();
    rows.filled.dedup();
    taken(alloc, grammar, rows)
}

/// Puts each item, with its dot after the next symbol, into the row of this symbol.
fn gather<const W: usize>(
    grammar: &Grammar,
    items: &[KernelItem<W>],
    rows: &mut SymbolRows<W>,
) -> Result<(), Memory>
    requires fits { FitsSets W grammar.now }
    requires kernel { IsItemList (plain_of grammar.now) (record { items = items.now }) }
    requires empty { AreRowsEmpty (plain_of grammar.now) rows.old }
    ensures { OnOk result (AreRowsOfMoves (plain_of grammar.now) items.now rows.new) }
{
    for item in items {
        if let Some(symbol) = symbol_at(grammar, item.production, item.dot) {
            rows.add(place(grammar, symbol), advanced(item))?;
        }
    }
    Ok(())
}

/// The symbol of the row at an index.
fn symbol_at_place(grammar: &Grammar, place: u32) -> Symbol
    requires range { IsInRange (plain_of grammar.now) }
    requires place { place < length grammar.now.tokens + length grammar.now.nonterminals }
    ensures { result ≡ symbol_of_row (length grammar.now.tokens) place }
{
    let place = place as usize;
    let tokens = grammar.tokens.len();
    if place < tokens {
        Symbol::T(place as u16)
    } else {
        Symbol::N((place - tokens) as u16)
    }
}

/// Takes the contents of the rows with items, in the order of their indices.
fn taken<const W: usize>(
    alloc: Global,
    grammar: &Grammar,
    rows: &mut SymbolRows<W>,
) -> Result<Vec<Move<W>>, Memory>
    requires fits { FitsSets W grammar.now }
    requires rows { AreRowsSorted (plain_of grammar.now) rows.old }
    ensures moves { IfOk result (λ v. v.items ≡ map (move_from (length grammar.now.tokens) rows.old) rows.old.filled.items) }
    ensures empty { IfOk result (λ _. AreRowsEmpty (plain_of grammar.now) rows.new) }
{
    let filled = mem::replace(&mut rows.filled, Vec::new(alloc));
    let mut moves = Vec::with_capacity(alloc, filled.len())?;
    for place in filled.as_slice() {
        let items = mem::replace(&mut rows.rows[*place as usize], Sequence::new(alloc));
        moves.push(MoveWith {
            symbol: symbol_at_place(grammar, *place),
            kernel: ItemsWith { items },
        })?;
    }
    Ok(moves)
}
