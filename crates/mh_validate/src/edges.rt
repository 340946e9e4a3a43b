//! Compares the edges of a state with the moves of its closure.
ghost use Rattle.std.specs.Prelude.{◌≡◌, ◌<◌, ◌≤◌, ◌↔◌, length, IsTrue, IfOk};
ghost use Rattle.std.specs.List.{AllZip};
ghost use Rattle.mh_validate.specs.code.MatchedEdges.{MatchesMove, IsRowOf, edges_on as edges_of_moves};

use mh_grammar::{Edge, Grammar, Memory, Sequence, symbol_name};
use mh_items::Move;
use mh_items_kernels::Kernel;
use mh_tabfile_form::RawEdge;
use mh_validate_valid::{is_kernel_within, is_named};
use std::alloc::Global;

fn leads<const W: usize>(
    grammar: &Grammar,
    kernels: &[Kernel<W>],
    found: &Move<W>,
    raw: &RawEdge,
) -> bool
    requires few { W ≤ 8 }
    ensures { IsTrue result ↔ MatchesMove grammar.now kernels.now found.now raw.now }
{
    if !is_named(&raw.symbol, symbol_name(grammar, found.symbol)) {
        return false;
    }
    if raw.target as usize >= kernels.len() {
        return false;
    }
    is_kernel_within(&found.kernel, &kernels[raw.target as usize])
}

/// Returns true if the edges match the moves, one by one: their symbols are equal, and the targets hold the moved
/// items.
fn all_lead<const W: usize>(
    grammar: &Grammar,
    kernels: &[Kernel<W>],
    moves: &[Move<W>],
    raws: &[RawEdge],
) -> bool
    requires few { W ≤ 8 }
    ensures { IsTrue result ↔ AllZip (MatchesMove grammar.now kernels.now) moves.now raws.now }
{
    if moves.len() != raws.len() {
        return false;
    }
    for at in 0..moves.len() {
        if !leads(grammar, kernels, &moves[at], &raws[at]) {
            return false;
        }
    }
    true
}

/// The edges with the symbols of the moves and the targets of the file's edges.
fn edges_on<const W: usize>(
    alloc: Global,
    moves: &[Move<W>],
    raws: &[RawEdge],
) -> Result<Sequence<Edge>, Memory>
    requires few { W ≤ 8 }
    requires count { length moves.now ≡ length raws.now }
    ensures { IfOk result (λ row. row ≡ edges_of_moves moves.now raws.now) }
{
    let mut row = Vec::with_capacity(alloc, raws.len())?;
    for at in 0..moves.len() {
        row.push(Edge {
            symbol: moves[at].symbol,
            target: raws[at].target,
        })?;
    }
    Ok(Sequence::from_vec(row))
}

/// The edges of a state if the file's edges match the moves, else none.
pub(crate) fn row_of<const W: usize>(
    alloc: Global,
    grammar: &Grammar,
    kernels: &[Kernel<W>],
    moves: &[Move<W>],
    raws: &[RawEdge],
) -> Result<Option<Sequence<Edge>>, Memory>
    requires few { W ≤ 8 }
    ensures { IfOk result (IsRowOf grammar.now kernels.now moves.now raws.now) }
{
    if !all_lead(grammar, kernels, moves, raws) {
        return Ok(None);
    }
    let row = edges_on(alloc, moves, raws)?;
    Ok(Some(row))
}
