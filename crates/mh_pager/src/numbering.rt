//! The states that the starts reach, renumbered breadth-first.
ghost use Rattle.std.specs.Prelude.{◌≡◌, ◌<◌, ◌≤◌, [], ℕ, Some, length, slice_get, IfOk, OnOk};
ghost use Rattle.std.specs.List.{All, AllZip, range_with_len};
ghost use Rattle.mh_pager.specs.code.Renumbering.{AreWithinLimit, IsRenumbered, AreReachedStates, AreTargetsInRange};
ghost use Rattle.mh_pager.specs.MergeSteps.{start_numbers};
ghost use Rattle.mh_canon.specs.Limits.{max_states};

use crate::starts::place_state;
use crate::unions::copied;
use indexmap::IndexSet;
use mh_grammar::{Edge, Memory, Sequence};
use mh_items_kernels::Kernel;
use std::alloc::Global;

/// Adds the states that the starts reach, by their old numbers in the order of the new ones, and the renumbered edges
/// of each state.
pub(crate) fn reach(
    alloc: Global,
    starts: usize,
    rows: &[Sequence<Edge>],
    states: &mut IndexSet<u32>,
    edges: &mut Sequence<Sequence<Edge>>,
) -> Result<(), Memory>
    requires starts { starts ≤ length rows.now }
    requires few { length rows.now ≤ max_states }
    requires closed { AreTargetsInRange rows.now }
    requires first { states.old.keys ≡ range_with_len 0 starts }
    requires none { edges.old ≡ [] }
    ensures { OnOk result (AreReachedStates starts rows.now states.new.keys edges.new) }
{
    // Only the contract uses the number of starts.
    let _starts = starts;
    'states: while edges.len() < states.len() {
        let state = states.as_slice()[edges.len()];
        let row = renamed(alloc, rows[state as usize].as_slice(), states)?;
        edges.push(row)?;
    }
    Ok(())
}

/// Returns a row with renumbered targets; a target without a new number is appended to the states.
fn renamed(
    alloc: Global,
    row: &[Edge],
    states: &mut IndexSet<u32>,
) -> Result<Sequence<Edge>, Memory>
    requires { AreWithinLimit states.old.keys row.now }
    ensures { IfOk result (λ new. IsRenumbered row.now new states.old.keys states.new.keys) }
{
    let mut new = Sequence::new(alloc);
    for edge in row {
        let at = place_state(states, edge.target)?;
        let target = at as u32;
        new.push(Edge {
            symbol: edge.symbol,
            target,
        })?;
    }
    Ok(new)
}

/// Appends copies of the kernels of the given states.
pub(crate) fn pick<const W: usize>(
    alloc: Global,
    kernels: &[Kernel<W>],
    states: &[u32],
    all: &mut Sequence<Kernel<W>>,
) -> Result<(), Memory>
    requires small { W ≤ 8 }
    requires within { All (λ n. n < length kernels.now) states.now }
    requires none { all.old ≡ [] }
    ensures { OnOk result (AllZip (λ n k. slice_get kernels.now n ≡ Some k) states.now all.new) }
{
    for state in states {
        let kernel = copied(alloc, &kernels[*state as usize])?;
        all.push(kernel)?;
    }
    Ok(())
}
