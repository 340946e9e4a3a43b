//! Reads the edges of the states, one after another.
ghost use Rattle.std.specs.Prelude.{◌≡◌, ◌<◌, [], length, IfOk, OnOk};
ghost use Rattle.mh_grammar.specs.Plain.{plain_of};
ghost use Rattle.mh_items.specs.Fitting.{FitsSets};
ghost use Rattle.mh_items.specs.code.MoveBuilder.{IsMoveBuilder};
ghost use Rattle.mh_validate_valid.specs.Valid.{AreKernels, HasEdges, raw_state};
ghost use Rattle.mh_validate_valid.specs.code.SearchResult.{FindsOne};
ghost use Rattle.mh_validate.specs.code.FirstRows.{AreFirstRows};

use crate::edges::row_of;
use mh_grammar::{Edge, Grammar, Memory, Sequence};
use mh_items::MoveBuilder;
use mh_items_kernels::Kernel;
use mh_tabfile_form::{RawEdge, RawTable};
use std::alloc::Global;

/// The edge lines of a state.
fn edges_at(raw: &RawTable, state: usize) -> &[RawEdge]
    requires { state < length raw.now.states }
    ensures { result.now ≡ (raw_state raw.now state).edges }
{
    raw.states[state].edges.as_slice()
}

/// The edges of a state if they are right, else none.
fn row_at<const W: usize>(
    alloc: Global,
    grammar: &Grammar,
    mover: &mut MoveBuilder<W>,
    raw: &RawTable,
    kernels: &[Kernel<W>],
    state: usize,
) -> Result<Option<Sequence<Edge>>, Memory>
    requires fits { FitsSets W grammar.now }
    requires mover { IsMoveBuilder (plain_of grammar.now) mover.old }
    requires kernels { AreKernels grammar.now raw.now kernels.now }
    requires state { state < length kernels.now }
    ensures row { IfOk result (FindsOne (HasEdges grammar.now raw.now kernels.now state)) }
    ensures mover { IfOk result (λ _. IsMoveBuilder (plain_of grammar.now) mover.new) }
{
    let moves = mover.moves(alloc, grammar, &kernels[state])?;
    row_of(
        alloc,
        grammar,
        kernels,
        moves.as_slice(),
        edges_at(raw, state),
    )
}

/// Appends the edges of the first states, up to the first state whose edges are wrong.
fn fill_rows<const W: usize>(
    alloc: Global,
    grammar: &Grammar,
    mover: &mut MoveBuilder<W>,
    raw: &RawTable,
    kernels: &[Kernel<W>],
    rows: &mut Vec<Sequence<Edge>>,
) -> Result<(), Memory>
    requires fits { FitsSets W grammar.now }
    requires mover { IsMoveBuilder (plain_of grammar.now) mover.old }
    requires kernels { AreKernels grammar.now raw.now kernels.now }
    requires fresh { rows.old.items ≡ [] }
    ensures { OnOk result (AreFirstRows grammar.now raw.now kernels.now rows.new.items) }
{
    for state in 0..kernels.len() {
        let Some(row) = row_at(alloc, grammar, mover, raw, kernels, state)? else {
            return Ok(());
        };
        rows.push(row)?;
    }
    Ok(())
}

/// Appends the edges of the first states, as far as they are right, with a move builder of its own. The builder is
/// dropped in one place, on success and on failure.
fn move_rows<const W: usize>(
    alloc: Global,
    grammar: &Grammar,
    raw: &RawTable,
    kernels: &[Kernel<W>],
    rows: &mut Vec<Sequence<Edge>>,
) -> Result<(), Memory>
    requires fits { FitsSets W grammar.now }
    requires kernels { AreKernels grammar.now raw.now kernels.now }
    requires fresh { rows.old.items ≡ [] }
    ensures { OnOk result (AreFirstRows grammar.now raw.now kernels.now rows.new.items) }
{
    let mut mover = MoveBuilder::new(alloc, grammar)?;
    let filled = fill_rows(alloc, grammar, &mut mover, raw, kernels, rows);
    // The move builder is dropped only here, because the proof that drops its many fields takes long.
    drop(mover);
    filled
}

/// The edges of the first states, up to the first state whose edges are wrong. Fails only if memory runs out.
pub(crate) fn first_rows<const W: usize>(
    alloc: Global,
    grammar: &Grammar,
    raw: &RawTable,
    kernels: &[Kernel<W>],
) -> Result<Vec<Sequence<Edge>>, Memory>
    requires fits { FitsSets W grammar.now }
    requires kernels { AreKernels grammar.now raw.now kernels.now }
    ensures { IfOk result (λ v. AreFirstRows grammar.now raw.now kernels.now v.items) }
{
    let mut rows = Vec::with_capacity(alloc, kernels.len())?;
    move_rows(alloc, grammar, raw, kernels, &mut rows)?;
    Ok(rows)
}
