//! The states from which an edge leads to a state.
ghost use Rattle.std.specs.Prelude.{◌<◌, ◌∷◌, [], IfOk, OnOk, length};
ghost use Rattle.std.specs.List.{Contains};
ghost use Rattle.mh_reach_rests.specs.code.RestRules.{AreSources, FilesEdges};

use crate::rows::empty_rows;
use mh_grammar::{Edge, Memory};
use mh_tables_core::Table;
use std::alloc::Global;

/// Files a state in the row of the target of its edge.
fn file_edge(rows: &mut Vec<Vec<u32>>, state: u32, edge: Edge) -> Result<(), Memory>
    requires { edge.target < length rows.old.items }
    ensures { OnOk result (FilesEdges (edge ∷ []) state rows.old.items rows.new.items) }
{
    rows[edge.target as usize].push(state)?;
    Ok(())
}

/// Files a state in the rows of the targets of its edges.
fn file_edges(rows: &mut Vec<Vec<u32>>, state: u32, edges: &[Edge]) -> Result<(), Memory>
    requires { (e : Edge) → Contains edges.now e → e.target < length rows.old.items }
    ensures { OnOk result (FilesEdges edges.now state rows.old.items rows.new.items) }
{
    for edge in edges {
        file_edge(rows, state, *edge)?;
    }
    Ok(())
}

/// For each state, the states from which an edge leads to it. Fails only if memory runs out.
pub(crate) fn sources_of(alloc: Global, table: &Table) -> Result<Vec<Vec<u32>>, Memory>
    ensures { IfOk result (λ rows. AreSources table.now rows.items) }
{
    table.facts();
    let mut rows = empty_rows(alloc, table.states())?;
    for state in 0..table.states() {
        file_edges(&mut rows, state, table.edges(state))?;
    }
    Ok(rows)
}
