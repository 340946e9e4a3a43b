//! The rows of a catalogue, added state by state.
ghost use Rattle.std.specs.Prelude.{◌≡◌, ◌<◌, ◌+◌, ℕ, Err, OnOk, length};
ghost use Rattle.mh_tables_core.specs.Facts.{Facts};
ghost use Rattle.mh_tables_core.specs.Failing.{TooLongAt};
ghost use Rattle.mh_catalogue.specs.Rows.{rows_of, IsCatalogueResult};
ghost use Rattle.mh_catalogue.specs.code.RowsBelow.{RowsBelow};

use crate::rows::{CatalogueFault, Row};
use mh_grammar::Memory;
use mh_reach::Reach;
use std::alloc::Global;

/// The greatest cost of a sentence in a catalogue.
const MAX_SENTENCE_COST: u32 = 1_000_000;

/// Appends the row of a state, if a sentence fails there. Fails with `TooLong` if each such sentence costs more than
/// 1,000,000, and for want of memory.
fn add_row(
    alloc: Global,
    reach: &Reach,
    rows: &mut Vec<Row>,
    state: u32,
) -> Result<(), CatalogueFault>
    requires facts { Facts reach.now }
    requires state { state < length reach.now.states }
    requires rows { RowsBelow reach.now state (rows_of rows.old.items) }
    ensures ok { OnOk result (RowsBelow reach.now (state + 1) (rows_of rows.new.items)) }
    ensures too_long { (s : ℕ) → result ≡ Err (CatalogueFault.TooLong s) → TooLongAt reach.now s }
{
    match reach.cost_of(state) {
        None => Ok(()),
        Some(cost) => {
            if cost > MAX_SENTENCE_COST {
                return Err(CatalogueFault::TooLong { state });
            }
            match reach.sentence_of(alloc, state) {
                Err(Memory) => Err(CatalogueFault::Memory),
                Ok(sentence) => {
                    let row = Row {
                        state,
                        start: sentence.start,
                        sentence: sentence.tokens,
                    };
                    match rows.push(row) {
                        Err(_) => Err(CatalogueFault::Memory),
                        Ok(()) => Ok(()),
                    }
                }
            }
        }
    }
}

/// The rows of all states, or the fault of the lowest state that has one.
pub(crate) fn all_rows(
    alloc: Global,
    reach: &Reach,
    states: u32,
) -> Result<Vec<Row>, CatalogueFault>
    requires facts { Facts reach.now }
    requires states { states ≡ length reach.now.states }
    ensures { IsCatalogueResult reach.now result }
{
    let mut rows = Vec::new(alloc);
    for state in 0..states {
        match add_row(alloc, reach, &mut rows, state) {
            Err(fault) => return Err(fault),
            Ok(()) => {}
        }
    }
    Ok(rows)
}
