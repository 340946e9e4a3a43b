//! The catalogue of a table.
ghost use Rattle.std.specs.Prelude.{◌≡◌, ℕ, Err, IfOk};
ghost use Rattle.mh_tables_core.specs.Failing.{Catalogue, TooLongAt};
ghost use Rattle.mh_catalogue.specs.Rows.{rows_of, AreShort};

use crate::gathering::all_rows;
use crate::rows::{CatalogueFault, Row};
use mh_grammar::Memory;
use mh_reach::reach;
use mh_tables_core::Halting;
use std::alloc::Global;

/// Makes the catalogue of a table: a row for each state in which a sentence fails, in rising order, with the first
/// sentence that fails there. If sentences fail in some state, but each of them costs more than 1,000,000, returns no
/// rows, but `TooLong` with the lowest such state. Fails with `Memory` only if memory runs out.
pub fn catalogue(alloc: Global, table: &Halting) -> Result<Vec<Row>, CatalogueFault>
    ensures ok { IfOk result (λ rows. Catalogue table.now (rows_of rows.items)) }
    ensures short { IfOk result (λ rows. AreShort (rows_of rows.items)) }
    ensures none { IfOk result (λ _. (s : ℕ) → TooLongAt table.now s → ⊥) }
    ensures too_long { (s : ℕ) → result ≡ Err (CatalogueFault.TooLong s) → TooLongAt table.now s }
{
    let inner = table.table();
    inner.facts();
    match reach(alloc, table) {
        Err(Memory) => Err(CatalogueFault::Memory),
        Ok(found) => all_rows(alloc, &found, inner.states()),
    }
}
