//! The test that every run on a table ends.
ghost use Rattle.std.specs.Prelude.{◌≡◌, IfOk, IfErr, OnOk};
ghost use Rattle.mh_tables_core.specs.Halting.{AlwaysHalts};
ghost use Rattle.mh_tables.specs.Faults.{FaultOf, IsRefused};

use crate::relative_runs::first_loop;
use mh_grammar::Token;
use mh_tables_core::{Halting, Table, halting_of};
use std::alloc::Global;

/// The reason why a table does not pass the halting test.
#[derive(Clone, Copy, Debug, Drop)]
pub enum HaltFault {
    /// The relative run that begins in `state`, alone if `below` is `None` (then `state` is a start state) or above the
    /// state `below`, makes more than `MAX_REDUCTIONS` reductions with this next token or none. It is the first such
    /// run: start states alone come first, then edges by their source and then by their target; with no token first,
    /// then with the tokens rising.
    Loops {
        below: Option<u32>,
        state: u32,
        token: Option<Token>,
    },
    /// There was no memory for a stack, for bounds, or for the targets of edges.
    Memory,
}

/// Returns the table if no relative run on it makes more than `MAX_REDUCTIONS` reductions. Otherwise it returns the
/// first relative run that does, and drops the table.
pub fn check_halts(alloc: Global, table: Table) -> Result<Halting, HaltFault>
    ensures same { IfOk result (λ halting. halting ≡ table) }
    ensures halts { OnOk result (AlwaysHalts table) }
    ensures fault { IfErr result (λ fault. FaultOf table fault) }
    ensures refused { IfErr result (λ fault. IsRefused table fault) }
{
    table.facts();
    // A refused table is dropped by one call: dropping each field at the end of the scope takes long to prove.
    match first_loop(alloc, &table) {
        Err(_) => {
            drop(table);
            Err(HaltFault::Memory)
        }
        Ok(Some(found)) => {
            drop(table);
            Err(HaltFault::Loops {
                below: found.below,
                state: found.state,
                token: found.token,
            })
        }
        Ok(None) => Ok(halting_of(table)),
    }
}
