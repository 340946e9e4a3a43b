//! Both searches of a table, one after the other.
ghost use Rattle.std.specs.Prelude.{◌≡◌, IfOk};
ghost use Rattle.mh_facts.specs.code.TokenClasses.{AreTokenClasses};
ghost use Rattle.mh_reach_spots.specs.code.Spots.{AreLeastArrivals};

use crate::candidates::reach_by;
use crate::sentences::Reach;
use mh_facts::TokenClasses;
use mh_grammar::Memory;
use mh_reach_classes::classes_of;
use mh_reach_rests::search;
use mh_reach_spots::{Spots, arrive};
use mh_tables_core::{Halting, Table};
use std::alloc::Global;

/// Runs both searches of a table with the given token classes.
fn searched(alloc: Global, table: &Table, classes: &TokenClasses) -> Result<Spots, Memory>
    requires { AreTokenClasses table.now classes.now }
    ensures { IfOk result (AreLeastArrivals table.now classes.now) }
{
    let found = search(alloc, table, classes)?;
    arrive(alloc, table, classes, found)
}

/// Finds, for each state of a table, whether a sentence fails there, and the first sentence that does; and for each
/// token, whether a sentence comes to the state with this token next, and the first that does. The contract names only
/// the table of the result; what was found is in the invariant of `Reach`, from which its calls promise their results.
/// Fails only if memory runs out.
pub fn reach<'t>(alloc: Global, table: &'t Halting) -> Result<Reach<'t>, Memory>
    ensures { IfOk result (λ reach. reach ≡ table.now) }
{
    let inner = table.table();
    let classes = classes_of(alloc, inner)?;
    match searched(alloc, inner, &classes) {
        Ok(spots) => reach_by(alloc, table, classes, spots),
        Err(memory) => {
            drop(classes);
            Err(memory)
        }
    }
}
