//! The numbers of a rule's formals.
ghost use Rattle.std.specs.Prelude.{◌≡◌, IfOk};
ghost use Rattle.std.specs.HashMap.{get};
ghost use Rattle.mh_grammar.specs.Text.{Text};
ghost use Rattle.mh_join_names.specs.Names.{same, formal_number};

use crate::maps::put_first;
use mh_grammar::{Memory, Name};
use std::alloc::Global;
use std::collections::HashMap;

/// The position of each formal in the list of formals, from 0.
pub type Formals = HashMap<Name, u64>;

/// The positions of the formals by name. If two formals have one name, the first counts. Fails only if memory runs out.
pub fn formals_of(alloc: Global, formals: &[Name]) -> Result<Formals, Memory>
    ensures { IfOk result (λ numbers. (x : Text) → get same numbers x ≡ formal_number formals.now x) }
{
    let mut numbers = HashMap::new(alloc);
    for (at, formal) in formals.iter().enumerate() {
        put_first(&mut numbers, formal, at as u64)?;
    }
    Ok(numbers)
}
