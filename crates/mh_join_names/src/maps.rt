//! Insertion of names into hash sets and hash maps.
ghost use Rattle.std.specs.Prelude.{◌≡◌, ◌∷◌, [], ◌||◌, not, IfOk, OnOk};
ghost use Rattle.std.specs.HashSet.{contains};
ghost use Rattle.mh_grammar.specs.Text.{Text};
ghost use Rattle.mh_join_names.specs.Names.{same};
ghost use Rattle.mh_join_names.specs.code.Insertions.{InsertsNew};

use mh_grammar::{Memory, Name};
use std::collections::{HashMap, HashSet};

/// Inserts a name with a value, unless the name is there already. Fails only if memory runs out.
pub fn put_first<V: Drop>(map: &mut HashMap<Name, V>, name: &Name, value: V) -> Result<(), Memory>
    ensures { OnOk result (InsertsNew map.old ((name.now, value) ∷ []) map.new) }
{
    if !map.contains_key(name) {
        map.insert(name.clone()?, value)?;
    }
    Ok(())
}

/// Inserts a name and returns true if it is new. Fails only if memory runs out.
pub fn put_name(names: &mut HashSet<Name>, name: &Name) -> Result<bool, Memory>
    ensures names { OnOk result ((x : Text) →
        contains same names.new x ≡ (contains same names.old x || same x name.now)) }
    ensures is_new { IfOk result (λ b. b ≡ not (contains same names.old name.now)) }
{
    let is_new = names.insert(name.clone()?)?;
    Ok(is_new)
}
