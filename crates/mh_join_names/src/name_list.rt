//! Lists of different names with their positions.
ghost use Rattle.std.specs.Prelude.{◌≡◌, ◌<◌, ◌↔◌, ◌++◌, ◌∷◌, [], cond, Some, false, is_some, length, position, IfSome, IsTrue, OnErr, OnOk};
ghost use Rattle.std.specs.List.{list_any};
ghost use Rattle.std.specs.HashMap.{get};
ghost use Rattle.mh_grammar.specs.Text.{Text};
ghost use Rattle.mh_join_names.specs.Names.{same, insert_key};
ghost use Rattle.mh_join_names.specs.code.KeyLists.{IsPositionMap};

use mh_grammar::{Memory, Name};
use std::alloc::Global;
use std::collections::HashMap;
use std::marker::Model;

/// Different names in the order of their first insertion, with a hash map from each name to its position.
#[derive(Drop)]
pub struct NameList {
    names: Vec<Name>,
    places: HashMap<Name, usize>,
}

impl Model for NameList {
    ghost use Rattle.mh_join_names.specs.code.KeyLists.{KeyList, IsPositionMap};

    ghost Value = { KeyList };

    ghost view = { λ l. record { keys = l.names.items } };

    ghost invariant = { λ l. IsPositionMap l.names.items l.places };
}

/// Records the position of a name. If memory runs out, the map is unchanged.
fn put_place(places: &mut HashMap<Name, usize>, name: &Name, place: usize) -> Result<(), Memory>
    ensures placed { OnOk result ((x : Text) →
        get same places.new x ≡ cond (same name.now x) (Some place) (get same places.old x)) }
    ensures failed { OnErr result ((x : Text) → get same places.new x ≡ get same places.old x) }
{
    places.insert(name.clone()?, place)?;
    Ok(())
}

/// Appends a name that is not in the list.
fn put_new(
    names: &mut Vec<Name>,
    places: &mut HashMap<Name, usize>,
    name: &Name,
) -> Result<(), Memory>
    requires placed { IsPositionMap names.old.items places.old }
    requires new { is_some (get same places.old name.now) ≡ false }
    ensures placed { IsPositionMap names.new.items places.new }
    ensures names { OnOk result (names.new.items ≡ names.old.items ++ name.now ∷ []) }
{
    let place = names.len();
    names.push(name.clone()?)?;
    if let Err(error) = put_place(places, name, place) {
        names.pop();
        return Err(error);
    }
    Ok(())
}

impl NameList {
    /// The empty list. It allocates nothing.
    pub fn new(alloc: Global) -> NameList
        ensures { result.keys ≡ [] }
    {
        NameList {
            names: Vec::new(alloc),
            places: HashMap::new(alloc),
        }
    }

    /// Appends a name, unless the list has it already. Fails only if memory runs out.
    pub fn put(&mut self, name: &Name) -> Result<(), Memory>
        ensures { OnOk result (self.new.keys ≡ insert_key same self.old.keys name.now) }
    {
        if self.places.contains_key(name) {
            return Ok(());
        }
        put_new(&mut self.names, &mut self.places, name)
    }

    /// The position of a name, from 0.
    pub fn place_of(&self, name: &Name) -> Option<usize>
        ensures place { result ≡ position (same name.now) self.now.keys }
        ensures within { IfSome result (λ i. i < length self.now.keys) }
    {
        self.places.get(name).copied()
    }

    /// Whether the list has a name.
    pub fn contains(&self, name: &Name) -> bool
        ensures { result ≡ list_any (same name.now) self.now.keys }
    {
        self.places.contains_key(name)
    }

    /// The number of names.
    pub fn len(&self) -> usize
        ensures { result ≡ length self.now.keys }
    {
        self.names.len()
    }

    /// Whether the list is empty.
    pub fn is_empty(&self) -> bool
        ensures { IsTrue result ↔ (length self.now.keys ≡ 0) }
    {
        self.names.is_empty()
    }

    /// The names, in order.
    pub fn as_slice(&self) -> &[Name]
        ensures { result.now ≡ self.now.keys }
    {
        self.names.as_slice()
    }
}
