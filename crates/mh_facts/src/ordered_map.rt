//! Maps that keep their entries in the order of insertion.
ghost use Rattle.std.specs.Prelude.{◌≡◌, None, [], ◌∷◌, ◌++◌, OnOk, OnErr};
ghost use Rattle.std.specs.Map.{lookup};
ghost use Rattle.std.specs.Option.{option_copied};
ghost use Rattle.mh_facts.specs.Ordered.{index_in};

use mh_grammar::Memory;
use std::alloc::Global;
use std::collections::HashMap;
use std::hash::Hash;
use std::marker::Model;

/// A map that keeps its entries in the order of insertion and finds the index of a key by hashing. Contracts see it as
/// the list of its entries.
#[derive(Drop)]
pub struct OrderedMap<K: Eq + Hash, V> {
    entries: Vec<(K, V)>,
    places: HashMap<K, usize>,
}

impl<K: Eq + Hash, V> Model for OrderedMap<K, V> {
    ghost use Rattle.std.specs.Prelude.{List};
    ghost use Rattle.std.specs.Coded.{coded_list, coded×};
    ghost use Rattle.mh_facts.specs.Ordered.{HasIndices};

    ghost Value = { List (K × V) };

    ghost coded = { coded_list (coded× K.code V.code) };

    ghost view = { λ m. m.entries.items };

    ghost invariant = { λ m. HasIndices K.eq m.entries.items m.places };
}

impl<K: Eq + Hash, V> OrderedMap<K, V> {
    /// The empty map.
    pub fn new(alloc: Global) -> OrderedMap<K, V>
        ensures { result ≡ [] }
    {
        OrderedMap {
            entries: Vec::new(alloc),
            places: HashMap::new(alloc),
        }
    }

    /// The index of a key's entry, from 0, if the key has one.
    pub fn place(&self, key: &K) -> Option<usize>
        ensures { result ≡ index_in (K.eq key.now) self.now }
    {
        self.places.get(key).copied()
    }

    /// The value of a key, if the key has one.
    pub fn get(&self, key: &K) -> Option<&V>
        ensures { option_copied result ≡ lookup (K.eq key.now) self.now }
    {
        match self.place(key) {
            None => None,
            Some(place) => Some(&self.entries[place].1),
        }
    }
}

impl<K: Eq + Hash + Copy + Drop, V: Drop> OrderedMap<K, V> {
    /// Appends an entry whose key has none yet. Fails only if memory runs out; the map then stays as it was.
    pub fn push(&mut self, key: K, value: V) -> Result<(), Memory>
        requires { lookup (K.eq key) self.old ≡ None }
        ensures pushed { OnOk result (self.new ≡ self.old ++ (key, value) ∷ []) }
        ensures failed { OnErr result (self.new ≡ self.old) }
    {
        self.entries.reserve(1)?;
        self.places.insert(key, self.entries.len())?;
        self.entries.push((key, value))?;
        Ok(())
    }
}
