//! Sets of keys that are equal only if they are the same.
ghost use Rattle.std.specs.Prelude.{◌≡◌, ◌↔◌, ◌⊎◌, true, IfOk, IsTrue, OnOk};
ghost use Rattle.std.specs.List.{Contains};

use mh_grammar::Memory;
use std::collections::HashSet;
use std::hash::Hash;

/// Adds a key to a set, and returns true if the key is new. Fails only if memory runs out.
pub fn put_key<K: Eq + Hash + Drop>(set: &mut HashSet<K>, key: K) -> Result<bool, Memory>
    requires exact { (x y : K) → K.eq x y ≡ true → x ≡ y }
    ensures keys { OnOk result ((x : K) → Contains set.new.keys x ↔ (Contains set.old.keys x ⊎ (x ≡ key))) }
    ensures is_new { IfOk result (λ is_new. IsTrue is_new ↔ (Contains set.old.keys key → ⊥)) }
{
    let is_new = set.insert(key)?;
    Ok(is_new)
}

/// Whether a set has a key.
pub fn has_key<K: Eq + Hash>(set: &HashSet<K>, key: &K) -> bool
    requires exact { (x y : K) → K.eq x y ≡ true → x ≡ y }
    ensures { IsTrue result ↔ Contains set.now.keys key.now }
{
    !set.is_empty() && set.contains(key)
}
