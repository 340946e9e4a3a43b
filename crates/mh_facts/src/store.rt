//! The store of settled facts, in order of their costs, each with the facts that it was derived from.
ghost use Rattle.std.specs.Prelude.{◌≡◌, ◌≤◌, ◌↔◌, [], ◌∷◌, ◌++◌, true, false, None, Some, IfOk, IfSome, OnErr};
ghost use Rattle.std.specs.Option.{option_map};
ghost use Rattle.mh_facts.specs.Stored.{IsIndexOf, fact_at, highest_cost};

use crate::ordered_map::OrderedMap;
use mh_grammar::{Memory, Token};
use std::alloc::Global;
use std::marker::Model;

/// The key of a fact: a path from a state along a prefix of a production's right side, with the first token to come at
/// its beginning and the next token at its end. A token may be named by the representative of its class in the state.
#[derive(Clone, Copy, PartialEq, Eq, Hash, Drop)]
pub struct FactKey {
    /// The state in which the path begins.
    pub from: u32,
    /// The number of an ordinary production.
    pub production: u32,
    /// The number of symbols of the right side before the dot, which is the length of the path.
    pub dot: u32,
    /// The first token to come at the beginning of the path.
    pub first: Token,
    /// The token to come at the end of the path.
    pub next: Token,
}

/// The facts that a fact was derived from.
#[derive(Clone, Copy, Drop)]
pub enum Back {
    /// No facts: the path is empty.
    Empty,
    /// The path without its last symbol, which is a token that was shifted.
    Shifted(FactKey),
    /// The path without its last symbol, which is a nonterminal, and the complete path that was reduced to the
    /// nonterminal.
    Reduced { path: FactKey, inner: FactKey },
}

/// The value that is stored for a key: the least cost of the path's words, and the facts that it was derived from.
#[derive(Clone, Copy, Drop)]
pub struct Fact {
    pub cost: u32,
    pub back: Back,
}

/// A map from keys to costs, each with the facts that it was derived from. Stored facts never change, and each new cost
/// is at least the highest stored cost.
#[derive(Drop)]
pub struct FactStore {
    facts: OrderedMap<FactKey, Fact>,
    last: u32,
}

impl Model for FactStore {
    ghost use Rattle.std.specs.Prelude.{◌≡◌};
    ghost use Rattle.mh_facts.specs.Stored.{StoredFacts, highest_cost};

    ghost Value = { StoredFacts };

    ghost view = { λ s. s.facts };

    ghost invariant = { λ s. s.last ≡ highest_cost s.facts };
}

impl FactStore {
    /// The empty map.
    pub fn new(alloc: Global) -> FactStore
        ensures { result ≡ [] }
    {
        FactStore {
            facts: OrderedMap::new(alloc),
            last: 0,
        }
    }

    /// The stored fact of a key, if there is one.
    fn fact(&self, key: &FactKey) -> Option<Fact>
        ensures { result ≡ fact_at self.now key.now }
    {
        self.facts.get(key).copied()
    }

    /// The stored cost of a key, if there is one.
    pub fn cost(&self, key: &FactKey) -> Option<u32>
        ensures { result ≡ option_map (λ fact. fact.cost) (fact_at self.now key.now) }
    {
        match self.fact(key) {
            Some(fact) => Some(fact.cost),
            None => None,
        }
    }

    /// The facts that the key's fact was derived from, if one is stored.
    pub fn back(&self, key: &FactKey) -> Option<Back>
        ensures { result ≡ option_map (λ fact. fact.back) (fact_at self.now key.now) }
    {
        match self.fact(key) {
            Some(fact) => Some(fact.back),
            None => None,
        }
    }

    /// The index of a key's fact in the order of storing, from 0, if one is stored.
    pub fn place(&self, key: &FactKey) -> Option<usize>
        ensures none { (result ≡ None) ↔ (fact_at self.now key.now ≡ None) }
        ensures place { IfSome result (IsIndexOf self.now key.now) }
    {
        self.facts.place(key)
    }

    /// The highest stored cost, 0 if nothing is stored.
    pub fn last(&self) -> u32
        ensures { result ≡ highest_cost self.now }
    {
        self.last
    }

    /// Stores a fact and returns true if the key has none; else changes nothing and returns false. The cost must be at
    /// least the highest stored cost. Fails only if memory runs out; the store then stays as it was.
    pub fn settle(&mut self, key: FactKey, cost: u32, back: Back) -> Result<bool, Memory>
        requires { highest_cost self.old ≤ cost }
        ensures fresh { IfOk result (λ stored. (stored ≡ true) ↔ (fact_at self.old key ≡ None)) }
        ensures stored { IfOk result (λ stored. stored ≡ true → self.new ≡ self.old ++ (key, record { cost = cost; back = back }) ∷ []) }
        ensures same { IfOk result (λ stored. stored ≡ false → self.new ≡ self.old) }
        ensures failed { OnErr result (self.new ≡ self.old) }
    {
        if let Some(_) = self.fact(&key) {
            return Ok(false);
        }
        self.facts.push(key, Fact { cost, back })?;
        self.last = cost;
        Ok(true)
    }
}
