//! The numbers of the rules.
ghost use Rattle.std.specs.Prelude.{◌≡◌};
ghost use Rattle.mh_join_names.specs.code.Numbering.{number_in};

use crate::outlines::Outline;
use mh_grammar::Name;
use std::collections::HashMap;

/// The rules, and the number of each rule by its name: one map for the public rules, and for each file a map for its
/// private rules; the prelude is file 0.
#[derive(Drop)]
pub struct Numbering {
    pub public: HashMap<Name, u64>,
    pub own: Vec<HashMap<Name, u64>>,
    pub rules: Vec<Outline>,
}

impl Numbering {
    /// The number of the rule with this owner and name; a public rule has no owner.
    pub fn number_of(&self, owner: Option<u64>, name: &Name) -> Option<u64>
        ensures { result ≡ number_in self.now owner name.now }
    {
        match owner {
            None => self.public.get(name).copied(),
            Some(file) => self.own.get(file as usize)?.get(name).copied(),
        }
    }
}
