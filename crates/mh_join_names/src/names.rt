//! The meanings of the names and strings in the files of a grammar.
ghost use Rattle.std.specs.Prelude.{◌≡◌, ◌≤◌, ◌||◌, is_some, length};
ghost use Rattle.std.specs.List.{list_any};
ghost use Rattle.std.specs.HashMap.{get};
ghost use Rattle.mh_join_names.specs.Names as spec;
ghost use Rattle.mh_join_names.specs.Names.{same, user_head, visible_head};
ghost use Rattle.mh_join_names.specs.Faults.{meant_by};
ghost use Rattle.mh_join_names.specs.code.SymbolTables.{numbers_in, meanings_in, elsewhere_in, formals_in};
ghost use Rattle.mh_rules.specs.Limits.{max_tokens};

use crate::aliases::Aliases;
use crate::formals::Formals;
use crate::kinds::NameKind;
use crate::name_list::NameList;
use crate::numbering::Numbering;
use mh_grammar::{Level, Name, Token};
use mh_rules::{Head, Ref};
use std::collections::HashMap;

/// The first cost given to each token that has one, from 1 to 1,000.
pub type Costs = HashMap<Name, u32>;

/// The kind of each name at its first definition.
pub type NameKinds = HashMap<Name, NameKind>;

/// The first level given to each name that has one.
pub type Levels = HashMap<Name, Level>;

/// The files that define a rule of some name: only the file of this number, or several.
#[derive(Clone, Copy)]
pub enum DefiningFiles {
    One(u64),
    Several,
}

/// The files that define each name.
pub type DefiningFilesOf = HashMap<Name, DefiningFiles>;

/// The meanings of the names of all files, as hash tables. Files are numbered from 1; the prelude is file 0.
pub struct SymbolTables {
    pub tokens: NameList,
    pub starts: NameList,
    pub aliases: Aliases,
    pub levels: Levels,
    pub costs: Costs,
    pub kinds: NameKinds,
    pub definers: DefiningFilesOf,
    pub numbering: Numbering,
}

// The exit of a function drops this value by one call. With the derived destructor it would drop each field.
impl Drop for SymbolTables {
    fn drop(self) {
        let SymbolTables {
            tokens,
            starts,
            aliases,
            levels: _,
            costs,
            kinds,
            definers,
            numbering,
        } = self;
        drop(tokens);
        drop(starts);
        drop(aliases);
        drop(costs);
        drop(kinds);
        drop(definers);
        drop(numbering);
    }
}

impl SymbolTables {
    /// Whether a name or string is defined, in a rule of this file with these formals.
    pub fn defines(&self, file: u64, formals: &Formals, reference: &Ref) -> bool
        ensures { result ≡ is_some (meant_by (meanings_in self.now) file (formals_in formals.now) reference.now) }
    {
        match reference {
            Ref::Plain(name) => self.defines_name(file, formals, name),
            Ref::Alias(alias) => match self.aliases.get(alias) {
                Some(token) => self.is_token(token),
                None => false,
            },
        }
    }

    fn defines_name(&self, file: u64, formals: &Formals, name: &Name) -> bool
        ensures { result ≡ is_some (spec.head_of_name (numbers_in self.now) file (formals_in formals.now) name.now) }
    {
        if formals.contains_key(name) {
            return true;
        }
        if self.is_visible(file, name) {
            return true;
        }
        self.is_rule(Some(0), name)
    }

    fn is_token(&self, name: &Name) -> bool
        ensures { result ≡ is_some (spec.token_head (numbers_in self.now) name.now) }
    {
        self.tokens.place_of(name).is_some()
    }

    fn is_rule(&self, owner: Option<u64>, name: &Name) -> bool
        ensures { result ≡ is_some (spec.rule_head (numbers_in self.now) owner name.now) }
    {
        self.numbering.number_of(owner, name).is_some()
    }

    fn is_user_name(&self, file: u64, name: &Name) -> bool
        ensures { result ≡ is_some (user_head (numbers_in self.now) file name.now) }
    {
        if self.is_token(name) {
            return true;
        }
        if self.is_rule(Some(file), name) {
            return true;
        }
        self.is_rule(None, name)
    }

    /// Whether a name is a token or a rule that this file can use, other than the rules of the prelude.
    fn is_visible(&self, file: u64, name: &Name) -> bool
        ensures { result ≡ is_some (visible_head (numbers_in self.now) file name.now) }
    {
        file != 0 && self.is_user_name(file, name)
    }

    fn rule_head(&self, owner: Option<u64>, name: &Name) -> Option<Head>
        ensures { result ≡ spec.rule_head (numbers_in self.now) owner name.now }
    {
        match self.numbering.number_of(owner, name) {
            Some(number) => Some(Head::Rule(number)),
            None => None,
        }
    }

    fn token_head(&self, name: &Name) -> Option<Head>
        requires { length self.now.tokens.keys ≤ max_tokens }
        ensures { result ≡ spec.token_head (numbers_in self.now) name.now }
    {
        match self.tokens.place_of(name) {
            Some(number) => Some(Head::Token(number as Token)),
            None => None,
        }
    }

    fn user_head(&self, file: u64, name: &Name) -> Option<Head>
        requires { length self.now.tokens.keys ≤ max_tokens }
        ensures { result ≡ user_head (numbers_in self.now) file name.now }
    {
        if let Some(head) = self.token_head(name) {
            return Some(head);
        }
        if let Some(head) = self.rule_head(Some(file), name) {
            return Some(head);
        }
        self.rule_head(None, name)
    }

    fn visible_head(&self, file: u64, name: &Name) -> Option<Head>
        requires { length self.now.tokens.keys ≤ max_tokens }
        ensures { result ≡ visible_head (numbers_in self.now) file name.now }
    {
        if file == 0 {
            None
        } else {
            self.user_head(file, name)
        }
    }

    fn head_of_name(&self, file: u64, formals: &Formals, name: &Name) -> Option<Head>
        requires { length self.now.tokens.keys ≤ max_tokens }
        ensures { result ≡ spec.head_of_name (numbers_in self.now) file (formals_in formals.now) name.now }
    {
        if let Some(number) = formals.get(name) {
            return Some(Head::Formal(*number));
        }
        if let Some(head) = self.visible_head(file, name) {
            return Some(head);
        }
        self.rule_head(Some(0), name)
    }

    /// The meaning of a name or string, in a rule of this file with these formals.
    pub fn head_of(&self, file: u64, formals: &Formals, reference: &Ref) -> Option<Head>
        requires { length self.now.tokens.keys ≤ max_tokens }
        ensures { result ≡ meant_by (meanings_in self.now) file (formals_in formals.now) reference.now }
    {
        match reference {
            Ref::Plain(name) => self.head_of_name(file, formals, name),
            Ref::Alias(alias) => self.token_head(self.aliases.get(alias)?),
        }
    }

    /// Whether a name may follow `%prec`: whether it is a token, or has a level.
    pub fn may_follow_prec(&self, name: &Name) -> bool
        ensures { result ≡ (list_any (same name.now) self.now.tokens.keys || is_some (get same self.now.levels name.now)) }
    {
        self.tokens.contains(name) || self.levels.contains_key(name)
    }

    /// Whether a file other than this one defines this name.
    pub fn is_elsewhere(&self, file: u64, name: &Name) -> bool
        ensures { result ≡ elsewhere_in self.now file name.now }
    {
        match self.definers.get(name) {
            None => false,
            Some(DefiningFiles::One(only)) => *only != file,
            Some(DefiningFiles::Several) => true,
        }
    }
}
