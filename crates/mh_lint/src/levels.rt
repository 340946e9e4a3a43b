//! The names and the `%prec` whose levels are compared.
ghost use Rattle.std.specs.Prelude.{◌≡◌, ◌≤◌, ◌↔◌, [], ℕ, false, true, Some, length, drop, slice_get, unwrap_or, IfOk, IsTrue, OnOk};
ghost use Rattle.std.specs.HashMap.{get};
ghost use Rattle.std.specs.Option.{option_copied};
ghost use Rattle.std.specs.List.{Contains};
ghost use Rattle.std.specs.HashSet.{contains};
ghost use Rattle.mh_grammar.specs.Text.{Text};
ghost use Rattle.mh_join_names.specs.Names as names_spec;
ghost use Rattle.mh_join_names.specs.Names.{same};
ghost use Rattle.mh_lint.specs.declared.sources.LevelSource.{LevelSource as Source};
ghost use Rattle.mh_lint.specs.code.LevelUses.{AddsUses, AreUsedLevels, IsMarkedSource, IsMarkedToken, IsPrecNameOf, IsPrecSource, IsPrecUsed, IsTokenSource, IsUsedPrecName, NoPlace, PutsOwn};
ghost use Rattle.mh_lint.specs.code.Uses.{HasPlace};

use crate::alternatives::AlternativeOf;
use crate::sources::LevelSource;
use mh_grammar::{Memory, Name};
use mh_join_names::{Aliases, SymbolTables, name_by, put_name};
use mh_lint_faults::{ReadFiles, has_key, put_key};
use mh_lint_states::ComparedLevels;
use mh_reader_places::{Mention, Role};
use mh_rules::Ref;
use std::alloc::Global;
use std::collections::HashSet;

/// The names whose levels are compared, and the alternatives whose `%prec` gives a level that is compared.
pub(crate) struct UsedLevels {
    names: HashSet<Name>,
    alternatives: HashSet<AlternativeOf>,
}

// The exit of a function drops this value by one call.
impl Drop for UsedLevels {
    fn drop(self) {
        let UsedLevels {
            names,
            alternatives,
        } = self;
        drop(names);
        drop(alternatives);
    }
}

impl UsedLevels {
    /// Returns no names and no alternatives.
    fn new(alloc: Global) -> UsedLevels
        ensures names { (x : Text) → contains same result.names x ≡ false }
        ensures alternatives { result.alternatives.keys ≡ [] }
    {
        UsedLevels {
            names: HashSet::new(alloc),
            alternatives: HashSet::new(alloc),
        }
    }

    /// Records that the level of this name is compared.
    fn put_name(&mut self, name: &Name) -> Result<(), Memory>
        ensures { OnOk result (AddsUses (λ x. x ≡ name.now) NoPlace self.old self.new) }
    {
        put_name(&mut self.names, name)?;
        Ok(())
    }

    /// Records that the level of this token is compared.
    fn put_token(&mut self, tokens: &[Name], token: usize) -> Result<(), Memory>
        ensures { OnOk result (AddsUses (λ x. slice_get tokens.now token ≡ Some x) NoPlace self.old self.new) }
    {
        match name_of(tokens, token) {
            Some(name) => self.put_name(name),
            None => Ok(()),
        }
    }

    /// Records that the level of a production with this source is compared.
    fn put_source(&mut self, tokens: &[Name], source: LevelSource) -> Result<(), Memory>
        ensures { OnOk result (AddsUses (IsTokenSource tokens.now source) (IsPrecSource source) self.old self.new) }
    {
        match source {
            LevelSource::None => Ok(()),
            LevelSource::Token(token) => self.put_token(tokens, token as usize),
            LevelSource::Prec { file, alternative } => {
                let place = AlternativeOf {
                    file,
                    index: alternative,
                };
                put_key(&mut self.alternatives, place)?;
                Ok(())
            }
        }
    }

    /// Records the tokens whose levels are compared.
    fn put_tokens(&mut self, tokens: &[Name], compared: &[bool]) -> Result<(), Memory>
        ensures { OnOk result (AddsUses (IsMarkedToken tokens.now compared.now) NoPlace self.old self.new) }
    {
        for (token, is_compared) in compared.iter().enumerate() {
            if *is_compared {
                self.put_token(tokens, token)?;
            }
        }
        Ok(())
    }

    /// Records the sources of the productions whose levels are compared; `compared` is for the ordinary productions.
    fn put_sources(
        &mut self,
        tokens: &[Name],
        sources: &[LevelSource],
        compared: &[bool],
    ) -> Result<(), Memory>
        ensures { OnOk result (AddsUses (λ x. (s : Source) × IsMarkedSource sources.now compared.now s × IsTokenSource tokens.now s x) (λ file n. (s : Source) × IsMarkedSource sources.now compared.now s × IsPrecSource s file n) self.old self.new) }
    {
        for (production, source) in sources.iter().enumerate() {
            if is_set(compared, production) {
                self.put_source(tokens, *source)?;
            }
        }
        Ok(())
    }

    /// Whether the `%prec` at a mention of a file gives a level that is compared. `own` are the alternatives of the
    /// file that have a `%prec` of their own before the mention.
    pub(crate) fn has_prec(&self, file: u64, own: &HashSet<u64>, role: Role) -> bool
        ensures { IsTrue result ↔ IsPrecUsed self.now.alternatives.keys file own.now.keys role }
    {
        match role {
            Role::Prec { alternative } => self.has_alternative(file, alternative),
            Role::GroupPrec { first, last } => self.has_group(file, own, first, last),
            _ => false,
        }
    }

    fn has_alternative(&self, file: u64, alternative: u64) -> bool
        ensures { IsTrue result ↔ HasPlace self.now.alternatives.keys file alternative }
    {
        let place = AlternativeOf {
            file,
            index: alternative,
        };
        has_key(&self.alternatives, &place)
    }

    /// Whether the alternative has no `%prec` of its own, and the `%prec` of its group gives it a level that is
    /// compared.
    fn has_member(&self, file: u64, own: &HashSet<u64>, alternative: u64) -> bool
        ensures { IsTrue result ↔ ((Contains own.now.keys alternative → ⊥) × HasPlace self.now.alternatives.keys file alternative) }
    {
        !has_key(own, &alternative) && self.has_alternative(file, alternative)
    }

    fn has_group(&self, file: u64, own: &HashSet<u64>, first: u64, last: u64) -> bool
        ensures { IsTrue result ↔ ((n : ℕ) × (first ≤ n) × (n ≤ last) × (Contains own.now.keys n → ⊥) × HasPlace self.now.alternatives.keys file n) }
    {
        if last < first {
            return false;
        }
        for alternative in first..last {
            if self.has_member(file, own, alternative) {
                return true;
            }
        }
        self.has_member(file, own, last)
    }

    /// Whether the level of a name is compared.
    pub(crate) fn has_name(&self, name: &Name) -> bool
        ensures { result ≡ contains same self.now.names name.now }
    {
        !self.names.is_empty() && self.names.contains(name)
    }

    /// Records that the level of the name that a reference means is compared.
    fn put_reference(&mut self, aliases: &Aliases, reference: &Ref) -> Result<(), Memory>
        ensures { OnOk result (AddsUses (λ x. names_spec.name_by (λ a. get same aliases.now a) reference.now ≡ Some x) NoPlace self.old self.new) }
    {
        match name_by(aliases, reference) {
            Some(name) => self.put_name(name),
            None => Ok(()),
        }
    }

    /// Records the name of a mention, if the mention is a `%prec` that gives a level that is compared.
    fn put_prec(
        &mut self,
        aliases: &Aliases,
        file: u64,
        own: &HashSet<u64>,
        mention: &Mention,
    ) -> Result<(), Memory>
        ensures { OnOk result (AddsUses (λ x. IsPrecUsed self.old.alternatives.keys file own.now.keys mention.now.role × (names_spec.name_by (λ a. get same aliases.now a) mention.now.name ≡ Some x)) NoPlace self.old self.new) }
    {
        if !self.has_prec(file, own, mention.role) {
            return Ok(());
        }
        self.put_reference(aliases, &mention.name)
    }

    /// Records the names of the `%prec` of a file that give levels that are compared.
    fn put_precs(
        &mut self,
        alloc: Global,
        aliases: &Aliases,
        file: u64,
        mentions: &[Mention],
    ) -> Result<(), Memory>
        ensures { OnOk result (AddsUses (IsUsedPrecName (λ a. get same aliases.now a) self.old.alternatives.keys file mentions.now) NoPlace self.old self.new) }
    {
        let mut own = HashSet::new(alloc);
        for mention in mentions {
            self.put_prec(aliases, file, &own, mention)?;
            put_own(&mut own, mention.role)?;
        }
        Ok(())
    }

    /// Records the names of the `%prec` of all files that give levels that are compared.
    fn put_files(
        &mut self,
        alloc: Global,
        aliases: &Aliases,
        read: &ReadFiles,
    ) -> Result<(), Memory>
        ensures { OnOk result (AddsUses (λ x. (at : ℕ) × IsPrecNameOf (λ a. get same aliases.now a) read.now self.old.alternatives.keys at x) NoPlace self.old self.new) }
    {
        if self.alternatives.is_empty() {
            return Ok(());
        }
        for (at, mentions) in read.mentions.iter().enumerate() {
            self.put_precs(alloc, aliases, at as u64 + 1, mentions.as_slice())?;
        }
        Ok(())
    }
}

/// Records an alternative that has a `%prec` of its own.
pub(crate) fn put_own(own: &mut HashSet<u64>, role: Role) -> Result<(), Memory>
    ensures { OnOk result (PutsOwn role own.old.keys own.new.keys) }
{
    match role {
        Role::Prec { alternative } => {
            put_key(own, alternative)?;
            Ok(())
        }
        _ => Ok(()),
    }
}

/// Returns true if there is a flag with this number, and the flag is set.
fn is_set(flags: &[bool], number: usize) -> bool
    ensures { result ≡ unwrap_or (slice_get flags.now number) false }
{
    flags.get(number).copied().unwrap_or(false)
}

/// The name of this token, if there is this token.
fn name_of(tokens: &[Name], token: usize) -> Option<&Name>
    ensures { option_copied result ≡ slice_get tokens.now token }
{
    tokens.get(token)
}

/// The flags from this number on.
fn flags_from(flags: &[bool], number: usize) -> &[bool]
    requires { number ≤ length flags.now }
    ensures { result.now ≡ drop number flags.now }
{
    &flags[number..]
}

/// The names and the `%prec` whose levels are compared. `compared` has the tokens, and all productions, of which the
/// first `starts` are start productions.
pub(crate) fn used_levels(
    alloc: Global,
    names: &SymbolTables,
    read: &ReadFiles,
    sources: &[LevelSource],
    compared: &ComparedLevels,
    starts: usize,
) -> Result<UsedLevels, Memory>
    requires { starts ≤ length compared.now.productions.items }
    ensures { IfOk result (AreUsedLevels names.now.tokens.keys (λ a. get same names.now.aliases a) read.now sources.now compared.now.tokens.items (drop starts compared.now.productions.items)) }
{
    let mut used = UsedLevels::new(alloc);
    let tokens = names.tokens.as_slice();
    used.put_tokens(tokens, compared.tokens.as_slice())?;
    let productions = flags_from(compared.productions.as_slice(), starts);
    used.put_sources(tokens, sources, productions)?;
    used.put_files(alloc, &names.aliases, read)?;
    Ok(used)
}
