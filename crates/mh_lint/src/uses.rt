//! The tokens that some alternative has, the names after `%prec`, and the rules that have an instance.
ghost use Rattle.std.specs.Prelude.{◌≡◌, ◌↔◌, true, ℕ, List, length, IfOk, IsTrue, OnOk};
ghost use Rattle.std.specs.List.{All, Any, Contains};
ghost use Rattle.std.specs.HashMap.{get};
ghost use Rattle.std.specs.HashSet.{contains};
ghost use Rattle.mh_grammar.specs.Text.{Text};
ghost use Rattle.mh_join_names.specs.Names.{same};
ghost use Rattle.mh_reader_places.specs.declared.reading.PlacedModule.{PlacedModule as Placed};
ghost use Rattle.mh_rules.specs.Ready.{IsJoinedReady};
ghost use Rattle.mh_rules.specs.declared.joined.Head.TheVariants as heads;
ghost use Rattle.mh_lint_states.specs.code.Marks.{AreMarked, Marks};
ghost use Rattle.mh_lint.specs.MentionWarnings as warnings;
ghost use Rattle.mh_lint.specs.Uses.{IsTokenUsed};
ghost use Rattle.mh_lint_faults.specs.Terms.{heads as heads_of};
ghost use Rattle.mh_lint_faults.specs.code.ReadFiles.{IsSplit};
ghost use Rattle.mh_lint.specs.code.Uses.{ArePrecTokens, AreUsedRules, HasPlace, IsPlaceOfInstances, IsTokenBelow, PutsPrecToken, TokensBelow};

use crate::alternatives::AlternativeOf;
use mh_grammar::{Memory, Name};
use mh_join_names::{SymbolTables, name_by, put_name};
use mh_lint_faults::{ReadFiles, has_key, put_key};
use mh_reader_places::{Mention, Role};
use mh_rules::{Applied, Expanded, Head, Joined, JoinedAlternative, JoinedRule};
use std::alloc::Global;
use std::collections::HashSet;

/// Marks the token at the head of an actual, if there is one.
fn mark_head(used: &mut [bool], head: Head)
    requires { IsTokenBelow (length used.old) head }
    ensures { Marks (λ z. head ≡ heads.Token z) used.old used.new }
{
    if let Head::Token(token) = head {
        used[usize::from(token)] = true;
    }
}

/// Marks the tokens of an actual and of its arguments. The recursion is as deep as the actual.
#[cycle(tokens)]
fn mark_actual(used: &mut [bool], actual: &Applied)
    requires { TokensBelow (length used.old) actual.now }
    ensures { Marks (λ z. Contains (heads_of actual.now) (heads.Token z)) used.old used.new }
{
    mark_head(used, actual.head);
    mark_actuals(used, actual.args.as_slice());
}

/// Marks the tokens of actuals.
#[cycle(tokens)]
fn mark_actuals(used: &mut [bool], actuals: &[Applied])
    requires { All (TokensBelow (length used.old)) actuals.now }
    ensures { Marks (λ z. Any (λ a. Contains (heads_of a) (heads.Token z)) actuals.now) used.old used.new }
{
    for actual in actuals {
        mark_actual(used, actual);
    }
}

/// Marks the tokens of alternatives.
fn mark_alternatives(used: &mut [bool], alternatives: &[JoinedAlternative])
    requires { All (λ a. All (TokensBelow (length used.old)) a.producers) alternatives.now }
    ensures { Marks (λ z. Any (λ a. Any (λ p. Contains (heads_of p) (heads.Token z)) a.producers) alternatives.now) used.old used.new }
{
    for alternative in alternatives {
        mark_actuals(used, alternative.producers.as_slice());
    }
}

/// For each token whether some alternative has it, also in rules that nothing reaches.
pub(crate) fn used_tokens(alloc: Global, joined: &Joined) -> Result<Vec<bool>, Memory>
    requires { IsJoinedReady joined.now }
    ensures len { IfOk result (λ used. length used.items ≡ length joined.now.tokens) }
    ensures used { IfOk result (λ used. AreMarked (IsTokenUsed joined.now) used.items) }
{
    let mut used = vec![in alloc; false; joined.tokens.len()]?;
    for rule in joined.rules.as_slice() {
        mark_alternatives(&mut used, rule.alternatives.as_slice());
    }
    Ok(used)
}

/// Returns true for the role of a name after `%prec`.
pub(crate) fn is_prec(role: Role) -> bool
    ensures { result ≡ warnings.is_prec role }
{
    matches!(role, Role::Prec { .. } | Role::GroupPrec { .. })
}

/// Records the name of a mention, if the mention is a token after `%prec`.
fn put_prec_token(
    names: &mut HashSet<Name>,
    tables: &SymbolTables,
    mention: &Mention,
) -> Result<(), Memory>
    ensures { OnOk result (PutsPrecToken tables.now.tokens.keys (λ a. get same tables.now.aliases a) mention.now names.old names.new) }
{
    if is_prec(mention.role) {
        if let Some(name) = name_by(&tables.aliases, &mention.name) {
            if tables.tokens.contains(name) {
                put_name(names, name)?;
            }
        }
    }
    Ok(())
}

/// The tokens after `%prec`, by their names. A string counts as the token with this alias. Names of levels alone are
/// left out, since each alternative of a file can have one of its own.
pub(crate) fn prec_tokens(
    alloc: Global,
    tables: &SymbolTables,
    read: &ReadFiles,
) -> Result<HashSet<Name>, Memory>
    ensures { (found : List Placed) → IsSplit found read.now → IfOk result (λ names. (x : Text) → (contains same names x ≡ true) ↔ ArePrecTokens tables.now.tokens.keys (λ a. get same tables.now.aliases a) found x) }
{
    let mut names = HashSet::new(alloc);
    for mentions in read.mentions.as_slice() {
        for mention in mentions.as_slice() {
            put_prec_token(&mut names, tables, mention)?;
        }
    }
    Ok(names)
}

/// The alternatives from which the productions of instances come.
fn instantiated(alloc: Global, expanded: &Expanded) -> Result<HashSet<AlternativeOf>, Memory>
    ensures { IfOk result (λ found. (file index : ℕ) → HasPlace found.keys file index ↔ IsPlaceOfInstances expanded.now file index) }
{
    let mut found = HashSet::new(alloc);
    for instance in expanded.instances.as_slice() {
        for production in instance.productions.as_slice() {
            let place = AlternativeOf {
                file: production.file,
                index: production.place,
            };
            put_key(&mut found, place)?;
        }
    }
    Ok(found)
}

/// Returns true if a production of some instance comes from an alternative of the rule.
fn has_instance(found: &HashSet<AlternativeOf>, rule: &JoinedRule) -> bool
    ensures { IsTrue result ↔ Any (λ a. HasPlace found.now.keys a.file a.place) rule.now.alternatives }
{
    for alternative in rule.alternatives.as_slice() {
        let place = AlternativeOf {
            file: alternative.file,
            index: alternative.place,
        };
        if has_key(found, &place) {
            return true;
        }
    }
    false
}

/// For each rule whether it has an instance.
pub(crate) fn used_rules(
    alloc: Global,
    joined: &Joined,
    expanded: &Expanded,
) -> Result<Vec<bool>, Memory>
    ensures { IfOk result (λ used. AreUsedRules joined.now expanded.now used.items) }
{
    let found = instantiated(alloc, expanded)?;
    let mut used = Vec::with_capacity(alloc, joined.rules.len())?;
    for rule in joined.rules.as_slice() {
        used.push(has_instance(&found, rule))?;
    }
    Ok(used)
}
