//! The search for names and strings with two meanings.
ghost use Rattle.std.specs.Prelude.{◌≡◌, []};
ghost use Rattle.std.specs.List.{flat_map, enumerate_from};
ghost use Rattle.mh_join_names.specs.Names.{files};
ghost use Rattle.mh_join_names.specs.Names as names_spec;
ghost use Rattle.mh_join_names.specs.Faults as spec;
ghost use Rattle.mh_join_names.specs.Faults.{ReportsFirst, unless, name_duplicates, rule_duplicates, other_kind, kinds_in_file, other_token, aliases_in_file, repeats, own_names, own_in_file, formals_in_file, other_shape, shapes_in_file, other_level, levels_in_declaration, levels_in_file};
ghost use Rattle.mh_join_names.specs.code.SymbolTables.{meanings_in, is_public_in};
ghost use Rattle.mh_join_faults.specs.code.UniqueNames.{InsertsUnique, InsertsPrivate};

use crate::agreement::{same_level, same_shape};
use mh_grammar::{Level, Name};
use mh_join_names::{
    JoinFault, NameKind, SymbolTables, is_public, marked_public, name_by, put_name,
};
use mh_rules::{LevelDecl, Module, Ref, Rule, TokenDecl};
use std::alloc::Global;
use std::collections::HashSet;

/// Reports a name as a duplicate, unless it agrees with its first occurrence.
fn require_one(agrees: bool, name: &Name) -> Result<(), JoinFault>
    ensures { ReportsFirst (unless agrees (JoinFault.Duplicate name.now)) result }
{
    if agrees {
        return Ok(());
    }
    match name.clone() {
        Ok(name) => Err(JoinFault::Duplicate { name }),
        Err(_) => Err(JoinFault::Memory),
    }
}

fn check_kind(names: &SymbolTables, kind: NameKind, name: &Name) -> Result<(), JoinFault>
    ensures { ReportsFirst (other_kind (meanings_in names.now) kind name.now) result }
{
    let agrees = match names.kinds.get(name) {
        Some(first) => *first == kind,
        None => true,
    };
    require_one(agrees, name)
}

fn check_token_kinds(names: &SymbolTables, tokens: &[TokenDecl]) -> Result<(), JoinFault>
    ensures { ReportsFirst (flat_map (λ t. other_kind (meanings_in names.now) NameKind.Token t.name) tokens.now) result }
{
    for token in tokens {
        if let Err(fault) = check_kind(names, NameKind::Token, &token.name) {
            return Err(fault);
        }
    }
    Ok(())
}

fn check_rule_kinds(names: &SymbolTables, rules: &[Rule]) -> Result<(), JoinFault>
    ensures { ReportsFirst (flat_map (λ r. other_kind (meanings_in names.now) NameKind.Rule r.name) rules.now) result }
{
    for rule in rules {
        if let Err(fault) = check_kind(names, NameKind::Rule, &rule.name) {
            return Err(fault);
        }
    }
    Ok(())
}

/// Checks that no name in a file is both a token and a rule.
fn check_kinds(names: &SymbolTables, file: &Module) -> Result<(), JoinFault>
    ensures { ReportsFirst (kinds_in_file (meanings_in names.now) file.now) result }
{
    match check_token_kinds(names, file.tokens.as_slice()) {
        Ok(()) => check_rule_kinds(names, file.rules.as_slice()),
        Err(fault) => Err(fault),
    }
}

fn check_alias(names: &SymbolTables, token: &TokenDecl) -> Result<(), JoinFault>
    ensures { ReportsFirst (other_token (meanings_in names.now) token.now.name token.now.alias) result }
{
    let Some(alias) = &token.alias else {
        return Ok(());
    };
    let agrees = match names.aliases.get(alias) {
        Some(first) => *first == token.name,
        None => true,
    };
    require_one(agrees, alias)
}

/// Checks that no alias in a file has two tokens.
fn check_aliases(names: &SymbolTables, file: &Module) -> Result<(), JoinFault>
    ensures { ReportsFirst (aliases_in_file (meanings_in names.now) file.now) result }
{
    for token in file.tokens.as_slice() {
        if let Err(fault) = check_alias(names, token) {
            return Err(fault);
        }
    }
    Ok(())
}

/// Inserts a name into the set of the names seen, or reports a duplicate if the set has it.
fn put_once(seen: &mut HashSet<Name>, name: &Name) -> Result<(), JoinFault>
    ensures { InsertsUnique seen.old name.now seen.new result }
{
    match put_name(seen, name) {
        Ok(is_new) => require_one(is_new, name),
        Err(_) => Err(JoinFault::Memory),
    }
}

/// Checks that no name occurs twice in a list.
fn check_names(alloc: Global, names: &[Name]) -> Result<(), JoinFault>
    ensures { ReportsFirst (repeats [] names.now) result }
{
    let mut seen = HashSet::new(alloc);
    for name in names {
        if let Err(fault) = put_once(&mut seen, name) {
            return Err(fault);
        }
    }
    Ok(())
}

/// Checks that no two private rules of a file have the same name.
fn check_own(alloc: Global, names: &SymbolTables, file: &Module) -> Result<(), JoinFault>
    ensures { ReportsFirst (own_in_file (meanings_in names.now) file.now) result }
{
    match marked_public(alloc, file.rules.as_slice()) {
        Ok(marked) => check_own_rules(alloc, names, &marked, file.rules.as_slice()),
        Err(_) => Err(JoinFault::Memory),
    }
}

fn check_own_rules(
    alloc: Global,
    names: &SymbolTables,
    marked: &HashSet<Name>,
    rules: &[Rule],
) -> Result<(), JoinFault>
    ensures { ReportsFirst (repeats [] (own_names (is_public_in names.now marked.now) rules.now)) result }
{
    let mut seen = HashSet::new(alloc);
    for rule in rules {
        if let Err(fault) = put_own(names, marked, &mut seen, rule) {
            return Err(fault);
        }
    }
    Ok(())
}

/// Inserts the name of a private rule into the set of the names seen, or reports a duplicate; a public rule changes
/// nothing.
fn put_own(
    names: &SymbolTables,
    marked: &HashSet<Name>,
    seen: &mut HashSet<Name>,
    rule: &Rule,
) -> Result<(), JoinFault>
    ensures { InsertsPrivate (is_public_in names.now marked.now rule.now.name) seen.old rule.now.name seen.new result }
{
    if is_public(&names.starts, marked, &rule.name) {
        return Ok(());
    }
    put_once(seen, &rule.name)
}

/// Checks that no rule of a file has a formal twice.
fn check_formals(alloc: Global, rules: &[Rule]) -> Result<(), JoinFault>
    ensures { ReportsFirst (flat_map (λ r. repeats [] r.formals) rules.now) result }
{
    for rule in rules {
        if let Err(fault) = check_names(alloc, rule.formals.as_slice()) {
            return Err(fault);
        }
    }
    Ok(())
}

/// Whether a public rule agrees with its first definition.
fn has_first_shape(names: &SymbolTables, rule: &Rule) -> bool
    ensures { result ≡ spec.agrees spec.same_shape ((meanings_in names.now).joined rule.now.name) rule.now }
{
    // The outline at the number of a public rule is that of the rule's first definition. A name without a number has no
    // first definition, so there is nothing to disagree with.
    let Some(number) = names.numbering.public.get(&rule.name) else {
        return true;
    };
    match names.numbering.rules.get(*number as usize) {
        Some(first) => same_shape(first, rule),
        None => true,
    }
}

fn check_shape(names: &SymbolTables, marked: &HashSet<Name>, rule: &Rule) -> Result<(), JoinFault>
    ensures { ReportsFirst (other_shape (meanings_in names.now) (is_public_in names.now marked.now) rule.now) result }
{
    if !is_public(&names.starts, marked, &rule.name) {
        return Ok(());
    }
    require_one(has_first_shape(names, rule), &rule.name)
}

fn check_file_shapes(
    names: &SymbolTables,
    marked: &HashSet<Name>,
    rules: &[Rule],
) -> Result<(), JoinFault>
    ensures { ReportsFirst
        (flat_map (other_shape (meanings_in names.now) (is_public_in names.now marked.now)) rules.now)
        result }
{
    for rule in rules {
        if let Err(fault) = check_shape(names, marked, rule) {
            return Err(fault);
        }
    }
    Ok(())
}

/// Checks that the public rules of a file agree with their first definitions.
fn check_shapes(alloc: Global, names: &SymbolTables, file: &Module) -> Result<(), JoinFault>
    ensures { ReportsFirst (shapes_in_file (meanings_in names.now) file.now) result }
{
    match marked_public(alloc, file.rules.as_slice()) {
        Ok(marked) => check_file_shapes(names, &marked, file.rules.as_slice()),
        Err(_) => Err(JoinFault::Memory),
    }
}

fn check_level(names: &SymbolTables, level: Level, reference: &Ref) -> Result<(), JoinFault>
    ensures { ReportsFirst
        (other_level (meanings_in names.now) level
        (names_spec.name_by (meanings_in names.now).aliased reference.now))
        result }
{
    let Some(name) = name_by(&names.aliases, reference) else {
        return Ok(());
    };
    let agrees = match names.levels.get(name) {
        Some(first) => same_level(first, level),
        None => true,
    };
    require_one(agrees, name)
}

fn check_declaration(
    names: &SymbolTables,
    file: u64,
    rank: u64,
    declared: &LevelDecl,
) -> Result<(), JoinFault>
    ensures { ReportsFirst (levels_in_declaration (meanings_in names.now) file (rank, declared.now)) result }
{
    let assoc = declared.assoc;
    let level = Level { file, rank, assoc };
    for reference in declared.names.as_slice() {
        if let Err(fault) = check_level(names, level, reference) {
            return Err(fault);
        }
    }
    Ok(())
}

/// Checks that no name in the level declarations of a file has another level from an earlier declaration.
fn check_levels(names: &SymbolTables, file: u64, levels: &[LevelDecl]) -> Result<(), JoinFault>
    ensures { ReportsFirst
        (flat_map (levels_in_declaration (meanings_in names.now) file) (enumerate_from 0 levels.now))
        result }
{
    for (rank, declared) in levels.iter().enumerate() {
        if let Err(fault) = check_declaration(names, file, rank as u64, declared) {
            return Err(fault);
        }
    }
    Ok(())
}

fn check_all_kinds(names: &SymbolTables, modules: &[Module]) -> Result<(), JoinFault>
    ensures { ReportsFirst (flat_map (kinds_in_file (meanings_in names.now)) modules.now) result }
{
    for file in modules {
        if let Err(fault) = check_kinds(names, file) {
            return Err(fault);
        }
    }
    Ok(())
}

fn check_all_aliases(names: &SymbolTables, modules: &[Module]) -> Result<(), JoinFault>
    ensures { ReportsFirst (flat_map (aliases_in_file (meanings_in names.now)) modules.now) result }
{
    for file in modules {
        if let Err(fault) = check_aliases(names, file) {
            return Err(fault);
        }
    }
    Ok(())
}

fn check_all_own(alloc: Global, names: &SymbolTables, modules: &[Module]) -> Result<(), JoinFault>
    ensures { ReportsFirst (flat_map (own_in_file (meanings_in names.now)) modules.now) result }
{
    for file in modules {
        if let Err(fault) = check_own(alloc, names, file) {
            return Err(fault);
        }
    }
    Ok(())
}

fn check_all_formals(alloc: Global, modules: &[Module]) -> Result<(), JoinFault>
    ensures { ReportsFirst (flat_map formals_in_file modules.now) result }
{
    for file in modules {
        if let Err(fault) = check_formals(alloc, file.rules.as_slice()) {
            return Err(fault);
        }
    }
    Ok(())
}

fn check_all_shapes(
    alloc: Global,
    names: &SymbolTables,
    modules: &[Module],
) -> Result<(), JoinFault>
    ensures { ReportsFirst (flat_map (shapes_in_file (meanings_in names.now)) modules.now) result }
{
    for file in modules {
        if let Err(fault) = check_shapes(alloc, names, file) {
            return Err(fault);
        }
    }
    Ok(())
}

fn check_all_levels(names: &SymbolTables, modules: &[Module]) -> Result<(), JoinFault>
    ensures { ReportsFirst (flat_map (levels_in_file (meanings_in names.now)) (files modules.now)) result }
{
    for (at, file) in modules.iter().enumerate() {
        if let Err(fault) = check_levels(names, at as u64 + 1, file.levels.as_slice()) {
            return Err(fault);
        }
    }
    Ok(())
}

/// Checks that each name and each alias has only one meaning.
fn check_names_of_all(names: &SymbolTables, modules: &[Module]) -> Result<(), JoinFault>
    ensures { ReportsFirst (name_duplicates (meanings_in names.now) modules.now) result }
{
    match check_all_kinds(names, modules) {
        Ok(()) => check_all_aliases(names, modules),
        Err(fault) => Err(fault),
    }
}

/// Checks that each rule and each formal has only one meaning.
fn check_rules_of_all(
    alloc: Global,
    names: &SymbolTables,
    modules: &[Module],
) -> Result<(), JoinFault>
    ensures { ReportsFirst (rule_duplicates (meanings_in names.now) modules.now) result }
{
    if let Err(fault) = check_all_own(alloc, names, modules) {
        return Err(fault);
    }
    if let Err(fault) = check_all_formals(alloc, modules) {
        return Err(fault);
    }
    check_all_shapes(alloc, names, modules)
}

/// Checks that nothing in the files has two meanings; reports the first duplicate, or that memory ran out.
pub fn check_duplicates(
    alloc: Global,
    names: &SymbolTables,
    modules: &[Module],
) -> Result<(), JoinFault>
    ensures { ReportsFirst (spec.duplicates (meanings_in names.now) modules.now) result }
{
    if let Err(fault) = check_names_of_all(names, modules) {
        return Err(fault);
    }
    if let Err(fault) = check_rules_of_all(alloc, names, modules) {
        return Err(fault);
    }
    check_all_levels(names, modules)
}
