//! Builds the parts of the joined files.
ghost use Rattle.std.specs.Prelude.{◌≡◌, ◌++◌, ◌∷◌, ◌≤◌, ◌<◌, ◌+◌, ◌^◌, [], None, false, length, map, option_and_then, unwrap_or, IfOk, OnOk};
ghost use Rattle.std.specs.List.{flat_map, enumerate_from};
ghost use Rattle.mh_join_names.specs.Names as names_spec;
ghost use Rattle.std.specs.HashSet.{contains};
ghost use Rattle.mh_grammar.specs.Text.{Text};
ghost use Rattle.mh_join_names.specs.Names.{same, marks_public, files, formal_number, definitions_from, definitions_in};
ghost use Rattle.mh_join_names.specs.Faults.{meant_by, undefined_in_actual, undefined_in_on_error, undefined_start};
ghost use Rattle.mh_join_names.specs.Joining.{resolved, all_resolved, prec_by, alternative_by, token_info, on_error_in, rule_of_outline, AreRules};
ghost use Rattle.mh_join_names.specs.code.SymbolTables.{meanings_in, elsewhere_in, formals_in};
ghost use Rattle.mh_join_parts.specs.code.CanJoin.{unresolved, unresolved_in_rule, unresolved_in_rules, unresolved_in_file, unresolved_on_error, definitions_by, AddsAlternatives};
ghost use Rattle.mh_rules.specs.Limits.{max_tokens};

use crate::printing::printed;
use mh_grammar::{Level, Memory, Name, Sequence, TokenInfo, lost};
use mh_join_names::{Formals, SymbolTables, formals_of, marked_public, name_by, owner_in};
use mh_rules::{
    Actual, Alternative, Applied, JoinedAlternative, JoinedRule, Module, Prec, Ref, Rule,
};
use std::alloc::Global;
use std::collections::HashSet;
use std::mem;

/// The place of a reference: the file and the formals that determine its meaning.
#[derive(Clone, Copy)]
struct Scope<'a> {
    names: &'a SymbolTables,
    file: u64,
    formals: &'a Formals,
}

/// A definition of a rule in a file; `place` is the position of its first alternative among all alternatives of the
/// file.
#[derive(Clone, Copy)]
struct Definition<'a> {
    file: u64,
    owner: Option<u64>,
    place: u64,
    rule: &'a Rule,
}

/// An empty list with memory for this number of actuals.
fn room_for(alloc: Global, count: usize) -> Result<Sequence<Applied>, Memory>
    ensures { IfOk result (λ room. room ≡ []) }
{
    Ok(Sequence::from_vec(Vec::with_capacity(alloc, count)?))
}

/// The actual with its names resolved.
#[cycle(actuals)]
fn joined_actual(alloc: Global, scope: &Scope<'_>, actual: &Actual) -> Result<Applied, Memory>
    requires few { length scope.now.names.now.tokens.keys ≤ max_tokens }
    requires resolved { undefined_in_actual false
        (meant_by (meanings_in scope.now.names.now) scope.now.file (formals_in scope.now.formals.now)) actual.now
        ≡ [] }
    ensures { IfOk result (λ a.
        Some a
        ≡ resolved (meant_by (meanings_in scope.now.names.now) scope.now.file (formals_in scope.now.formals.now)) actual.now) }
{
    let head = scope
        .names
        .head_of(scope.file, scope.formals, &actual.head)
        .unwrap();
    let args = joined_actuals(alloc, scope, actual.args.as_slice())?;
    Ok(Applied { head, args })
}

#[cycle(actuals)]
fn joined_actuals(
    alloc: Global,
    scope: &Scope<'_>,
    actuals: &[Actual],
) -> Result<Sequence<Applied>, Memory>
    requires few { length scope.now.names.now.tokens.keys ≤ max_tokens }
    requires resolved { flat_map
        (undefined_in_actual false (meant_by (meanings_in scope.now.names.now) scope.now.file (formals_in scope.now.formals.now)))
        actuals.now
        ≡ [] }
    ensures { IfOk result (λ ks. map Some ks
        ≡ map (resolved (meant_by (meanings_in scope.now.names.now) scope.now.file (formals_in scope.now.formals.now))) actuals.now) }
{
    let mut joined = room_for(alloc, actuals.len())?;
    for actual in actuals {
        joined.push(joined_actual(alloc, scope, actual)?)?;
    }
    Ok(joined)
}

/// The level of a name or string.
fn level_of(names: &SymbolTables, reference: &Ref) -> Option<Level>
    ensures { result
        ≡ option_and_then (meanings_in names.now).level
        (names_spec.name_by (meanings_in names.now).aliased reference.now) }
{
    names
        .levels
        .get(name_by(&names.aliases, reference)?)
        .copied()
}

/// The precedence that a `%prec` gives.
fn joined_prec(names: &SymbolTables, prec: &Option<Ref>) -> Prec
    ensures { result ≡ prec_by (meanings_in names.now).aliased (meanings_in names.now).level prec.now }
{
    match prec {
        None => Prec::Absent,
        Some(reference) => Prec::Given(level_of(names, reference)),
    }
}

/// The first cost that a token is given, or 1.
fn cost_of(names: &SymbolTables, name: &Name) -> u32
    ensures { result ≡ unwrap_or ((meanings_in names.now).cost name.now) 1 }
{
    match names.costs.get(name) {
        Some(cost) => *cost,
        None => 1,
    }
}

/// Appends the tokens.
pub(crate) fn put_tokens(
    names: &SymbolTables,
    tokens: &mut Sequence<TokenInfo>,
) -> Result<(), Memory>
    requires { tokens.old ≡ [] }
    ensures { OnOk result (tokens.new ≡ map (token_info (meanings_in names.now)) (meanings_in names.now).tokens) }
{
    for name in names.tokens.as_slice() {
        tokens.push(TokenInfo {
            name: name.clone()?,
            level: names.levels.get(name).copied(),
            cost: cost_of(names, name),
        })?;
    }
    Ok(())
}

fn start_number(names: &SymbolTables, name: &Name) -> u64
    requires { undefined_start (meanings_in names.now) name.now ≡ [] }
    ensures { Some result ≡ (meanings_in names.now).numbers.rule None name.now }
{
    names.numbering.public.get(name).copied().unwrap()
}

/// Appends the numbers of the start symbols.
pub(crate) fn put_starts(names: &SymbolTables, starts: &mut Sequence<u64>) -> Result<(), Memory>
    requires empty { starts.old ≡ [] }
    requires resolved { flat_map (undefined_start (meanings_in names.now)) (meanings_in names.now).starts ≡ [] }
    ensures { OnOk result
        (map Some starts.new
        ≡ map ((meanings_in names.now).numbers.rule None) (meanings_in names.now).starts) }
{
    for name in names.starts.as_slice() {
        starts.push(start_number(names, name))?;
    }
    Ok(())
}

fn add_on_error(
    alloc: Global,
    scope: &Scope<'_>,
    declared: &[Sequence<Actual>],
    joined: &mut Sequence<Sequence<Applied>>,
) -> Result<(), Memory>
    requires few { length scope.now.names.now.tokens.keys ≤ max_tokens }
    requires resolved { flat_map
        (undefined_in_on_error (meant_by (meanings_in scope.now.names.now) scope.now.file (formals_in scope.now.formals.now)))
        declared.now
        ≡ [] }
    ensures { OnOk result (map Some joined.new
        ≡ map Some joined.old
        ++ map (all_resolved (meant_by (meanings_in scope.now.names.now) scope.now.file (formals_in scope.now.formals.now))) declared.now) }
{
    for actuals in declared {
        joined.push(joined_actuals(alloc, scope, actuals.as_slice())?)?;
    }
    Ok(())
}

/// Appends the on-error declarations of all files, with an empty map of formals.
fn put_all_on_error(
    alloc: Global,
    names: &SymbolTables,
    none: &Formals,
    modules: &[Module],
    joined: &mut Sequence<Sequence<Applied>>,
) -> Result<(), Memory>
    requires few { length names.now.tokens.keys ≤ max_tokens }
    requires none { (x : Text) → formals_in none.now x ≡ formal_number [] x }
    requires empty { joined.old ≡ [] }
    requires resolved { flat_map (unresolved_on_error (meanings_in names.now)) (files modules.now) ≡ [] }
    ensures { OnOk result
        (map Some joined.new ≡ flat_map (on_error_in (meanings_in names.now)) (files modules.now)) }
{
    for (at, file) in modules.iter().enumerate() {
        let declared = file.on_error.as_slice();
        let scope = Scope {
            names,
            file: at as u64 + 1,
            formals: none,
        };
        add_on_error(alloc, &scope, declared, joined)?;
    }
    Ok(())
}

/// Appends the on-error declarations of all files.
pub(crate) fn put_on_error(
    alloc: Global,
    names: &SymbolTables,
    modules: &[Module],
    joined: &mut Sequence<Sequence<Applied>>,
) -> Result<(), Memory>
    requires few { length names.now.tokens.keys ≤ max_tokens }
    requires empty { joined.old ≡ [] }
    requires resolved { flat_map (unresolved_on_error (meanings_in names.now)) (files modules.now) ≡ [] }
    ensures { OnOk result
        (map Some joined.new ≡ flat_map (on_error_in (meanings_in names.now)) (files modules.now)) }
{
    let none = formals_of(alloc, &[])?;
    let added = put_all_on_error(alloc, names, &none, modules, joined);
    drop(none);
    added
}

fn joined_alternative(
    alloc: Global,
    scope: &Scope<'_>,
    place: u64,
    alternative: &Alternative,
) -> Result<JoinedAlternative, Memory>
    requires few { length scope.now.names.now.tokens.keys ≤ max_tokens }
    requires resolved { unresolved (meant_by (meanings_in scope.now.names.now) scope.now.file (formals_in scope.now.formals.now)) alternative.now ≡ [] }
    ensures { IfOk result (λ a. Some a
        ≡ alternative_by (meanings_in scope.now.names.now) scope.now.file
        (meant_by (meanings_in scope.now.names.now) scope.now.file (formals_in scope.now.formals.now)) (place, alternative.now)) }
{
    Ok(JoinedAlternative {
        file: scope.file,
        place,
        producers: joined_actuals(alloc, scope, alternative.producers.as_slice())?,
        prec: joined_prec(scope.names, &alternative.prec),
    })
}

fn add_alternatives(
    alloc: Global,
    scope: &Scope<'_>,
    place: u64,
    alternatives: &[Alternative],
    joined: &mut Sequence<JoinedAlternative>,
) -> Result<(), Memory>
    requires few { length scope.now.names.now.tokens.keys ≤ max_tokens }
    requires fits { place + length alternatives.now < 2 ^ 64 }
    requires resolved { flat_map
        (unresolved (meant_by (meanings_in scope.now.names.now) scope.now.file (formals_in scope.now.formals.now))) alternatives.now
        ≡ [] }
    ensures { OnOk result (map Some joined.new
        ≡ map Some joined.old
        ++ map
        (alternative_by (meanings_in scope.now.names.now) scope.now.file
        (meant_by (meanings_in scope.now.names.now) scope.now.file (formals_in scope.now.formals.now)))
        (enumerate_from place alternatives.now)) }
{
    for (at, alternative) in alternatives.iter().enumerate() {
        let place = place + at as u64;
        joined.push(joined_alternative(alloc, scope, place, alternative)?)?;
    }
    Ok(())
}

/// Gives a list without items the memory for just this number of items.
fn make_room<T: Drop>(alloc: Global, list: &mut Sequence<T>, count: usize) -> Result<(), Memory>
    ensures { list.new ≡ list.old }
{
    if list.is_empty() {
        let room = Vec::with_capacity(alloc, count)?;
        drop(mem::replace(list, Sequence::from_vec(room)));
    }
    Ok(())
}

/// Appends the alternatives of a definition to the list of its rule's alternatives.
fn add_definition(
    alloc: Global,
    names: &SymbolTables,
    definition: &Definition<'_>,
    joined: &mut Sequence<JoinedAlternative>,
) -> Result<(), Memory>
    requires few { length names.now.tokens.keys ≤ max_tokens }
    requires fits { definition.now.place + length definition.now.rule.now.alternatives < 2 ^ 64 }
    requires resolved { unresolved_in_rule (meanings_in names.now) definition.now.file definition.now.rule.now ≡ [] }
    ensures { OnOk result (map Some joined.new
        ≡ map Some joined.old
        ++ map
        (alternative_by (meanings_in names.now) definition.now.file
        (meant_by (meanings_in names.now) definition.now.file (formal_number definition.now.rule.now.formals)))
        (enumerate_from definition.now.place definition.now.rule.now.alternatives)) }
{
    make_room(alloc, joined, definition.rule.alternatives.len())?;
    let formals = formals_of(alloc, definition.rule.formals.as_slice())?;
    let scope = Scope {
        names,
        file: definition.file,
        formals: &formals,
    };
    let alternatives = definition.rule.alternatives.as_slice();
    let added = add_alternatives(alloc, &scope, definition.place, alternatives, joined);
    drop(formals);
    added
}

/// Appends the alternatives of a definition to its rule in the list of joined rules.
fn add_rule(
    alloc: Global,
    names: &SymbolTables,
    definition: &Definition<'_>,
    joined: &mut [JoinedRule],
) -> Result<(), Memory>
    requires few { length names.now.tokens.keys ≤ max_tokens }
    requires fits { definition.now.place + length definition.now.rule.now.alternatives < 2 ^ 64 }
    requires resolved { unresolved_in_rule (meanings_in names.now) definition.now.file definition.now.rule.now ≡ [] }
    ensures { OnOk result (AddsAlternatives (meanings_in names.now)
        (record { file = definition.now.file; owner = definition.now.owner; place = definition.now.place; rule = definition.now.rule.now } ∷ []) joined.old
        joined.new) }
{
    // In joined files each definition has a number, and its rule has this number in the list. `AddsAlternatives` holds
    // even without this fact, because it only speaks of the rules in the list.
    if let Some(number) = names
        .numbering
        .number_of(definition.owner, &definition.rule.name)
    {
        if (number as usize) < joined.len() {
            let target = &mut joined[number as usize].alternatives;
            add_definition(alloc, names, definition, target)?;
        }
    }
    Ok(())
}

/// The position after the alternatives of a rule. It fits into 64 bits for every file that fits into memory.
fn place_after(place: u64, rule: &Rule) -> Result<u64, Memory>
    ensures next { IfOk result (λ n. n ≡ place + length rule.now.alternatives) }
    ensures fits { IfOk result (λ n. n < 2 ^ 64) }
{
    match place.checked_add(rule.alternatives.len() as u64) {
        Some(next) => Ok(next),
        None => Err(Memory),
    }
}

/// Appends the alternatives of a file to those of their rules, where `marked` are the names that the file marks
/// `%public`.
fn add_rules(
    alloc: Global,
    names: &SymbolTables,
    file: u64,
    marked: &HashSet<Name>,
    rules: &[Rule],
    joined: &mut [JoinedRule],
) -> Result<(), Memory>
    requires few { length names.now.tokens.keys ≤ max_tokens }
    requires marked { (x : Text) → contains same marked.now x ≡ marks_public rules.now x }
    requires resolved { unresolved_in_rules (meanings_in names.now) file rules.now ≡ [] }
    ensures { OnOk result (AddsAlternatives (meanings_in names.now)
        (definitions_from (names_spec.owner_in names.now.starts.keys file rules.now) file 0
        rules.now)
        joined.old joined.new) }
{
    let mut place = 0u64;
    for rule in rules {
        let next = place_after(place, rule)?;
        let owner = owner_in(&names.starts, marked, file, &rule.name);
        let definition = Definition {
            file,
            owner,
            place,
            rule,
        };
        add_rule(alloc, names, &definition, joined)?;
        place = next;
    }
    Ok(())
}

/// Appends the alternatives of a file to those of their rules.
fn add_file(
    alloc: Global,
    names: &SymbolTables,
    file: u64,
    rules: &[Rule],
    joined: &mut [JoinedRule],
) -> Result<(), Memory>
    requires few { length names.now.tokens.keys ≤ max_tokens }
    requires resolved { unresolved_in_rules (meanings_in names.now) file rules.now ≡ [] }
    ensures { OnOk result (AddsAlternatives (meanings_in names.now)
        (definitions_from (names_spec.owner_in names.now.starts.keys file rules.now) file 0
        rules.now)
        joined.old joined.new) }
{
    let marked = marked_public(alloc, rules)?;
    let added = add_rules(alloc, names, file, &marked, rules, joined);
    drop(marked);
    added
}

/// Appends the alternatives of the prelude to those of their rules.
fn add_prelude(
    alloc: Global,
    names: &SymbolTables,
    rules: &[Rule],
    joined: &mut [JoinedRule],
) -> Result<(), Memory>
    requires few { length names.now.tokens.keys ≤ max_tokens }
    requires resolved { unresolved_in_rules (meanings_in names.now) 0 rules.now ≡ [] }
    ensures { OnOk result
        (AddsAlternatives (meanings_in names.now) (names_spec.prelude_definitions rules.now) joined.old joined.new) }
{
    let mut place = 0u64;
    for rule in rules {
        let next = place_after(place, rule)?;
        let definition = Definition {
            file: 0,
            owner: Some(0),
            place,
            rule,
        };
        add_rule(alloc, names, &definition, joined)?;
        place = next;
    }
    Ok(())
}

/// Appends the rules without their alternatives.
fn put_outlines(
    alloc: Global,
    names: &SymbolTables,
    rules: &mut Vec<JoinedRule>,
) -> Result<(), Memory>
    requires { rules.old.items ≡ [] }
    ensures { OnOk result
        (rules.new.items ≡ map (rule_of_outline (elsewhere_in names.now)) names.now.numbering.rules.items) }
{
    for outline in names.numbering.rules.iter() {
        rules.push(JoinedRule {
            name: printed(alloc, names, outline)?,
            inlined: outline.inlined,
            formals: outline.formals,
            alternatives: Sequence::new(alloc),
        })?;
    }
    Ok(())
}

/// The rules without their alternatives.
fn rules_without(alloc: Global, names: &SymbolTables) -> Result<Vec<JoinedRule>, Memory>
    ensures { IfOk result (λ rules.
        rules.items ≡ map (rule_of_outline (elsewhere_in names.now)) names.now.numbering.rules.items) }
{
    let mut rules = Vec::new(alloc);
    match put_outlines(alloc, names, &mut rules) {
        Ok(()) => Ok(rules),
        Err(_) => Err(lost(rules)),
    }
}

fn add_files(
    alloc: Global,
    names: &SymbolTables,
    modules: &[Module],
    joined: &mut [JoinedRule],
) -> Result<(), Memory>
    requires few { length names.now.tokens.keys ≤ max_tokens }
    requires resolved { flat_map (unresolved_in_file (meanings_in names.now)) (files modules.now) ≡ [] }
    ensures { OnOk result (AddsAlternatives (meanings_in names.now)
        (flat_map (definitions_in names.now.starts.keys) (files modules.now)) joined.old joined.new) }
{
    for (at, file) in modules.iter().enumerate() {
        add_file(alloc, names, at as u64 + 1, file.rules.as_slice(), joined)?;
    }
    Ok(())
}

/// Appends the alternatives of the files in order, and then those of the prelude.
fn add_all(
    alloc: Global,
    names: &SymbolTables,
    modules: &[Module],
    from_prelude: &[Rule],
    joined: &mut [JoinedRule],
) -> Result<(), Memory>
    requires few { length names.now.tokens.keys ≤ max_tokens }
    requires resolved { flat_map (unresolved_in_file (meanings_in names.now)) (files modules.now) ≡ [] }
    requires prelude_resolved { unresolved_in_rules (meanings_in names.now) 0 from_prelude.now ≡ [] }
    ensures { OnOk result
        (AddsAlternatives (meanings_in names.now) (definitions_by names.now modules.now from_prelude.now) joined.old
        joined.new) }
{
    add_files(alloc, names, modules, joined)?;
    add_prelude(alloc, names, from_prelude, joined)?;
    Ok(())
}

/// The joined rules: those of the files in order, and then those of the prelude.
pub(crate) fn joined_rules(
    alloc: Global,
    names: &SymbolTables,
    modules: &[Module],
    from_prelude: &[Rule],
) -> Result<Sequence<JoinedRule>, Memory>
    requires few { length names.now.tokens.keys ≤ max_tokens }
    requires resolved { flat_map (unresolved_in_file (meanings_in names.now)) (files modules.now) ≡ [] }
    requires prelude_resolved { unresolved_in_rules (meanings_in names.now) 0 from_prelude.now ≡ [] }
    ensures { IfOk result
        (AreRules (meanings_in names.now) (elsewhere_in names.now) names.now.numbering.rules.items
        (definitions_by names.now modules.now from_prelude.now)) }
{
    let mut rules = rules_without(alloc, names)?;
    match add_all(alloc, names, modules, from_prelude, rules.as_mut_slice()) {
        Ok(()) => Ok(Sequence::from_vec(rules)),
        Err(_) => Err(lost(rules)),
    }
}
