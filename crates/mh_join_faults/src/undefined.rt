//! The search for undefined names and strings.
ghost use Rattle.std.specs.Prelude.{◌≡◌, [], false};
ghost use Rattle.std.specs.List.{flat_map};
ghost use Rattle.mh_rules.specs.Ready.{AreModulesReady};
ghost use Rattle.mh_join_names.specs.Names.{files, formal_number};
ghost use Rattle.mh_join_names.specs.Faults as spec;
ghost use Rattle.mh_join_names.specs.Faults.{ReportsFirst, meant_by, unless, undefined_in_actual, undefined_prec, undefined_in_alternative, undefined_in_rule, undefined_start, undefined_in_level, undefined_in_on_error, undefined_in_declarations, undefined_in_file};
ghost use Rattle.mh_join_names.specs.code.SymbolTables.{meanings_in, formals_in};

use mh_grammar::{Name, Sequence};
use mh_join_names::{Formals, JoinFault, SymbolTables, formals_of};
use mh_rules::{Actual, Alternative, LevelDecl, Module, Ref, Rule};
use std::alloc::Global;

/// Reports a name as undefined, unless the test passes.
fn require_defined(is_defined: bool, name: &Name) -> Result<(), JoinFault>
    ensures { ReportsFirst (unless is_defined (JoinFault.Undefined name.now)) result }
{
    if is_defined {
        return Ok(());
    }
    match name.clone() {
        Ok(name) => Err(JoinFault::Undefined { name }),
        Err(_) => Err(JoinFault::Memory),
    }
}

fn text_of(reference: &Ref) -> &Name
    ensures { result.now ≡ spec.text_of reference.now }
{
    match reference {
        Ref::Plain(text) | Ref::Alias(text) => text,
    }
}

/// Whether the reference is the name `error`.
pub(crate) fn is_error(reference: &Ref) -> bool
    ensures { result ≡ spec.is_error reference.now }
{
    match reference {
        Ref::Plain(name) => b"error".as_slice() == name.as_slice(),
        Ref::Alias(_) => false,
    }
}

fn check_head(
    names: &SymbolTables,
    file: u64,
    formals: &Formals,
    in_body: bool,
    reference: &Ref,
) -> Result<(), JoinFault>
    ensures { ReportsFirst
        (spec.undefined in_body
        (meant_by (meanings_in names.now) file (formals_in formals.now)) reference.now)
        result }
{
    let is_known = in_body && is_error(reference) || names.defines(file, formals, reference);
    require_defined(is_known, text_of(reference))
}

/// Checks the heads in an actual, each before those in its arguments. In the body of a rule the name `error` is not
/// examined.
#[cycle(actuals)]
fn check_actual(
    names: &SymbolTables,
    file: u64,
    formals: &Formals,
    in_body: bool,
    actual: &Actual,
) -> Result<(), JoinFault>
    ensures { ReportsFirst
        (undefined_in_actual in_body
        (meant_by (meanings_in names.now) file (formals_in formals.now)) actual.now)
        result }
{
    match check_head(names, file, formals, in_body, &actual.head) {
        Ok(()) => check_actuals(names, file, formals, in_body, actual.args.as_slice()),
        Err(fault) => Err(fault),
    }
}

#[cycle(actuals)]
fn check_actuals(
    names: &SymbolTables,
    file: u64,
    formals: &Formals,
    in_body: bool,
    actuals: &[Actual],
) -> Result<(), JoinFault>
    ensures { ReportsFirst
        (flat_map
        (undefined_in_actual in_body
        (meant_by (meanings_in names.now) file (formals_in formals.now)))
        actuals.now)
        result }
{
    for actual in actuals {
        if let Err(fault) = check_actual(names, file, formals, in_body, actual) {
            return Err(fault);
        }
    }
    Ok(())
}

/// Checks that a string is an alias.
fn check_string(names: &SymbolTables, reference: &Ref) -> Result<(), JoinFault>
    ensures { ReportsFirst (spec.unknown_string (meanings_in names.now).aliased reference.now) result }
{
    match reference {
        Ref::Plain(_) => Ok(()),
        Ref::Alias(alias) => require_defined(names.aliases.contains_key(alias), alias),
    }
}

fn check_prec(names: &SymbolTables, prec: &Option<Ref>) -> Result<(), JoinFault>
    ensures { ReportsFirst (undefined_prec (meanings_in names.now).aliased prec.now) result }
{
    match prec {
        Some(reference) => check_string(names, reference),
        None => Ok(()),
    }
}

fn check_alternative(
    names: &SymbolTables,
    file: u64,
    formals: &Formals,
    alternative: &Alternative,
) -> Result<(), JoinFault>
    ensures { ReportsFirst
        (undefined_in_alternative (meanings_in names.now).aliased
        (meant_by (meanings_in names.now) file (formals_in formals.now)) alternative.now)
        result }
{
    match check_actuals(names, file, formals, true, alternative.producers.as_slice()) {
        Ok(()) => check_prec(names, &alternative.prec),
        Err(fault) => Err(fault),
    }
}

fn check_alternatives(
    names: &SymbolTables,
    file: u64,
    formals: &Formals,
    alternatives: &[Alternative],
) -> Result<(), JoinFault>
    ensures { ReportsFirst
        (flat_map
        (undefined_in_alternative (meanings_in names.now).aliased
        (meant_by (meanings_in names.now) file (formals_in formals.now)))
        alternatives.now)
        result }
{
    for alternative in alternatives {
        if let Err(fault) = check_alternative(names, file, formals, alternative) {
            return Err(fault);
        }
    }
    Ok(())
}

fn check_rule(alloc: Global, names: &SymbolTables, file: u64, rule: &Rule) -> Result<(), JoinFault>
    ensures { ReportsFirst (undefined_in_rule (meanings_in names.now) file rule.now) result }
{
    match formals_of(alloc, rule.formals.as_slice()) {
        Ok(formals) => check_alternatives(names, file, &formals, rule.alternatives.as_slice()),
        Err(_) => Err(JoinFault::Memory),
    }
}

fn check_rules(
    alloc: Global,
    names: &SymbolTables,
    file: u64,
    rules: &[Rule],
) -> Result<(), JoinFault>
    ensures { ReportsFirst (flat_map (undefined_in_rule (meanings_in names.now) file) rules.now) result }
{
    for rule in rules {
        if let Err(fault) = check_rule(alloc, names, file, rule) {
            return Err(fault);
        }
    }
    Ok(())
}

fn check_starts(names: &SymbolTables, starts: &[Name]) -> Result<(), JoinFault>
    ensures { ReportsFirst (flat_map (undefined_start (meanings_in names.now)) starts.now) result }
{
    for start in starts {
        if let Err(fault) = require_defined(names.numbering.public.contains_key(start), start) {
            return Err(fault);
        }
    }
    Ok(())
}

fn check_level(names: &SymbolTables, level: &LevelDecl) -> Result<(), JoinFault>
    ensures { ReportsFirst (undefined_in_level (meanings_in names.now) level.now) result }
{
    for reference in level.names.as_slice() {
        if let Err(fault) = check_string(names, reference) {
            return Err(fault);
        }
    }
    Ok(())
}

fn check_levels(names: &SymbolTables, levels: &[LevelDecl]) -> Result<(), JoinFault>
    ensures { ReportsFirst (flat_map (undefined_in_level (meanings_in names.now)) levels.now) result }
{
    for level in levels {
        if let Err(fault) = check_level(names, level) {
            return Err(fault);
        }
    }
    Ok(())
}

fn check_on_error(
    names: &SymbolTables,
    file: u64,
    none: &Formals,
    on_error: &[Sequence<Actual>],
) -> Result<(), JoinFault>
    ensures { ReportsFirst
        (flat_map
        (undefined_in_on_error (meant_by (meanings_in names.now) file (formals_in none.now)))
        on_error.now)
        result }
{
    for actuals in on_error {
        if let Err(fault) = check_actuals(names, file, none, false, actuals.as_slice()) {
            return Err(fault);
        }
    }
    Ok(())
}

/// Checks the on-error declarations of a file; no name in them is a formal.
fn check_file_on_error(
    alloc: Global,
    names: &SymbolTables,
    number: u64,
    file: &Module,
) -> Result<(), JoinFault>
    ensures { ReportsFirst
        (flat_map (undefined_in_on_error (meant_by (meanings_in names.now) number (formal_number []))) file.now.on_error)
        result }
{
    match formals_of(alloc, &[]) {
        Ok(none) => check_on_error(names, number, &none, file.on_error.as_slice()),
        Err(_) => Err(JoinFault::Memory),
    }
}

/// Checks that all names and strings in the declarations of a file are defined.
fn check_declarations(
    alloc: Global,
    names: &SymbolTables,
    number: u64,
    file: &Module,
) -> Result<(), JoinFault>
    ensures { ReportsFirst (undefined_in_declarations (meanings_in names.now) number file.now) result }
{
    if let Err(fault) = check_starts(names, file.starts.as_slice()) {
        return Err(fault);
    }
    if let Err(fault) = check_levels(names, file.levels.as_slice()) {
        return Err(fault);
    }
    check_file_on_error(alloc, names, number, file)
}

/// Checks that all names and strings in a file are defined.
fn check_file(
    alloc: Global,
    names: &SymbolTables,
    number: u64,
    file: &Module,
) -> Result<(), JoinFault>
    ensures { ReportsFirst (undefined_in_file (meanings_in names.now) (number, file.now)) result }
{
    match check_declarations(alloc, names, number, file) {
        Ok(()) => check_rules(alloc, names, number, file.rules.as_slice()),
        Err(fault) => Err(fault),
    }
}

/// Checks that all names and strings in the files are defined; reports the first that is not, or that memory ran out.
pub fn check_undefined(
    alloc: Global,
    names: &SymbolTables,
    modules: &[Module],
) -> Result<(), JoinFault>
    requires { AreModulesReady modules.now }
    ensures { ReportsFirst (flat_map (undefined_in_file (meanings_in names.now)) (files modules.now)) result }
{
    for (at, file) in modules.iter().enumerate() {
        if let Err(fault) = check_file(alloc, names, at as u64 + 1, file) {
            return Err(fault);
        }
    }
    Ok(())
}
