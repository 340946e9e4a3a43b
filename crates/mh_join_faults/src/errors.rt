//! The search for the faults that are reported last: no start symbol, the token `error` (`check_errors`), unknown
//! levels, too many tokens.
ghost use Rattle.std.specs.Prelude.{◌≡◌, ◌++◌, length};
ghost use Rattle.std.specs.List.{flat_map};
ghost use Rattle.mh_rules.specs.Ready.{AreModulesReady};
ghost use Rattle.mh_join_names.specs.Faults.{ReportsFirst, unless, has_some, errors_in_actual, errors_in_rule, errors_in_file, unlevelled, unlevelled_in_rule, unlevelled_in_file, many_tokens, other_faults};
ghost use Rattle.mh_join_names.specs.code.SymbolTables.{meanings_in};

use crate::undefined::is_error;
use mh_grammar::Name;
use mh_join_names::{JoinFault, SymbolTables};
use mh_rules::{Actual, MAX_TOKENS, Module, Ref, Rule};

fn check_start(names: &SymbolTables) -> Result<(), JoinFault>
    ensures { ReportsFirst (unless (has_some (meanings_in names.now).starts) JoinFault.NoStart) result }
{
    if names.starts.is_empty() {
        Err(JoinFault::NoStart)
    } else {
        Ok(())
    }
}

#[cycle(errors)]
fn check_actual(actual: &Actual) -> Result<(), JoinFault>
    ensures { ReportsFirst (errors_in_actual actual.now) result }
{
    if is_error(&actual.head) {
        return Err(JoinFault::ErrorToken);
    }
    check_actuals(actual.args.as_slice())
}

#[cycle(errors)]
fn check_actuals(actuals: &[Actual]) -> Result<(), JoinFault>
    ensures { ReportsFirst (flat_map errors_in_actual actuals.now) result }
{
    for actual in actuals {
        if let Err(fault) = check_actual(actual) {
            return Err(fault);
        }
    }
    Ok(())
}

/// Checks that no head in a rule is the token `error`.
fn check_rule(rule: &Rule) -> Result<(), JoinFault>
    ensures { ReportsFirst (errors_in_rule rule.now) result }
{
    for alternative in rule.alternatives.as_slice() {
        if let Err(fault) = check_actuals(alternative.producers.as_slice()) {
            return Err(fault);
        }
    }
    Ok(())
}

fn check_rules(rules: &[Rule]) -> Result<(), JoinFault>
    ensures { ReportsFirst (flat_map errors_in_rule rules.now) result }
{
    for rule in rules {
        if let Err(fault) = check_rule(rule) {
            return Err(fault);
        }
    }
    Ok(())
}

fn check_errors(modules: &[Module]) -> Result<(), JoinFault>
    ensures { ReportsFirst (flat_map errors_in_file modules.now) result }
{
    for file in modules {
        if let Err(fault) = check_rules(file.rules.as_slice()) {
            return Err(fault);
        }
    }
    Ok(())
}

fn require_level(is_known: bool, name: &Name) -> Result<(), JoinFault>
    ensures { ReportsFirst (unless is_known (JoinFault.UnknownLevel name.now)) result }
{
    if is_known {
        return Ok(());
    }
    match name.clone() {
        Ok(name) => Err(JoinFault::UnknownLevel { name }),
        Err(_) => Err(JoinFault::Memory),
    }
}

/// Checks that a name after `%prec` is a token or has a level.
fn check_prec(names: &SymbolTables, prec: &Option<Ref>) -> Result<(), JoinFault>
    ensures { ReportsFirst (unlevelled (meanings_in names.now) prec.now) result }
{
    match prec {
        Some(Ref::Plain(name)) => require_level(names.may_follow_prec(name), name),
        _ => Ok(()),
    }
}

fn check_rule_precs(names: &SymbolTables, rule: &Rule) -> Result<(), JoinFault>
    ensures { ReportsFirst (unlevelled_in_rule (meanings_in names.now) rule.now) result }
{
    for alternative in rule.alternatives.as_slice() {
        if let Err(fault) = check_prec(names, &alternative.prec) {
            return Err(fault);
        }
    }
    Ok(())
}

fn check_file_precs(names: &SymbolTables, rules: &[Rule]) -> Result<(), JoinFault>
    ensures { ReportsFirst (flat_map (unlevelled_in_rule (meanings_in names.now)) rules.now) result }
{
    for rule in rules {
        if let Err(fault) = check_rule_precs(names, rule) {
            return Err(fault);
        }
    }
    Ok(())
}

fn check_precs(names: &SymbolTables, modules: &[Module]) -> Result<(), JoinFault>
    ensures { ReportsFirst (flat_map (unlevelled_in_file (meanings_in names.now)) modules.now) result }
{
    for file in modules {
        if let Err(fault) = check_file_precs(names, file.rules.as_slice()) {
            return Err(fault);
        }
    }
    Ok(())
}

fn check_count(names: &SymbolTables) -> Result<(), JoinFault>
    ensures { ReportsFirst (many_tokens (length (meanings_in names.now).tokens)) result }
{
    let count = names.tokens.len();
    if count > MAX_TOKENS {
        return Err(JoinFault::TooManyTokens {
            count: count as u64,
        });
    }
    Ok(())
}

/// Checks for unknown levels and for too many tokens.
fn check_last(names: &SymbolTables, modules: &[Module]) -> Result<(), JoinFault>
    ensures { ReportsFirst
        (flat_map (unlevelled_in_file (meanings_in names.now)) modules.now
        ++ many_tokens (length (meanings_in names.now).tokens))
        result }
{
    match check_precs(names, modules) {
        Ok(()) => check_count(names),
        Err(fault) => Err(fault),
    }
}

/// Checks for the faults that are reported after undefined and duplicate names, and reports the first.
pub fn check_others(names: &SymbolTables, modules: &[Module]) -> Result<(), JoinFault>
    requires { AreModulesReady modules.now }
    ensures { ReportsFirst (other_faults (meanings_in names.now) modules.now) result }
{
    if let Err(fault) = check_start(names) {
        return Err(fault);
    }
    if let Err(fault) = check_errors(modules) {
        return Err(fault);
    }
    check_last(names, modules)
}
