//! The search for instances.
ghost use Rattle.std.specs.Prelude.{◌≡◌, ◌<◌, ◌≤◌, ◌↔◌, ℕ, List, length, IsTrue, IfOk, IfErr};
ghost use Rattle.mh_grammar.specs.Placed.{Placed};
ghost use Rattle.mh_expand.specs.Terms.{Term, head_of, head_name, text};
ghost use Rattle.mh_expand.specs.Expansion.{IsInstance, HasRightArity, IsFault, IsMemoryOr};
ghost use Rattle.mh_expand.specs.code.SharedTerms.{terms_of, term_at};
ghost use Rattle.mh_expand.specs.code.InstanceSearch.{FindsTermForAllBefore, IsMemoryOrFaultForAllBefore};
ghost use Rattle.mh_rules.specs.Limits.{max_instances};
ghost use Rattle.mh_expand.specs.Limits.{max_name};

use crate::fault::ExpandFault;
use crate::terms::Terms;
use crate::texts::text_within;
use indexmap::IndexSet;
use mh_grammar::{Memory, Name};
use mh_rules::{Head, Joined, JoinedRule, MAX_INSTANCES, Part};
use std::alloc::{AllocFailed, Global};

/// The largest number of bytes in the printed name of an instance.
pub(crate) const MAX_NAME: usize = 1000;

/// The largest number of bytes of a name in a fault, which equals the largest size of a file.
pub(crate) const MAX_FAULT_NAME: usize = 16_777_216;

/// The part of a right side that a term gives, a token or the number of an instance, or the fault of the term. A new
/// instance is appended.
pub(crate) fn find(
    alloc: Global,
    joined: &Joined,
    terms: &Terms,
    found: &mut IndexSet<usize>,
    number: usize,
) -> Result<Part, ExpandFault>
    requires number { number < length (terms_of terms.now.nodes.keys) }
    requires few { length found.old.keys ≤ max_instances }
    ensures few { IfOk result (λ _. length found.new.keys ≤ max_instances) }
    ensures ok { IfOk result (FindsTermForAllBefore joined.now (terms_of terms.now.nodes.keys) (term_at (terms_of terms.now.nodes.keys) number) found.old.keys found.new.keys) }
    ensures err { IfErr result (IsMemoryOrFaultForAllBefore joined.now (terms_of terms.now.nodes.keys) (term_at (terms_of terms.now.nodes.keys) number) found.old.keys) }
{
    let node = terms.at(number);
    match node.head {
        Head::Token(token) if node.args.is_empty() => Ok(Part::Token(token)),
        Head::Rule(rule) => match find_instance(alloc, joined, terms, found, number, rule) {
            Ok(at) => Ok(Part::Instance(at)),
            Err(fault) => Err(fault),
        },
        _ => Err(wrong_count(alloc, joined, terms, number)),
    }
}

/// The number of the instance of a term whose head is a rule, or the fault of the term. A new instance is appended.
pub(crate) fn find_instance(
    alloc: Global,
    joined: &Joined,
    terms: &Terms,
    found: &mut IndexSet<usize>,
    number: usize,
    rule: u64,
) -> Result<u32, ExpandFault>
    requires number { number < length (terms_of terms.now.nodes.keys) }
    requires few { length found.old.keys ≤ max_instances }
    requires rule { head_of (term_at (terms_of terms.now.nodes.keys) number) ≡ Head.Rule rule }
    ensures few { IfOk result (λ _. length found.new.keys ≤ max_instances) }
    ensures ok { IfOk result (λ p. FindsTermForAllBefore joined.now (terms_of terms.now.nodes.keys) (term_at (terms_of terms.now.nodes.keys) number) found.old.keys found.new.keys (Part.Instance p)) }
    ensures err { IfErr result (IsMemoryOrFaultForAllBefore joined.now (terms_of terms.now.nodes.keys) (term_at (terms_of terms.now.nodes.keys) number) found.old.keys) }
{
    let count = terms.at(number).args.len();
    match joined.rules.get(rule as usize) {
        Some(rule) if takes(rule, count) => {
            add_instance(alloc, joined, terms, found, number, &rule.name)
        }
        _ => Err(wrong_count(alloc, joined, terms, number)),
    }
}

/// Whether the rule has this number of formals.
fn takes(rule: &JoinedRule, count: usize) -> bool
    ensures { IsTrue result ↔ (rule.now.formals ≡ count) }
{
    rule.formals == count as u64
}

/// The number of an instance of the rule with this name; a new instance is appended, if the limits allow another.
fn add_instance(
    alloc: Global,
    joined: &Joined,
    terms: &Terms,
    found: &mut IndexSet<usize>,
    number: usize,
    rule: &Name,
) -> Result<u32, ExpandFault>
    requires number { number < length (terms_of terms.now.nodes.keys) }
    requires few { length found.old.keys ≤ max_instances }
    requires instance { IsInstance (term_at (terms_of terms.now.nodes.keys) number) }
    requires fits { HasRightArity joined.now (term_at (terms_of terms.now.nodes.keys) number) }
    requires rule { rule.now ≡ head_name joined.now (head_of (term_at (terms_of terms.now.nodes.keys) number)) }
    ensures few { IfOk result (λ _. length found.new.keys ≤ max_instances) }
    ensures ok { IfOk result (λ p. FindsTermForAllBefore joined.now (terms_of terms.now.nodes.keys) (term_at (terms_of terms.now.nodes.keys) number) found.old.keys found.new.keys (Part.Instance p)) }
    ensures err { IfErr result (IsMemoryOrFaultForAllBefore joined.now (terms_of terms.now.nodes.keys) (term_at (terms_of terms.now.nodes.keys) number) found.old.keys) }
{
    let known = found.len();
    let at = place(found, number)?;
    if at < known {
        return Ok(at as u32);
    }
    if may_come(alloc, joined, terms, number, known)? {
        Ok(at as u32)
    } else {
        Err(one_too_many(rule))
    }
}

/// Whether the limits allow a new instance after this number of instances.
fn may_come(
    alloc: Global,
    joined: &Joined,
    terms: &Terms,
    number: usize,
    known: usize,
) -> Result<bool, Memory>
    requires { number < length (terms_of terms.now.nodes.keys) }
    ensures { IfOk result (λ b. IsTrue b
        ↔ ((known < max_instances) ×
        (length (text joined.now (term_at (terms_of terms.now.nodes.keys) number)) ≤ max_name))) }
{
    let name = text_within(alloc, joined, terms, number, MAX_NAME)?;
    Ok(known < MAX_INSTANCES && name.is_some())
}

/// The position of an instance in the set; a new instance is appended.
fn place(found: &mut IndexSet<usize>, number: usize) -> Result<usize, AllocFailed<usize>>
    ensures { IfOk result (Placed found.old.keys found.new.keys number) }
{
    let (at, _) = found.insert_full(number)?;
    Ok(at)
}

/// The fault of a term with a wrong number of arguments. If long terms replace many formals, its name may have
/// gigabytes; a name of more than 16 MiB is reported as `Memory`.
fn wrong_count(alloc: Global, joined: &Joined, terms: &Terms, number: usize) -> ExpandFault
    requires number { number < length (terms_of terms.now.nodes.keys) }
    requires count { HasRightArity joined.now (term_at (terms_of terms.now.nodes.keys) number) → ⊥ }
    ensures { (before : List Term) →
        IsMemoryOr (IsFault joined.now before (term_at (terms_of terms.now.nodes.keys) number)) result }
{
    match text_within(alloc, joined, terms, number, MAX_FAULT_NAME) {
        Ok(name) => match name {
            Some(instance) => ExpandFault::Arity { instance },
            None => ExpandFault::Memory,
        },
        Err(_) => ExpandFault::Memory,
    }
}

/// The fault of an instance of this rule that exceeds a limit.
fn one_too_many(rule: &Name) -> ExpandFault
    ensures { IsMemoryOr (λ e. e ≡ ExpandFault.Expansion rule.now) result }
{
    match rule.clone() {
        Ok(name) => ExpandFault::Expansion { name },
        Err(_) => ExpandFault::Memory,
    }
}
