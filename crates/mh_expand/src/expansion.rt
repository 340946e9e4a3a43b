//! The expansion of joined rules to instances.
ghost use Rattle.std.specs.Prelude.{◌≡◌, ◌<◌, ◌≤◌, ◌++◌, ℕ, List, [], flat_map, length, slice_index, nat_eq, IsSome, IfOk, IfErr};
ghost use Rattle.std.specs.List.{All};
ghost use Rattle.indexmap.specs.IndexMap.{get};
ghost use Rattle.mh_expand.specs.declared.fault.ExpandFault.{ExpandFault};
ghost use Rattle.mh_expand.specs.Terms.{Term, arguments, text};
ghost use Rattle.mh_expand.specs.Expansion.{IsFirstFaultIn, IsMemoryOr, IsExpanded, IsFirstFault, producers_of, right_side, rule_at, start_terms};
ghost use Rattle.mh_rules.specs.Ready.{IsJoinedReady, IsExpandedReady};
ghost use Rattle.mh_expand.specs.Sentences.{HasSameSentences};
ghost use Rattle.mh_expand.specs.code.SharedTerms.{terms_of, term_at, terms_at, IsExtendedBy};
ghost use Rattle.mh_expand.specs.code.Contract.{ExpandContract};
ghost use Rattle.mh_expand.specs.code.InstanceSearch.{IsInstanceSearch, IsExpandable, AreRanks, FindsStarts, FindsInstance, FindsAlternatives, FindsAlternative, IsExpanding, AreExpanded};
ghost use Rattle.mh_rules.specs.Limits.{max_instances};
ghost use Rattle.mh_expand.specs.Limits.{max_name};

use crate::applications::Application;
use crate::fault::ExpandFault;
use crate::ranks::{Ranks, rank_of, ranks_of};
use crate::replacing::replace;
use crate::search::{MAX_NAME, find, find_instance};
use crate::terms::Terms;
use crate::texts::text_within;
use indexmap::IndexSet;
use mh_grammar::{Memory, Name, Sequence, TokenInfo};
use mh_rules::{
    Expanded, Head, Instance, InstanceProduction, Joined, JoinedAlternative, JoinedRule, Part,
};
use std::alloc::Global;

/// Expands joined rules: finds the instances that the start symbols reach, which are rules applied to actuals in which
/// each formal is replaced by its actual. The search is breadth-first: first the start symbols in order, and then, for
/// each instance in the order of finding, the producers of its alternatives in order and from left to right. Rules that
/// no start symbol reaches are dropped, and an on-error declaration of a term that is no instance has no effect.
/// Returns the first fault in the order of finding: `Arity` if a term has not as many arguments as its rule has
/// formals, or is a token with arguments; `Expansion` if a new instance has a printed name of more than 1,000 bytes, or
/// is the 20,001st. If one term has both faults, `Arity` is returned. Returns `Memory` only if memory runs out, or if
/// the name of a term with a wrong number of arguments has more than 16 MiB. (Menhir manual, parameterized rules; the
/// limits and the order are rules of this project.)
pub fn expand(alloc: Global, joined: &Joined) -> Result<Expanded, ExpandFault>
    requires { IsJoinedReady joined.now }
    ensures ok { IfOk result (IsExpanded joined.now) }
    ensures ready { IfOk result IsExpandedReady }
    ensures sentences { IfOk result (HasSameSentences joined.now) }
    ensures err { IfErr result (IsMemoryOr (IsFirstFault joined.now)) }
    ensures no_fault { IfOk result (λ _. (fault : ExpandFault) → IsFirstFault joined.now fault → ⊥) }
{
    let mut terms = Terms::new(alloc);
    expand_with(alloc, joined, &mut terms)
}

/// The expansion, with an empty table of terms. Each function of this chain owns one of the tables: a proof that a
/// single function drops all of them at each fault would be far longer.
fn expand_with(alloc: Global, joined: &Joined, terms: &mut Terms) -> Result<Expanded, ExpandFault>
    requires { terms_of terms.old.nodes.keys ≡ [] }
    ensures ok { IfOk result (ExpandContract joined.now) }
    ensures err { IfErr result (IsMemoryOr (IsFirstFault joined.now)) }
{
    let ranks = ranks_of(alloc, terms, joined.on_error.as_slice())?;
    expand_ranked(alloc, joined, terms, &ranks)
}

/// The expansion, after the ranks were computed. The rank of a term is the index of the first `%on_error_reduce`
/// declaration that names it.
fn expand_ranked(
    alloc: Global,
    joined: &Joined,
    terms: &mut Terms,
    ranks: &Ranks,
) -> Result<Expanded, ExpandFault>
    requires { AreRanks joined.now.on_error (terms_of terms.old.nodes.keys) (get nat_eq ranks.now) }
    ensures ok { IfOk result (ExpandContract joined.now) }
    ensures err { IfErr result (IsMemoryOr (IsFirstFault joined.now)) }
{
    let mut found = IndexSet::new(alloc);
    expand_found(alloc, joined, terms, ranks, &mut found)
}

/// The expansion, with an empty set of instances.
fn expand_found(
    alloc: Global,
    joined: &Joined,
    terms: &mut Terms,
    ranks: &Ranks,
    found: &mut IndexSet<usize>,
) -> Result<Expanded, ExpandFault>
    requires none { found.old.keys ≡ [] }
    requires ranks { AreRanks joined.now.on_error (terms_of terms.old.nodes.keys) (get nat_eq ranks.now) }
    ensures ok { IfOk result (ExpandContract joined.now) }
    ensures err { IfErr result (IsMemoryOr (IsFirstFault joined.now)) }
{
    match find_starts(alloc, joined, terms, found) {
        Ok(starts) => match expand_all(alloc, joined, terms, ranks, found) {
            Ok(instances) => {
                let expanded = with_tokens(joined, starts, instances)?;
                Ok(expanded)
            }
            Err(fault) => Err(fault),
        },
        Err(fault) => Err(fault),
    }
}

/// The expanded value of these instances and start symbols, with the tokens of the joined rules.
fn with_tokens(
    joined: &Joined,
    starts: Sequence<u32>,
    instances: Sequence<Instance>,
) -> Result<Expanded, Memory>
    ensures { IfOk result
        (λ e. e ≡ record { tokens = joined.now.tokens; starts = starts; instances = instances }) }
{
    Ok(Expanded {
        tokens: joined.tokens.clone()?,
        starts,
        instances,
    })
}

/// Expands the instances in the set, and the instances that are found while it does so.
fn expand_all(
    alloc: Global,
    joined: &Joined,
    terms: &mut Terms,
    ranks: &Ranks,
    found: &mut IndexSet<usize>,
) -> Result<Sequence<Instance>, ExpandFault>
    requires { IsExpanding joined.now (terms_of terms.old.nodes.keys) found.old.keys [] (get nat_eq ranks.now) }
    ensures ok { IfOk result
        (λ is. AreExpanded joined.now (terms_of terms.old.nodes.keys) (terms_of terms.new.nodes.keys)
        found.old.keys found.new.keys is (get nat_eq ranks.now)) }
    ensures err { IfErr result (IsMemoryOr (IsFirstFault joined.now)) }
{
    let mut instances = Sequence::new(alloc);
    'instances: while instances.len() < found.len() {
        let place = instances.len();
        match expand_instance(alloc, joined, terms, ranks, found, place) {
            Ok(instance) => instances.push(instance)?,
            Err(fault) => return Err(fault),
        }
    }
    Ok(instances)
}

/// The numbers of the instances of the start symbols.
fn find_starts(
    alloc: Global,
    joined: &Joined,
    terms: &mut Terms,
    found: &mut IndexSet<usize>,
) -> Result<Sequence<u32>, ExpandFault>
    requires few { length found.old.keys ≤ max_instances }
    ensures few { IfOk result (λ _. length found.new.keys ≤ max_instances) }
    ensures ok { IfOk result (λ s. IsInstanceSearch joined.now [] (terms_of terms.old.nodes.keys) found.old.keys →
        FindsStarts joined.now (terms_of terms.old.nodes.keys) (terms_of terms.new.nodes.keys)
        found.old.keys found.new.keys s) }
    ensures err { IfErr result (λ e. IsInstanceSearch joined.now [] (terms_of terms.old.nodes.keys) found.old.keys →
        IsMemoryOr (IsFirstFaultIn joined.now (start_terms joined.now)) e) }
{
    let mut starts = Sequence::new(alloc);
    for rule in joined.starts.as_slice() {
        let number = terms.insert(Application {
            head: Head::Rule(*rule),
            args: Sequence::new(alloc),
        })?;
        match find_instance(alloc, joined, terms, found, number, *rule) {
            Ok(start) => starts.push(start)?,
            Err(fault) => return Err(fault),
        }
    }
    Ok(starts)
}

/// The expanded instance of a term: its name, its attributes and its alternatives.
fn expand_instance(
    alloc: Global,
    joined: &Joined,
    terms: &mut Terms,
    ranks: &Ranks,
    found: &mut IndexSet<usize>,
    place: usize,
) -> Result<Instance, ExpandFault>
    requires place { place < length found.old.keys }
    requires few { length found.old.keys ≤ max_instances }
    requires below { All (λ n. n < length (terms_of terms.old.nodes.keys)) found.old.keys }
    requires fit { IsExpandable joined.now (term_at (terms_of terms.old.nodes.keys) (slice_index found.old.keys place)) }
    requires ranks { AreRanks joined.now.on_error (terms_of terms.old.nodes.keys) (get nat_eq ranks.now) }
    ensures few { IfOk result (λ _. length found.new.keys ≤ max_instances) }
    ensures ok { IfOk result (λ i. (before : List Term) →
        IsInstanceSearch joined.now before (terms_of terms.old.nodes.keys) found.old.keys →
        FindsInstance joined.now before (terms_of terms.old.nodes.keys) (terms_of terms.new.nodes.keys)
        found.old.keys found.new.keys
        (term_at (terms_of terms.old.nodes.keys) (slice_index found.old.keys place)) i) }
    ensures err { IfErr result (λ e. (before : List Term) →
        IsInstanceSearch joined.now before (terms_of terms.old.nodes.keys) found.old.keys →
        IsMemoryOr
        (IsFirstFaultIn joined.now (before
        ++ producers_of joined.now
        (term_at (terms_of terms.old.nodes.keys) (slice_index found.old.keys place))))
        e) }
{
    let number = found.as_slice()[place];
    let node = terms.at(number);
    let rule = rule_of(joined, node.head);
    let alternatives = rule.alternatives.as_slice();
    let name = name_of(alloc, joined, terms, number)?;
    match expand_rule(alloc, joined, terms, found, number, alternatives) {
        Ok(productions) => Ok(Instance {
            name,
            inlined: rule.inlined,
            on_error: rank_of(ranks, number),
            productions,
        }),
        Err(fault) => Err(fault),
    }
}

/// The rule that a head names.
fn rule_of(joined: &Joined, head: Head) -> &JoinedRule
    requires { IsSome (rule_at joined.now head) }
    ensures { rule_at joined.now head ≡ Some result.now }
{
    match head {
        Head::Rule(place) => &joined.rules[place as usize],
        _ => unreachable!(),
    }
}

fn copy_of(numbers: &Sequence<usize>) -> Result<Sequence<usize>, Memory>
    ensures { IfOk result (λ s. s ≡ numbers.now) }
{
    Ok(numbers.clone()?)
}

/// The printed name of an instance.
fn name_of(alloc: Global, joined: &Joined, terms: &Terms, number: usize) -> Result<Name, Memory>
    requires number { number < length (terms_of terms.now.nodes.keys) }
    requires short { length (text joined.now (term_at (terms_of terms.now.nodes.keys) number)) ≤ max_name }
    ensures { IfOk result (λ n. n ≡ text joined.now (term_at (terms_of terms.now.nodes.keys) number)) }
{
    match text_within(alloc, joined, terms, number, MAX_NAME)? {
        Some(name) => Ok(name),
        None => unreachable!(),
    }
}

/// The alternatives of a rule with its formals replaced by the arguments of a term.
fn expand_rule(
    alloc: Global,
    joined: &Joined,
    terms: &mut Terms,
    found: &mut IndexSet<usize>,
    number: usize,
    alternatives: &[JoinedAlternative],
) -> Result<Sequence<InstanceProduction>, ExpandFault>
    requires few { length found.old.keys ≤ max_instances }
    requires number { number < length (terms_of terms.old.nodes.keys) }
    ensures few { IfOk result (λ _. length found.new.keys ≤ max_instances) }
    ensures ok { IfOk result (λ ps. (before : List Term) →
        IsInstanceSearch joined.now before (terms_of terms.old.nodes.keys) found.old.keys →
        FindsAlternatives joined.now before (terms_of terms.old.nodes.keys)
        (terms_of terms.new.nodes.keys) found.old.keys found.new.keys
        (term_at (terms_of terms.old.nodes.keys) number) alternatives.now ps) }
    ensures err { IfErr result (λ e. (before : List Term) →
        IsInstanceSearch joined.now before (terms_of terms.old.nodes.keys) found.old.keys →
        IsMemoryOr
        (IsFirstFaultIn joined.now (before
        ++ flat_map (right_side (term_at (terms_of terms.old.nodes.keys) number)) alternatives.now))
        e) }
{
    let node = terms.at(number);
    let formals = copy_of(&node.args)?;
    expand_alternatives(
        alloc,
        joined,
        terms,
        found,
        formals.as_slice(),
        alternatives,
    )
}

/// The alternatives with their formals replaced.
fn expand_alternatives(
    alloc: Global,
    joined: &Joined,
    terms: &mut Terms,
    found: &mut IndexSet<usize>,
    formals: &[usize],
    alternatives: &[JoinedAlternative],
) -> Result<Sequence<InstanceProduction>, ExpandFault>
    requires few { length found.old.keys ≤ max_instances }
    requires formals { All (λ n. n < length (terms_of terms.old.nodes.keys)) formals.now }
    ensures few { IfOk result (λ _. length found.new.keys ≤ max_instances) }
    ensures ok { IfOk result (λ ps. (before : List Term) (t : Term) →
        arguments t ≡ terms_at (terms_of terms.old.nodes.keys) formals.now →
        IsInstanceSearch joined.now before (terms_of terms.old.nodes.keys) found.old.keys →
        FindsAlternatives joined.now before (terms_of terms.old.nodes.keys)
        (terms_of terms.new.nodes.keys) found.old.keys found.new.keys t alternatives.now ps) }
    ensures err { IfErr result (λ e. (before : List Term) (t : Term) →
        arguments t ≡ terms_at (terms_of terms.old.nodes.keys) formals.now →
        IsInstanceSearch joined.now before (terms_of terms.old.nodes.keys) found.old.keys →
        IsMemoryOr (IsFirstFaultIn joined.now (before ++ flat_map (right_side t) alternatives.now)) e) }
{
    let mut productions = Sequence::new(alloc);
    for alternative in alternatives {
        match expand_alternative(alloc, joined, terms, found, formals, alternative) {
            Ok(production) => productions.push(production)?,
            Err(fault) => return Err(fault),
        }
    }
    Ok(productions)
}

/// An alternative with its formals replaced.
fn expand_alternative(
    alloc: Global,
    joined: &Joined,
    terms: &mut Terms,
    found: &mut IndexSet<usize>,
    formals: &[usize],
    alternative: &JoinedAlternative,
) -> Result<InstanceProduction, ExpandFault>
    requires few { length found.old.keys ≤ max_instances }
    requires formals { All (λ n. n < length (terms_of terms.old.nodes.keys)) formals.now }
    ensures few { IfOk result (λ _. length found.new.keys ≤ max_instances) }
    ensures grows { IfOk result (λ _. IsExtendedBy (terms_of terms.old.nodes.keys) (terms_of terms.new.nodes.keys)) }
    ensures ok { IfOk result (λ p. (before : List Term) (t : Term) →
        arguments t ≡ terms_at (terms_of terms.old.nodes.keys) formals.now →
        IsInstanceSearch joined.now before (terms_of terms.old.nodes.keys) found.old.keys →
        FindsAlternative joined.now before (terms_of terms.old.nodes.keys)
        (terms_of terms.new.nodes.keys) found.old.keys found.new.keys t alternative.now p) }
    ensures err { IfErr result (λ e. (before : List Term) (t : Term) →
        arguments t ≡ terms_at (terms_of terms.old.nodes.keys) formals.now →
        IsInstanceSearch joined.now before (terms_of terms.old.nodes.keys) found.old.keys →
        IsMemoryOr (IsFirstFaultIn joined.now (before ++ right_side t alternative.now)) e) }
{
    let mut rhs = Sequence::new(alloc);
    for producer in alternative.producers.as_slice() {
        let number = replace(alloc, terms, formals, producer)?;
        match find(alloc, joined, terms, found, number) {
            Ok(part) => rhs.push(part)?,
            Err(fault) => return Err(fault),
        }
    }
    Ok(InstanceProduction {
        file: alternative.file,
        place: alternative.place,
        rhs,
        prec: alternative.prec,
    })
}
