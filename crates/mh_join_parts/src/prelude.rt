//! The prelude, which is the rules of Menhir's standard library.
ghost use Rattle.std.specs.Prelude.{◌≡◌, ◌∷◌, ◌++◌, [], codes, map, true, false, IfOk, OnOk};
ghost use Rattle.mh_join_names.specs.Prelude as spec;
ghost use Rattle.mh_join_names.specs.Prelude.{plain, rule_of, in_order, list_rule, nonempty_list_rule, separated_items, separated_list_rule, separated_nonempty_list_rule, option_rules, pair_rules, list_rules, other_rules};

use mh_grammar::{Memory, Name, Sequence, from_bytes};
use mh_rules::{Actual, Alternative, Ref, Rule};
use std::alloc::Global;

/// A name applied to actuals.
fn call(alloc: Global, name: &str, args: Sequence<Actual>) -> Result<Actual, Memory>
    ensures { IfOk result (λ a. a ≡ spec.call name.now args) }
{
    Ok(Actual {
        head: Ref::Plain(from_bytes(alloc, name.as_bytes())?),
        args,
    })
}

/// Names without arguments, as actuals.
fn words(alloc: Global, names: &[&str]) -> Result<Sequence<Actual>, Memory>
    ensures { IfOk result (λ actuals. actuals ≡ spec.words (map (λ n. n.now) names.now)) }
{
    let mut actuals = Sequence::new(alloc);
    for name in names {
        actuals.push(call(alloc, *name, Sequence::new(alloc))?)?;
    }
    Ok(actuals)
}

/// A name applied to names.
fn applied(alloc: Global, name: &str, args: &[&str]) -> Result<Actual, Memory>
    ensures { IfOk result (λ a. a ≡ spec.call name.now (spec.words (map (λ n. n.now) args.now))) }
{
    call(alloc, name, words(alloc, args)?)
}

fn formals_of(alloc: Global, names: &[&str]) -> Result<Sequence<Name>, Memory>
    ensures { IfOk result (λ formals. formals ≡ map (λ n. n.now) names.now) }
{
    let mut formals = Sequence::new(alloc);
    for name in names {
        formals.push(from_bytes(alloc, name.as_bytes())?)?;
    }
    Ok(formals)
}

/// A public rule without alternatives.
fn rule(alloc: Global, inlined: bool, name: &str, formals: &[&str]) -> Result<Rule, Memory>
    ensures { IfOk result (λ r. r ≡ rule_of inlined name.now (map (λ n. n.now) formals.now) []) }
{
    Ok(Rule {
        public: true,
        inlined,
        name: from_bytes(alloc, name.as_bytes())?,
        formals: formals_of(alloc, formals)?,
        alternatives: Sequence::new(alloc),
    })
}

/// The rule with one more alternative.
fn with_alternative(mut rule: Rule, producers: Sequence<Actual>) -> Result<Rule, Memory>
    ensures { IfOk result (λ r. r ≡ record rule { alternatives = rule.alternatives ++ plain producers ∷ [] }) }
{
    rule.alternatives.push(Alternative {
        producers,
        prec: None,
    })?;
    Ok(rule)
}

/// A rule with an empty alternative.
fn empty(alloc: Global, inlined: bool, name: &str) -> Result<Rule, Memory>
    ensures { IfOk result (λ r. r ≡ rule_of inlined name.now (spec.texts ("X" ∷ [])) (plain [] ∷ [])) }
{
    with_alternative(rule(alloc, inlined, name, &["X"])?, Sequence::new(alloc))
}

/// A rule that derives the empty word or its formal.
fn optional(alloc: Global, inlined: bool, name: &str) -> Result<Rule, Memory>
    ensures { IfOk result (λ r. r ≡ spec.optional inlined name.now) }
{
    let formal = words(alloc, &["X"])?;
    with_alternative(empty(alloc, inlined, name)?, formal)
}

/// A rule whose one alternative is its formals in order.
fn in_order(alloc: Global, inlined: bool, name: &str, formals: &[&str]) -> Result<Rule, Memory>
    ensures { IfOk result (λ r. r ≡ in_order inlined name.now (map (λ n. n.now) formals.now)) }
{
    let producers = words(alloc, formals)?;
    with_alternative(rule(alloc, inlined, name, formals)?, producers)
}

/// Names without arguments, followed by an actual.
fn words_before(alloc: Global, names: &[&str], last: Actual) -> Result<Sequence<Actual>, Memory>
    ensures { IfOk result (λ all. all ≡ spec.words (map (λ n. n.now) names.now) ++ last ∷ []) }
{
    let mut all = words(alloc, names)?;
    all.push(last)?;
    Ok(all)
}

fn list(alloc: Global) -> Result<Rule, Memory>
    ensures { IfOk result (λ r. r ≡ list_rule) }
{
    let more = words_before(alloc, &["X"], applied(alloc, "list", &["X"])?)?;
    with_alternative(empty(alloc, false, "list")?, more)
}

fn nonempty_list(alloc: Global) -> Result<Rule, Memory>
    ensures { IfOk result (λ r. r ≡ nonempty_list_rule) }
{
    let more = words_before(alloc, &["X"], applied(alloc, "nonempty_list", &["X"])?)?;
    with_alternative(in_order(alloc, false, "nonempty_list", &["X"])?, more)
}

fn separated_items(alloc: Global) -> Result<Actual, Memory>
    ensures { IfOk result (λ a. a ≡ separated_items) }
{
    applied(alloc, "separated_nonempty_list", &["separator", "X"])
}

fn separated_list(alloc: Global) -> Result<Rule, Memory>
    ensures { IfOk result (λ r. r ≡ separated_list_rule) }
{
    let args = words_before(alloc, &[], separated_items(alloc)?)?;
    let producers = words_before(alloc, &[], call(alloc, "loption", args)?)?;
    with_alternative(
        rule(alloc, true, "separated_list", &["separator", "X"])?,
        producers,
    )
}

/// The rule `separated_nonempty_list` with its first alternative only, one item.
fn one_or_more(alloc: Global) -> Result<Rule, Memory>
    ensures { IfOk result (λ r. r ≡ rule_of false (codes "separated_nonempty_list")
        (spec.texts ("separator" ∷ "X" ∷ [])) (plain (spec.words (spec.texts ("X" ∷ []))) ∷ [])) }
{
    let one = words(alloc, &["X"])?;
    let formals = ["separator", "X"];
    with_alternative(
        rule(alloc, false, "separated_nonempty_list", &formals)?,
        one,
    )
}

fn separated_nonempty_list(alloc: Global) -> Result<Rule, Memory>
    ensures { IfOk result (λ r. r ≡ separated_nonempty_list_rule) }
{
    let more = words_before(alloc, &["X", "separator"], separated_items(alloc)?)?;
    with_alternative(one_or_more(alloc)?, more)
}

/// Appends a rule that derives the empty word or its formal.
fn add_optional(
    alloc: Global,
    rules: &mut Sequence<Rule>,
    inlined: bool,
    name: &str,
) -> Result<(), Memory>
    ensures { OnOk result (rules.new ≡ rules.old ++ spec.optional inlined name.now ∷ []) }
{
    rules.push(optional(alloc, inlined, name)?)?;
    Ok(())
}

/// Appends a rule whose one alternative is its formals in order.
fn add_in_order(
    alloc: Global,
    rules: &mut Sequence<Rule>,
    inlined: bool,
    name: &str,
    formals: &[&str],
) -> Result<(), Memory>
    ensures { OnOk result (rules.new ≡ rules.old ++ in_order inlined name.now (map (λ n. n.now) formals.now) ∷ []) }
{
    rules.push(in_order(alloc, inlined, name, formals)?)?;
    Ok(())
}

fn add_options(alloc: Global, rules: &mut Sequence<Rule>) -> Result<(), Memory>
    ensures { OnOk result (rules.new ≡ rules.old ++ option_rules) }
{
    add_optional(alloc, rules, false, "option")?;
    add_optional(alloc, rules, true, "ioption")?;
    add_optional(alloc, rules, false, "boption")?;
    add_optional(alloc, rules, false, "loption")?;
    Ok(())
}

fn add_pairs(alloc: Global, rules: &mut Sequence<Rule>) -> Result<(), Memory>
    ensures { OnOk result (rules.new ≡ rules.old ++ pair_rules) }
{
    add_in_order(alloc, rules, true, "pair", &["X", "Y"])?;
    add_in_order(alloc, rules, true, "separated_pair", &["X", "sep", "Y"])?;
    add_in_order(alloc, rules, true, "preceded", &["opening", "X"])?;
    add_in_order(alloc, rules, true, "terminated", &["X", "closing"])?;
    add_in_order(
        alloc,
        rules,
        true,
        "delimited",
        &["opening", "X", "closing"],
    )?;
    Ok(())
}

fn add_lists(alloc: Global, rules: &mut Sequence<Rule>) -> Result<(), Memory>
    ensures { OnOk result (rules.new ≡ rules.old ++ list_rules) }
{
    rules.push(list(alloc)?)?;
    rules.push(nonempty_list(alloc)?)?;
    rules.push(separated_list(alloc)?)?;
    rules.push(separated_nonempty_list(alloc)?)?;
    Ok(())
}

fn add_others(alloc: Global, rules: &mut Sequence<Rule>) -> Result<(), Memory>
    ensures { OnOk result (rules.new ≡ rules.old ++ other_rules) }
{
    add_in_order(alloc, rules, true, "rev", &["XS"])?;
    add_in_order(alloc, rules, true, "flatten", &["XSS"])?;
    add_in_order(alloc, rules, true, "append", &["XS", "YS"])?;
    add_in_order(alloc, rules, true, "endrule", &["X"])?;
    add_in_order(alloc, rules, false, "midrule", &["X"])?;
    Ok(())
}

/// The rules of the prelude, or none if `with` is false. (Menhir manual, standard library.) Fails only if memory runs
/// out.
#[tactic(auto, unfolding(mh_join_names::specs::Prelude::prelude_rules))]
pub fn prelude_rules(alloc: Global, with: bool) -> Result<Sequence<Rule>, Memory>
    ensures { IfOk result (λ rules. rules ≡ spec.prelude_rules with) }
{
    let mut rules = Sequence::new(alloc);
    if with {
        add_options(alloc, &mut rules)?;
        add_pairs(alloc, &mut rules)?;
        add_lists(alloc, &mut rules)?;
        add_others(alloc, &mut rules)?;
    }
    Ok(rules)
}
