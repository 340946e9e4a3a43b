//! The productions of the grammar.
ghost use Rattle.std.specs.Prelude.{◌≡◌, ◌+◌, ◌++◌, length, map, IfOk, OnOk};
ghost use Rattle.std.specs.List.{All};
ghost use Rattle.mh_inline_unfold.specs.Instances.{IsAlternative};
ghost use Rattle.mh_rules.specs.Ready.{IsExpandedReady};
ghost use Rattle.mh_inline_unfold.specs.Unfoldings.{with_own_prec};
ghost use Rattle.mh_inline_unfold.specs.code.Sizes.{AreAllSized, IsSizeTable};
ghost use Rattle.mh_inline.specs.Kept.{IsOrigin};
ghost use Rattle.mh_inline.specs.Inlined.{last_token, level_of, token_level, AreProductions};
ghost use Rattle.mh_inline.specs.code.NumbersAndOrigins.{AreNumbers};
ghost use Rattle.mh_inline.specs.code.ProductionParts.{production_by, token_else, AddsOrigin, IsOriginKnown, IsOriginsSize, IsUnfoldingBelow};
ghost use Rattle.mh_grammar.specs.Limits.{max_numbered};

use crate::nonterminals::symbols;
use crate::origins::Origin;
use crate::sizes::size_of_side;
use crate::unfoldings::unfold_side;
use mh_grammar::{Level, Memory, Production, Sequence, Token, TokenInfo};
use mh_inline_unfold::{Size, SizeTable, Unfolding, plus, rightmost_prec};
use mh_rules::{Expanded, InstanceProduction, Part, Prec};
use std::alloc::Global;

fn last_token_of(parts: &[Part]) -> Option<Token>
    ensures { result ≡ last_token parts.now }
{
    let mut last = None;
    for part in parts {
        last = token_or(*part, last);
    }
    last
}

fn token_or(part: Part, last: Option<Token>) -> Option<Token>
    ensures { result ≡ token_else part last }
{
    match part {
        Part::Token(token) => Some(token),
        Part::Instance(_) => last,
    }
}

fn level_of_token(tokens: &[TokenInfo], token: Token) -> Option<Level>
    ensures { result ≡ token_level tokens.now token }
{
    match tokens.get(usize::from(token)) {
        Some(info) => info.level,
        None => None,
    }
}

/// The level of a production: that of the `%prec`, if one is given, else that of the rightmost token.
fn level(tokens: &[TokenInfo], prec: Prec, rhs: &[Part]) -> Option<Level>
    ensures { result ≡ level_of tokens.now prec rhs.now }
{
    match prec {
        Prec::Given(level) => level,
        Prec::Absent => match last_token_of(rhs) {
            Some(token) => level_of_token(tokens, token),
            None => None,
        },
    }
}

/// The values that all productions of one alternative share.
#[derive(Clone, Copy)]
struct Shared<'a> {
    tokens: &'a [TokenInfo],
    numbers: &'a [u16],
    lhs: u16,
    prec: Prec,
}

fn production(alloc: Global, shared: &Shared<'_>, choice: &Unfolding) -> Result<Production, Memory>
    requires { IsUnfoldingBelow (max_numbered + 1) (length shared.now.numbers.now) choice.now }
    ensures { IfOk result (λ p. p ≡ production_by shared.now.tokens.now shared.now.numbers.now shared.now.lhs (with_own_prec shared.now.prec choice.now)) }
{
    let parts = choice.rhs.to_vec(alloc)?;
    Ok(Production {
        lhs: shared.lhs,
        rhs: Sequence::from_vec(symbols(alloc, shared.numbers, parts.as_slice())?),
        level: level(
            shared.tokens,
            rightmost_prec(choice.prec, shared.prec),
            parts.as_slice(),
        ),
    })
}

fn add_productions(
    alloc: Global,
    shared: &Shared<'_>,
    unfoldings: &[Unfolding],
    productions: &mut Vec<Production>,
) -> Result<(), Memory>
    requires { All (IsUnfoldingBelow (max_numbered + 1) (length shared.now.numbers.now)) unfoldings.now }
    ensures { OnOk result (productions.new.items ≡ productions.old.items ++ map (λ u. production_by shared.now.tokens.now shared.now.numbers.now shared.now.lhs (with_own_prec shared.now.prec u)) unfoldings.now) }
{
    for choice in unfoldings {
        productions.push(production(alloc, shared, choice)?)?;
    }
    Ok(())
}

fn alternative<'a>(expanded: &'a Expanded, origin: &Origin) -> &'a InstanceProduction
    requires { IsOrigin expanded.now.instances origin.now }
    ensures { IsAlternative expanded.now.instances origin.now.instance origin.now.alternative result.now }
{
    &expanded.instances[origin.instance as usize].productions[origin.alternative as usize]
}

/// The number of productions of these alternatives and the length of the longest, each capped at one more than its
/// limit.
pub(crate) fn size_of_origins(expanded: &Expanded, sizing: &SizeTable, origins: &[Origin]) -> Size
    requires sizing { IsSizeTable expanded.now.instances sizing.now }
    requires sized { AreAllSized expanded.now.instances sizing.now.sizes.items }
    requires origins { All (IsOrigin expanded.now.instances) origins.now }
    ensures { IsOriginsSize expanded.now.tokens expanded.now.instances origins.now result }
{
    let mut size = Size {
        count: 0,
        longest: 0,
    };
    for origin in origins {
        let side = alternative(expanded, origin).rhs.as_slice();
        let Some(next) = size_of_side(expanded, sizing.sizes.as_slice(), side) else {
            unreachable!()
        };
        size = plus(size, next);
    }
    size
}

/// Appends the productions of an alternative.
fn add_origin(
    alloc: Global,
    expanded: &Expanded,
    known: &[Sequence<Unfolding>],
    numbers: &[u16],
    origin: &Origin,
    productions: &mut Vec<Production>,
) -> Result<(), Memory>
    requires ready { IsExpandedReady expanded.now }
    requires numbers { AreNumbers expanded.now.instances numbers.now }
    requires origin { IsOrigin expanded.now.instances origin.now }
    requires known { IsOriginKnown expanded.now.instances known.now origin.now }
    ensures { OnOk result (AddsOrigin expanded.now.tokens expanded.now.instances origin.now productions.old.items productions.new.items) }
{
    let from = alternative(expanded, origin);
    let unfoldings = unfold_side(alloc, expanded, known, from.rhs.as_slice())?;
    let shared = Shared {
        tokens: expanded.tokens.as_slice(),
        numbers,
        lhs: numbers[origin.instance as usize],
        prec: from.prec,
    };
    add_productions(alloc, &shared, unfoldings.as_slice(), productions)
}

/// The productions of all alternatives, in order.
pub(crate) fn productions_of(
    alloc: Global,
    expanded: &Expanded,
    known: &[Sequence<Unfolding>],
    numbers: &[u16],
    origins: &[Origin],
) -> Result<Vec<Production>, Memory>
    requires ready { IsExpandedReady expanded.now }
    requires numbers { AreNumbers expanded.now.instances numbers.now }
    requires origins { All (IsOrigin expanded.now.instances) origins.now }
    requires known { All (IsOriginKnown expanded.now.instances known.now) origins.now }
    ensures { IfOk result (λ v. AreProductions expanded.now.tokens expanded.now.instances origins.now v.items) }
{
    let mut productions = Vec::new(alloc);
    for origin in origins {
        add_origin(alloc, expanded, known, numbers, origin, &mut productions)?;
    }
    Ok(productions)
}
