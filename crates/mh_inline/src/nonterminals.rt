//! The nonterminals of the grammar and their numbers.
ghost use Rattle.std.specs.Prelude.{◌≡◌, ◌+◌, ◌<◌, ◌≤◌, length, map, filter, slice_index, IfOk};
ghost use Rattle.std.specs.List.{All};
ghost use Rattle.mh_rules.specs.Ready.{IsPartBelow};
ghost use Rattle.mh_inline.specs.Kept.{is_kept, nonterminal_of};
ghost use Rattle.mh_inline.specs.code.NumbersAndOrigins.{symbol_by, AreNumbers};
ghost use Rattle.mh_rules.specs.Limits.{max_instances};
ghost use Rattle.mh_grammar.specs.Limits.{max_numbered};

use mh_grammar::{Memory, NontermInfo, Symbol};
use mh_rules::{Instance, Part};
use std::alloc::Global;

/// For each instance, the number of instances before it that are not inline. Fails only if memory runs out.
pub(crate) fn numbers_of(alloc: Global, instances: &[Instance]) -> Result<Vec<u16>, Memory>
    requires { length instances.now ≤ max_instances }
    ensures { IfOk result (λ v. AreNumbers instances.now v.items) }
{
    let mut numbers = Vec::new(alloc);
    let mut next = 0u16;
    for instance in instances {
        numbers.push(next)?;
        if !instance.inlined {
            next += 1;
        }
    }
    Ok(numbers)
}

fn nonterminal(instance: &Instance) -> Result<NontermInfo, Memory>
    ensures { IfOk result (λ n. n ≡ nonterminal_of instance.now) }
{
    Ok(NontermInfo {
        name: instance.name.clone()?,
        on_error: instance.on_error,
    })
}

/// The nonterminals of the grammar, which are the instances that are not inline, in their order. Fails only if memory
/// runs out.
pub(crate) fn nonterminals_of(
    alloc: Global,
    instances: &[Instance],
) -> Result<Vec<NontermInfo>, Memory>
    ensures { IfOk result (λ v. v.items ≡ map nonterminal_of (filter is_kept instances.now)) }
{
    let mut nonterminals = Vec::new(alloc);
    for instance in instances {
        if !instance.inlined {
            nonterminals.push(nonterminal(instance)?)?;
        }
    }
    Ok(nonterminals)
}

fn symbol(numbers: &[u16], part: Part) -> Symbol
    requires { IsPartBelow (max_numbered + 1) (length numbers.now) part }
    ensures { result ≡ symbol_by numbers.now part }
{
    match part {
        Part::Token(token) => Symbol::T(token),
        Part::Instance(number) => Symbol::N(numbers[number as usize]),
    }
}

/// The symbols of producers; an instance is given by its number as a nonterminal. Fails only if memory runs out.
pub(crate) fn symbols(alloc: Global, numbers: &[u16], parts: &[Part]) -> Result<Vec<Symbol>, Memory>
    requires { All (IsPartBelow (max_numbered + 1) (length numbers.now)) parts.now }
    ensures { IfOk result (λ v. v.items ≡ map (symbol_by numbers.now) parts.now) }
{
    let mut symbols = Vec::new(alloc);
    for part in parts {
        symbols.push(symbol(numbers, *part))?;
    }
    Ok(symbols)
}

/// The start symbols, each by its number as a nonterminal. Fails only if memory runs out.
pub(crate) fn starts_of(alloc: Global, starts: &[u32], numbers: &[u16]) -> Result<Vec<u16>, Memory>
    requires { All (λ s. s < length numbers.now) starts.now }
    ensures { IfOk result (λ v. v.items ≡ map (slice_index numbers.now) starts.now) }
{
    let mut found = Vec::new(alloc);
    for start in starts {
        found.push(numbers[*start as usize])?;
    }
    Ok(found)
}
