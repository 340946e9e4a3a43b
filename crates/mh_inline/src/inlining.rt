//! Computes the grammar of expanded instances, or their first fault.
ghost use Rattle.std.specs.Prelude.{◌≡◌, ◌<◌, true, false, length, slice_index_or, IfOk, IfErr, IfNone, MatchOption};
ghost use Rattle.std.specs.List.{All};
ghost use Rattle.mh_grammar.specs.Plain.{plain_of, IsInRange};
ghost use Rattle.mh_grammar.specs.Numbering.{AreDistinct};
ghost use Rattle.mh_rules.specs.Ready.{IsExpandedReady};
ghost use Rattle.mh_inline_unfold.specs.code.Sizes.{AreAllSized, IsSizeTable};
ghost use Rattle.mh_inline.specs.Kept.{AreOrigins};
ghost use Rattle.mh_inline.specs.Inlined.{AreProductions, IsInlined};
ghost use Rattle.mh_inline.specs.code.NumbersAndOrigins.{AreNumbers};
ghost use Rattle.mh_inline.specs.code.ProductionParts.{AreOriginsSmall};
ghost use Rattle.mh_inline.specs.Cycles.{HasNoCycle, IsFirstCyclicAt};
ghost use Rattle.mh_inline.specs.code.ProductiveMarks.{IsFirstUnmarked, HasEmptyStart};
ghost use Rattle.mh_inline.specs.GrammarOfInstances.{HasNoInlineStart, IsWithinLimits, IsGrammarOf};
ghost use Rattle.mh_inline.specs.Faults.{IsFault, IsFirstInlineStartAt, IsInstanceNamed};
ghost use Rattle.mh_inline.specs.code.DepthFirst.{IsDepthSearch};
ghost use Rattle.mh_inline.specs.Sentences.{KeepsSentences};

use crate::cycles::first_cyclic;
use crate::depth::{DepthSearch, depth_first};
use crate::fault::InlineFault;
use crate::nonterminals::{nonterminals_of, numbers_of, starts_of};
use crate::origins::{Origin, origins_of};
use crate::productions::{productions_of, size_of_origins};
use crate::sizes::inline_sizes;
use crate::unfoldings::unfold_inline;
use mh_grammar::{Grammar, Memory, Name, Production, Sequence, TokenInfo, productive};
use mh_inline_unfold::{SizeTable, is_inline, is_small};
use mh_rules::Expanded;
use std::alloc::Global;

fn name_of(expanded: &Expanded, number: usize) -> Result<Name, Memory>
    requires { number < length expanded.now.instances }
    ensures { IfOk result (IsInstanceNamed expanded.now number) }
{
    Ok(expanded.instances[number].name.clone()?)
}

/// The number of the first start symbol that is inline.
fn first_inline_start(expanded: &Expanded) -> Option<u32>
    ensures { MatchOption result (HasNoInlineStart expanded.now) (IsFirstInlineStartAt expanded.now) }
{
    for start in expanded.starts.as_slice() {
        if is_inline(expanded, *start as usize) {
            return Some(*start);
        }
    }
    None
}

/// The position of the first start symbol that is not marked as productive.
fn first_empty(marks: &[bool], starts: &[u16]) -> Option<usize>
    requires { All (λ s. s < length marks.now) starts.now }
    ensures { MatchOption result (All (λ s. slice_index_or marks.now s false ≡ true) starts.now) (IsFirstUnmarked marks.now starts.now) }
{
    for (place, start) in starts.iter().enumerate() {
        if !marks[usize::from(*start)] {
            return Some(place);
        }
    }
    None
}

fn cycle_fault(expanded: &Expanded, number: usize) -> InlineFault
    requires { IsFirstCyclicAt expanded.now number }
    ensures { IsFault expanded.now result }
{
    match name_of(expanded, number) {
        Ok(instance) => InlineFault::InlineCycle { instance },
        Err(_) => InlineFault::Memory,
    }
}

fn start_fault(expanded: &Expanded, number: usize) -> InlineFault
    requires ready { IsExpandedReady expanded.now }
    requires acyclic { HasNoCycle expanded.now }
    requires first { IsFirstInlineStartAt expanded.now number }
    ensures { IsFault expanded.now result }
{
    match name_of(expanded, number) {
        Ok(name) => InlineFault::InlineStart { name },
        Err(_) => InlineFault::Memory,
    }
}

fn empty_fault(expanded: &Expanded, place: usize) -> InlineFault
    requires ready { IsExpandedReady expanded.now }
    requires empty { HasEmptyStart expanded.now place }
    ensures { IsFault expanded.now result }
{
    match name_of(expanded, expanded.starts[place] as usize) {
        Ok(name) => InlineFault::EmptyLanguage { name },
        Err(_) => InlineFault::Memory,
    }
}

fn tokens_of(expanded: &Expanded) -> Result<Sequence<TokenInfo>, Memory>
    ensures { IfOk result (λ tokens. tokens ≡ expanded.now.tokens) }
{
    Ok(expanded.tokens.clone()?)
}

/// The productions of the alternatives, in order.
fn all_productions(
    alloc: Global,
    expanded: &Expanded,
    sizing: &SizeTable,
    origins: &[Origin],
    numbers: &[u16],
) -> Result<Vec<Production>, Memory>
    requires ready { IsExpandedReady expanded.now }
    requires sizing { IsSizeTable expanded.now.instances sizing.now }
    requires sized { AreAllSized expanded.now.instances sizing.now.sizes.items }
    requires origins { AreOrigins expanded.now.instances origins.now }
    requires small { AreOriginsSmall expanded.now.tokens expanded.now.instances origins.now }
    requires numbers { AreNumbers expanded.now.instances numbers.now }
    ensures { IfOk result (λ v. AreProductions expanded.now.tokens expanded.now.instances origins.now v.items) }
{
    let known = unfold_inline(alloc, expanded, sizing)?;
    productions_of(alloc, expanded, &known, numbers, origins)
}

/// The grammar of these alternatives, where `numbers` gives the number of each instance as a nonterminal.
fn grammar_by(
    alloc: Global,
    expanded: &Expanded,
    sizing: &SizeTable,
    origins: &[Origin],
    numbers: &[u16],
) -> Result<Grammar, Memory>
    requires ready { IsExpandedReady expanded.now }
    requires sizing { IsSizeTable expanded.now.instances sizing.now }
    requires sized { AreAllSized expanded.now.instances sizing.now.sizes.items }
    requires origins { AreOrigins expanded.now.instances origins.now }
    requires small { AreOriginsSmall expanded.now.tokens expanded.now.instances origins.now }
    requires numbers { AreNumbers expanded.now.instances numbers.now }
    ensures inlined { IfOk result (IsInlined expanded.now) }
    ensures small { IfOk result IsWithinLimits }
{
    let starts = starts_of(alloc, expanded.starts.as_slice(), numbers)?;
    let nonterminals = nonterminals_of(alloc, expanded.instances.as_slice())?;
    let productions = all_productions(alloc, expanded, sizing, origins, numbers)?;
    Ok(Grammar {
        tokens: tokens_of(expanded)?,
        nonterminals: Sequence::from_vec(nonterminals),
        productions: Sequence::from_vec(productions),
        starts: Sequence::from_vec(starts),
    })
}

/// The grammar of these alternatives.
fn grammar_of(
    alloc: Global,
    expanded: &Expanded,
    sizing: &SizeTable,
    origins: &[Origin],
) -> Result<Grammar, Memory>
    requires ready { IsExpandedReady expanded.now }
    requires sizing { IsSizeTable expanded.now.instances sizing.now }
    requires sized { AreAllSized expanded.now.instances sizing.now.sizes.items }
    requires origins { AreOrigins expanded.now.instances origins.now }
    requires small { AreOriginsSmall expanded.now.tokens expanded.now.instances origins.now }
    ensures inlined { IfOk result (IsInlined expanded.now) }
    ensures small { IfOk result IsWithinLimits }
{
    let numbers = numbers_of(alloc, expanded.instances.as_slice())?;
    grammar_by(alloc, expanded, sizing, origins, &numbers)
}

/// The grammar, or a fault if a start symbol has no finite tree.
fn with_trees(alloc: Global, expanded: &Expanded, grammar: Grammar) -> Result<Grammar, InlineFault>
    requires ready { IsExpandedReady expanded.now }
    requires acyclic { HasNoCycle expanded.now }
    requires kept { HasNoInlineStart expanded.now }
    requires inlined { IsInlined expanded.now grammar }
    requires small { IsWithinLimits grammar }
    ensures grammar { IfOk result (IsGrammarOf expanded.now) }
    ensures fault { IfErr result (IsFault expanded.now) }
{
    let marks = productive(alloc, &grammar)?;
    match first_empty(marks.as_slice(), grammar.starts.as_slice()) {
        Some(place) => Err(empty_fault(expanded, place)),
        None => Ok(grammar),
    }
}

/// The grammar or the first fault, if no start symbol is inline and no instance reaches itself.
fn inline_kept(
    alloc: Global,
    expanded: &Expanded,
    sizing: &SizeTable,
) -> Result<Grammar, InlineFault>
    requires ready { IsExpandedReady expanded.now }
    requires sizing { IsSizeTable expanded.now.instances sizing.now }
    requires sized { AreAllSized expanded.now.instances sizing.now.sizes.items }
    requires acyclic { HasNoCycle expanded.now }
    requires kept { HasNoInlineStart expanded.now }
    ensures grammar { IfOk result (IsGrammarOf expanded.now) }
    ensures fault { IfErr result (IsFault expanded.now) }
{
    let origins = origins_of(alloc, expanded)?;
    let size = size_of_origins(expanded, sizing, origins.as_slice());
    if !is_small(Some(size)) {
        return Err(InlineFault::TooManyProductions);
    }
    let grammar = grammar_of(alloc, expanded, sizing, origins.as_slice())?;
    with_trees(alloc, expanded, grammar)
}

/// The grammar or the first fault, where `cyclic` is the first instance that reaches itself, if there is one.
fn inline_unless_cyclic(
    alloc: Global,
    expanded: &Expanded,
    sizing: &SizeTable,
    cyclic: Option<usize>,
) -> Result<Grammar, InlineFault>
    requires ready { IsExpandedReady expanded.now }
    requires sizing { IsSizeTable expanded.now.instances sizing.now }
    requires first { MatchOption cyclic (HasNoCycle expanded.now) (IsFirstCyclicAt expanded.now) }
    requires sized { IfNone cyclic (AreAllSized expanded.now.instances sizing.now.sizes.items) }
    ensures grammar { IfOk result (IsGrammarOf expanded.now) }
    ensures fault { IfErr result (IsFault expanded.now) }
{
    if let Some(number) = cyclic {
        return Err(cycle_fault(expanded, number));
    }
    if let Some(number) = first_inline_start(expanded) {
        return Err(start_fault(expanded, number as usize));
    }
    inline_kept(alloc, expanded, sizing)
}

/// The grammar or the first fault, after the depth-first search.
fn inline_searched(
    alloc: Global,
    expanded: &Expanded,
    search: &DepthSearch,
) -> Result<Grammar, InlineFault>
    requires ready { IsExpandedReady expanded.now }
    requires search { IsDepthSearch (length expanded.now.instances) search.now }
    ensures grammar { IfOk result (IsGrammarOf expanded.now) }
    ensures fault { IfErr result (IsFault expanded.now) }
{
    let sizing = inline_sizes(alloc, expanded, search.finished.as_slice())?;
    let cyclic = first_cyclic(alloc, expanded, &sizing, search.ranks.as_slice())?;
    inline_unless_cyclic(alloc, expanded, &sizing, cyclic)
}

/// Computes the grammar of expanded instances: each inline producer is replaced by each of its own alternatives,
/// themselves fully inlined (Menhir manual, `%inline`). Each start symbol has the same sentences as before.
///
/// An alternative gives one production for each choice of alternatives for its inline producers; the choice for the
/// leftmost producer varies slowest. The production takes the `%prec` of the alternative itself, else that of the
/// rightmost inlined alternative that has one; without any `%prec`, its level is that of its rightmost token. The
/// productions have the order of their alternatives: by file, in the order of the command line with the prelude last;
/// by position in the file; by instance; and then in the order of the choices. The nonterminals are the instances that
/// are not inline, in their order.
///
/// Returns the first of these faults, if there is one: `InlineCycle` with the first instance that reaches itself
/// through inline instances; `InlineStart` with the first start symbol that is inline; `TooManyProductions` for more
/// than 20,000 productions, or more than 10,000 symbols in one of them, which are counted before any production is
/// made; `EmptyLanguage` with the first start symbol that has no finite tree. Returns `Memory` only if memory runs out.
pub fn inline_rules(alloc: Global, expanded: &Expanded) -> Result<Grammar, InlineFault>
    requires { IsExpandedReady expanded.now }
    ensures grammar { IfOk result (IsGrammarOf expanded.now) }
    ensures fault { IfErr result (IsFault expanded.now) }
    ensures range { IfOk result (λ g. IsInRange (plain_of g)) }
    ensures distinct { IfOk result (λ g. AreDistinct g.starts) }
    ensures sentences { IfOk result (KeepsSentences expanded.now) }
{
    let search = depth_first(alloc, expanded)?;
    inline_searched(alloc, expanded, &search)
}
