//! Reads the kernels of the states.
ghost use Rattle.std.specs.Prelude.{◌≡◌, ◌<◌, ◌≤◌, ◌↔◌, [], ◌∷◌, length, IsTrue, IfOk, OnOk};
ghost use Rattle.std.specs.List.{AllByRecursion};
ghost use Rattle.mh_items_kernels.specs.Automaton.{start_kernel};
ghost use Rattle.mh_msgfile.specs.Sentences.{vocabulary_in, vocabulary_of};
ghost use Rattle.mh_validate_valid.specs.Valid.{AreTokenNamesDistinct, HasKernel, raw_state};
ghost use Rattle.mh_validate.specs.code.LooksAndItems.{FindsOne, IsNonStartItem, MayHaveItems};
ghost use Rattle.mh_validate.specs.code.FirstKernels.{AreFirstKernels};
ghost use Rattle.mh_items.specs.Fitting.{FitsSets};

use crate::items::items_of;
use mh_grammar::{Grammar, Memory, Sequence};
use mh_items_kernels::{Kernel, KernelItem};
use mh_msgfile::Lexicon;
use mh_tabfile_form::{RawItem, RawTable};
use mh_validate_valid::{is_end, is_moved};
use std::alloc::Global;

/// The item lines of a state.
fn items_at(raw: &RawTable, state: usize) -> &[RawItem]
    requires { state < length raw.now.states }
    ensures { result.now ≡ (raw_state raw.now state).items }
{
    raw.states[state].items.as_slice()
}

fn are_moved<const W: usize>(grammar: &Grammar, items: &[KernelItem<W>]) -> bool
    requires few { W ≤ 8 }
    ensures { IsTrue result ↔ AllByRecursion (IsNonStartItem grammar.now) items.now }
{
    for at in 0..items.len() {
        if !is_moved(grammar, &items[at]) {
            return false;
        }
    }
    true
}

/// Returns true if the items are those of the start kernel of this start symbol.
fn is_start<const W: usize>(items: &[KernelItem<W>], start: usize) -> bool
    requires few { W ≤ 8 }
    ensures { IsTrue result ↔ (items.now ≡ (start_kernel start).items) }
{
    if items.len() != 1 {
        return false;
    }
    is_start_item(&items[0], start)
}

fn is_start_item<const W: usize>(item: &KernelItem<W>, start: usize) -> bool
    requires few { W ≤ 8 }
    ensures { IsTrue result ↔ (item.now ∷ [] ≡ (start_kernel start).items) }
{
    item.production as usize == start && item.dot == 0 && is_end(&item.looks)
}

/// Returns true if these items, in rising order, can be the kernel of the state. A start state has its start kernel.
/// Any other kernel has at least one item, and each of its items has its dot after a symbol.
fn may_have<const W: usize>(grammar: &Grammar, state: usize, items: &[KernelItem<W>]) -> bool
    requires few { W ≤ 8 }
    ensures { IsTrue result ↔ MayHaveItems grammar.now state items.now }
{
    if state < grammar.starts.len() {
        is_start(items, state)
    } else {
        !items.is_empty() && are_moved(grammar, items)
    }
}

/// The kernel of a state, if the items of the file can be its kernel.
fn kernel_at<const W: usize>(
    alloc: Global,
    grammar: &Grammar,
    lexicon: &Lexicon,
    raw: &RawTable,
    state: usize,
) -> Result<Option<Kernel<W>>, Memory>
    requires fits { FitsSets W grammar.now }
    requires distinct_names { AreTokenNamesDistinct grammar.now }
    requires lexicon { vocabulary_in lexicon.now ≡ vocabulary_of grammar.now }
    requires state { state < length raw.now.states }
    ensures { IfOk result (FindsOne (HasKernel grammar.now raw.now state)) }
{
    let Some(items) = items_of(alloc, grammar, lexicon, items_at(raw, state))? else {
        return Ok(None);
    };
    if !may_have(grammar, state, items.as_slice()) {
        return Ok(None);
    }
    Ok(Some(Kernel { items }))
}

/// Appends the kernels of the first states, up to the first state that has none.
fn fill_kernels<const W: usize>(
    alloc: Global,
    grammar: &Grammar,
    lexicon: &Lexicon,
    raw: &RawTable,
    kernels: &mut Vec<Kernel<W>>,
) -> Result<(), Memory>
    requires fits { FitsSets W grammar.now }
    requires distinct_names { AreTokenNamesDistinct grammar.now }
    requires lexicon { vocabulary_in lexicon.now ≡ vocabulary_of grammar.now }
    requires fresh { kernels.old.items ≡ [] }
    ensures { OnOk result (AreFirstKernels grammar.now raw.now kernels.new.items) }
{
    for state in 0..raw.states.len() {
        let Some(kernel) = kernel_at(alloc, grammar, lexicon, raw, state)? else {
            return Ok(());
        };
        kernels.push(kernel)?;
    }
    Ok(())
}

/// Appends the kernels of the first states, as far as they are right, with a lexicon of its own. The lexicon is dropped
/// in one place, on success and on failure.
fn find_kernels<const W: usize>(
    alloc: Global,
    grammar: &Grammar,
    raw: &RawTable,
    kernels: &mut Vec<Kernel<W>>,
) -> Result<(), Memory>
    requires fits { FitsSets W grammar.now }
    requires distinct_names { AreTokenNamesDistinct grammar.now }
    requires fresh { kernels.old.items ≡ [] }
    ensures { OnOk result (AreFirstKernels grammar.now raw.now kernels.new.items) }
{
    let lexicon = Lexicon::new(alloc, grammar)?;
    let filled = fill_kernels(alloc, grammar, &lexicon, raw, kernels);
    // The lexicon is dropped only here, because the proof that drops its many fields takes long.
    drop(lexicon);
    filled
}

/// The kernels of the first states, up to the first state that has none. Fails only if memory runs out.
pub(crate) fn first_kernels<const W: usize>(
    alloc: Global,
    grammar: &Grammar,
    raw: &RawTable,
) -> Result<Vec<Kernel<W>>, Memory>
    requires fits { FitsSets W grammar.now }
    requires distinct_names { AreTokenNamesDistinct grammar.now }
    ensures { IfOk result (λ v. AreFirstKernels grammar.now raw.now v.items) }
{
    let mut kernels = Vec::with_capacity(alloc, raw.states.len())?;
    find_kernels(alloc, grammar, raw, &mut kernels)?;
    Ok(kernels)
}
