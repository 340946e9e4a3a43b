//! Reads kernel items from their lines.
ghost use Rattle.std.specs.Prelude.{◌≡◌, ◌<◌, ◌≤◌, ◌+◌, ◌↔◌, length, take, IsTrue, IfOk, IfSome};
ghost use Rattle.mh_grammar.specs.Plain.{plain_of, rhs_of, IsInRange};
ghost use Rattle.std.specs.List.{Contains};
ghost use Rattle.mh_grammar.specs.Edges.{IsRising};
ghost use Rattle.mh_items_kernels.specs.KernelTypes.{KernelItem as ItemOf};
ghost use Rattle.mh_items_kernels.specs.Kernels.{IsItemBefore};
ghost use Rattle.mh_msgfile.specs.Sentences.{vocabulary_in, vocabulary_of};
ghost use Rattle.mh_validate_valid.specs.Valid.{AreTokenNamesDistinct};
ghost use Rattle.mh_validate.specs.code.LooksAndItems.{FindsOne, IsItemOf, AreItemsOf, AreLooksOf};
ghost use Rattle.mh_items.specs.Fitting.{FitsSets};

use crate::looks::looks_of;
use mh_grammar::{Grammar, Memory, Sequence};
use mh_items_kernels::KernelItem;
use mh_msgfile::Lexicon;
use mh_sets::TokenSet;
use mh_tabfile_form::{Names, RawItem};
use std::alloc::Global;

/// The number of symbols on the right side of a production.
fn length_of(grammar: &Grammar, production: u32) -> usize
    requires range { IsInRange (plain_of grammar.now) }
    requires production { production < length grammar.now.starts + length grammar.now.productions }
    ensures { result ≡ length (rhs_of (plain_of grammar.now) production) }
{
    let production = production as usize;
    let starts = grammar.starts.len();
    if production < starts {
        return 1;
    }
    grammar.productions[production - starts].rhs.len()
}

/// Returns true if the production exists and the dot is at most the length of its right side.
fn is_place(grammar: &Grammar, production: u32, dot: u32) -> bool
    requires range { IsInRange (plain_of grammar.now) }
    ensures { IsTrue result ↔ ((production < length grammar.now.starts + length grammar.now.productions) × (dot ≤ length (rhs_of (plain_of grammar.now) production))) }
{
    if production as usize >= grammar.starts.len() + grammar.productions.len() {
        return false;
    }
    dot as usize <= length_of(grammar, production)
}

/// The looks of the last item that was read, if its line names the same looks.
fn known_looks<const W: usize>(
    grammar: &Grammar,
    raws: &[RawItem],
    items: &[KernelItem<W>],
    names: &Names,
) -> Option<TokenSet<W>>
    requires few { W ≤ 8 }
    requires read { AreItemsOf grammar.now (take (length items.now) raws.now) items.now }
    ensures { IfSome result (AreLooksOf grammar.now names.now) }
{
    // The argument `grammar` is not used at run time; only the contract mentions it.
    let _grammar = grammar;
    if items.is_empty() {
        return None;
    }
    let last = items.len() - 1;
    let Some(line) = raws.get(last) else {
        return None;
    };
    if !line.looks.is_same(names) {
        return None;
    }
    Some(items[last].looks.copied())
}

/// The looks that the names denote, if each denotes one and they rise. Names with known looks are not looked up.
fn looks_by<const W: usize>(
    grammar: &Grammar,
    lexicon: &Lexicon,
    known: Option<TokenSet<W>>,
    names: &Names,
) -> Option<TokenSet<W>>
    requires fits { FitsSets W grammar.now }
    requires distinct_names { AreTokenNamesDistinct grammar.now }
    requires lexicon { vocabulary_in lexicon.now ≡ vocabulary_of grammar.now }
    requires known { IfSome known (AreLooksOf grammar.now names.now) }
    ensures { FindsOne (AreLooksOf grammar.now names.now) result }
{
    match known {
        Some(looks) => Some(looks),
        None => looks_of(grammar, lexicon, names),
    }
}

/// The item that a line spells, if it is a kernel item of the grammar.
fn item_of<const W: usize>(
    grammar: &Grammar,
    lexicon: &Lexicon,
    known: Option<TokenSet<W>>,
    raw: &RawItem,
) -> Option<KernelItem<W>>
    requires fits { FitsSets W grammar.now }
    requires distinct_names { AreTokenNamesDistinct grammar.now }
    requires lexicon { vocabulary_in lexicon.now ≡ vocabulary_of grammar.now }
    requires known { IfSome known (AreLooksOf grammar.now raw.now.looks) }
    ensures { FindsOne (IsItemOf grammar.now raw.now) result }
{
    if !is_place(grammar, raw.production, raw.dot) {
        return None;
    }
    if raw.looks.len() == 0 {
        return None;
    }
    let Some(looks) = looks_by(grammar, lexicon, known, &raw.looks) else {
        return None;
    };
    Some(KernelItem {
        production: raw.production,
        dot: raw.dot,
        looks,
    })
}

fn is_before<const W: usize>(left: &KernelItem<W>, right: &KernelItem<W>) -> bool
    requires few { W ≤ 8 }
    ensures { IsTrue result ↔ IsItemBefore left.now right.now }
{
    left.production < right.production
        || (left.production == right.production && left.dot < right.dot)
}

/// Returns true if the item is after all items of a rising list.
fn is_after_all<const W: usize>(items: &[KernelItem<W>], item: &KernelItem<W>) -> bool
    requires few { W ≤ 8 }
    requires rising { IsRising IsItemBefore items.now }
    ensures { IsTrue result ↔ ((other : ItemOf) → Contains items.now other → IsItemBefore other item.now) }
{
    if items.is_empty() {
        return true;
    }
    is_before(&items[items.len() - 1], item)
}

/// The items that the lines spell, if each is a kernel item and they rise, else none.
pub(crate) fn items_of<const W: usize>(
    alloc: Global,
    grammar: &Grammar,
    lexicon: &Lexicon,
    raws: &[RawItem],
) -> Result<Option<Sequence<KernelItem<W>>>, Memory>
    requires fits { FitsSets W grammar.now }
    requires distinct_names { AreTokenNamesDistinct grammar.now }
    requires lexicon { vocabulary_in lexicon.now ≡ vocabulary_of grammar.now }
    ensures { IfOk result (FindsOne (AreItemsOf grammar.now raws.now)) }
{
    let mut items = Vec::with_capacity(alloc, raws.len())?;
    for raw in raws {
        let known = known_looks(grammar, raws, items.as_slice(), &raw.looks);
        let Some(item) = item_of(grammar, lexicon, known, raw) else {
            return Ok(None);
        };
        if !is_after_all(items.as_slice(), &item) {
            return Ok(None);
        }
        items.push(item)?;
    }
    Ok(Some(Sequence::from_vec(items)))
}
