//! Parses the words of a line.
ghost use Rattle.std.specs.Prelude.{◌≡◌, [], map, OnOk, Some};
ghost use Rattle.std.specs.List.{list_all};
ghost use Rattle.mh_tabfile_read.specs.code.Words as words_read;
ghost use Rattle.mh_tabfile_read.specs.code.Numbers.{number_of as number_read};
ghost use Rattle.mh_tabfile_read.specs.code.Words.{AgreesWith, is_name as is_name_text, same_word};

use crate::advance::LineRefusal;
use crate::numbers::number_of;
use crate::places::LineKind;
use mh_grammar::{Memory, Name, Sequence, from_bytes};
use mh_resolve_cells::Mode;
use mh_tabfile_form::{Names, RawCell, RawEdge, RawItem, RawProduction};
use mh_tables_core::{Action, Fallback};
use std::alloc::Global;

/// Returns true if the two words are equal.
pub(crate) fn is_word(word: &[u8], other: &[u8]) -> bool
    ensures { result ≡ same_word word.now other.now }
{
    word == other
}

fn is_name(word: &[u8]) -> bool
    ensures { result ≡ is_name_text word.now }
{
    match word {
        [] => false,
        [_, ..] => true,
    }
}

fn copied(alloc: Global, word: &[u8]) -> Result<Name, LineRefusal>
    ensures { AgreesWith (Some word.now) result }
{
    let Ok(name) = from_bytes(alloc, word) else {
        return Err(LineRefusal::Memory);
    };
    Ok(name)
}

fn are_names(words: &[&[u8]]) -> bool
    ensures { result ≡ list_all is_name_text (map (λ w. w.now) words.now) }
{
    for word in words {
        if !is_name(word) {
            return false;
        }
    }
    true
}

/// Appends a copy of each word.
fn put_copies(alloc: Global, names: &mut Sequence<Name>, words: &[&[u8]]) -> Result<(), Memory>
    requires { names.old ≡ [] }
    ensures { OnOk result (names.new ≡ map (λ w. w.now) words.now) }
{
    for word in words {
        let name = from_bytes(alloc, word)?;
        names.push(name)?;
    }
    Ok(())
}

/// The words as names, if none of them is empty.
#[tactic(auto, unfolding(crate::specs::code::Words::names_of))]
pub(crate) fn names_of(alloc: Global, words: &[&[u8]]) -> Result<Sequence<Name>, LineRefusal>
    ensures { AgreesWith (words_read.names_of (map (λ w. w.now) words.now)) result }
{
    if !are_names(words) {
        return Err(LineRefusal::Unexpected);
    }
    let Ok(room) = Vec::with_capacity(alloc, words.len()) else {
        return Err(LineRefusal::Memory);
    };
    let mut names = Sequence::from_vec(room);
    match put_copies(alloc, &mut names, words) {
        Ok(()) => Ok(names),
        Err(Memory) => Err(LineRefusal::Memory),
    }
}

/// The words as the names of looks, if none of them is empty.
#[tactic(auto, unfolding(crate::specs::code::Words::names_of))]
fn looks_of(alloc: Global, words: &[&[u8]]) -> Result<Names, LineRefusal>
    ensures { AgreesWith (words_read.names_of (map (λ w. w.now) words.now)) result }
{
    if !are_names(words) {
        return Err(LineRefusal::Unexpected);
    }
    match Names::from_words(alloc, words) {
        Ok(names) => Ok(names),
        Err(Memory) => Err(LineRefusal::Memory),
    }
}

pub(crate) fn number(word: &[u8]) -> Result<u32, LineRefusal>
    ensures { AgreesWith (number_read word.now) result }
{
    match number_of(word) {
        Some(number) => Ok(number),
        None => Err(LineRefusal::Unexpected),
    }
}

/// The numbers that the words spell, if each word spells one.
pub(crate) fn numbers_of(alloc: Global, words: &[&[u8]]) -> Result<Sequence<u32>, LineRefusal>
    ensures { AgreesWith (words_read.numbers_of (map (λ w. w.now) words.now)) result }
{
    let mut numbers = Sequence::new(alloc);
    for word in words {
        let Some(number) = number_of(word) else {
            return Err(LineRefusal::Unexpected);
        };
        let Ok(()) = numbers.push(number) else {
            return Err(LineRefusal::Memory);
        };
    }
    Ok(numbers)
}

/// The mode that the word names.
#[tactic(auto, unfolding(crate::specs::code::Words::mode_of))]
pub(crate) fn mode_in(word: &[u8]) -> Option<Mode>
    ensures { result ≡ words_read.mode_of word.now }
{
    if is_word(word, b"merged") {
        return Some(Mode::Merged);
    }
    if is_word(word, b"canonical") {
        return Some(Mode::Canonical);
    }
    None
}

pub(crate) fn mode_of(word: &[u8]) -> Result<Mode, LineRefusal>
    ensures { AgreesWith (words_read.mode_of word.now) result }
{
    match mode_in(word) {
        Some(mode) => Ok(mode),
        None => Err(LineRefusal::Unexpected),
    }
}

#[tactic(auto, unfolding(crate::specs::code::Words::kind_of))]
pub(crate) fn kind_of(word: &[u8]) -> LineKind
    ensures { result ≡ words_read.kind_of word.now }
{
    if is_word(word, b"item") {
        LineKind::Item
    } else if is_word(word, b"edge") {
        LineKind::Edge
    } else if is_word(word, b"cell") {
        LineKind::Cell
    } else if is_word(word, b"default") {
        LineKind::Default
    } else if is_word(word, b"state") {
        LineKind::State
    } else if is_word(word, b"end") {
        LineKind::End
    } else if is_word(word, b"menhir-tables") {
        LineKind::Head
    } else if is_word(word, b"tokens") {
        LineKind::Tokens
    } else if is_word(word, b"costs") {
        LineKind::Costs
    } else if is_word(word, b"starts") {
        LineKind::Starts
    } else if is_word(word, b"productions") {
        LineKind::Productions
    } else if is_word(word, b"states") {
        LineKind::States
    } else {
        LineKind::Other
    }
}

#[tactic(auto, unfolding(crate::specs::code::Words::count_of))]
pub(crate) fn count_of(words: &[&[u8]]) -> Result<u32, LineRefusal>
    ensures { AgreesWith (words_read.count_of (map (λ w. w.now) words.now)) result }
{
    match words {
        [word] => number(word),
        _ => Err(LineRefusal::Unexpected),
    }
}

#[tactic(auto, unfolding(crate::specs::code::Words::production_of))]
pub(crate) fn production_of(alloc: Global, words: &[&[u8]]) -> Result<RawProduction, LineRefusal>
    ensures { AgreesWith (words_read.production_of (map (λ w. w.now) words.now)) result }
{
    match words {
        [lhs, arrow, rhs @ ..] => {
            if !is_name(lhs) || !is_word(arrow, b"->") {
                return Err(LineRefusal::Unexpected);
            }
            let rhs = names_of(alloc, rhs)?;
            let lhs = copied(alloc, lhs)?;
            Ok(RawProduction { lhs, rhs })
        }
        _ => Err(LineRefusal::Unexpected),
    }
}

#[tactic(auto, unfolding(crate::specs::code::Words::item_of))]
pub(crate) fn item_of(alloc: Global, words: &[&[u8]]) -> Result<RawItem, LineRefusal>
    ensures { AgreesWith (words_read.item_of (map (λ w. w.now) words.now)) result }
{
    match words {
        [production, dot, looks @ ..] => {
            let production = number(production)?;
            let dot = number(dot)?;
            let looks = looks_of(alloc, looks)?;
            Ok(RawItem {
                production,
                dot,
                looks,
            })
        }
        _ => Err(LineRefusal::Unexpected),
    }
}

#[tactic(auto, unfolding(crate::specs::code::Words::edge_of))]
pub(crate) fn edge_of(alloc: Global, words: &[&[u8]]) -> Result<RawEdge, LineRefusal>
    ensures { AgreesWith (words_read.edge_of (map (λ w. w.now) words.now)) result }
{
    match words {
        [symbol, target] => {
            if !is_name(symbol) {
                return Err(LineRefusal::Unexpected);
            }
            let target = number(target)?;
            let symbol = copied(alloc, symbol)?;
            Ok(RawEdge { symbol, target })
        }
        _ => Err(LineRefusal::Unexpected),
    }
}

#[tactic(auto, unfolding(crate::specs::code::Words::action_of))]
fn action_of(verb: &[u8], word: &[u8]) -> Result<Action, LineRefusal>
    ensures { AgreesWith (words_read.action_of verb.now word.now) result }
{
    if is_word(verb, b"shift") {
        let target = number(word)?;
        return Ok(Action::Shift(target));
    }
    if is_word(verb, b"reduce") {
        let production = number(word)?;
        return Ok(Action::Reduce(production));
    }
    Err(LineRefusal::Unexpected)
}

#[tactic(auto, unfolding(crate::specs::code::Words::cell_of))]
pub(crate) fn cell_of(alloc: Global, words: &[&[u8]]) -> Result<RawCell, LineRefusal>
    ensures { AgreesWith (words_read.cell_of (map (λ w. w.now) words.now)) result }
{
    match words {
        [token, verb, word] => {
            if !is_name(token) {
                return Err(LineRefusal::Unexpected);
            }
            let action = action_of(verb, word)?;
            let token = copied(alloc, token)?;
            Ok(RawCell { token, action })
        }
        _ => Err(LineRefusal::Unexpected),
    }
}

#[tactic(auto, unfolding(crate::specs::code::Words::fallback_of))]
pub(crate) fn fallback_of(words: &[&[u8]]) -> Result<Fallback, LineRefusal>
    ensures { AgreesWith (words_read.fallback_of (map (λ w. w.now) words.now)) result }
{
    match words {
        [verb] => {
            if is_word(verb, b"accept") {
                Ok(Fallback::Accept)
            } else {
                Err(LineRefusal::Unexpected)
            }
        }
        [verb, word] => {
            if is_word(verb, b"reduce") {
                let production = number(word)?;
                Ok(Fallback::Reduce(production))
            } else {
                Err(LineRefusal::Unexpected)
            }
        }
        _ => Err(LineRefusal::Unexpected),
    }
}
