//! The lexicographic comparison of two words by their parts, without writing the words out.
ghost use Rattle.std.specs.Prelude.{◌≡◌, ◌<◌, ◌++◌, ◌∷◌, [], IfOk, OnOk, length, slice_get};
ghost use Rattle.mh_reach_words.specs.code.Comparison.{AreTops, IsComparison, IsEntryOf, IsTokenComparison, ReplacesByParts, TakesTop, IsComparisonStep, top_of};
ghost use Rattle.mh_reach_words.specs.code.Words.{AreSoundEntries, HasParts, group_of, spelled, words_of};
ghost use Rattle.mh_reach_words.specs.declared.word_parts.LastPart.TheVariants as lasts;

use crate::word_parts::{LastPart, WordEntry, WordParts};
use mh_grammar::{Memory, Token};
use std::alloc::Global;
use std::cmp::Ordering;

/// The parts of two words that are still to be compared, as two stacks with the first part on top. (They are not rests
/// of paths as in `mh_reach_rests`.)
pub struct Rests {
    pub left: Vec<LastPart>,
    pub right: Vec<LastPart>,
}

// The exit of a function drops this value by one call. With the derived destructor it would drop each field.
impl Drop for Rests {
    fn drop(self) {
        let Rests { left, right } = self;
        drop(left);
        drop(right);
    }
}

/// Two empty stacks.
pub fn no_rests(alloc: Global) -> Rests {
    Rests {
        left: Vec::new(alloc),
        right: Vec::new(alloc),
    }
}

/// Pushes the parts of a word.
fn put_parts(parts: &mut Vec<LastPart>, made: WordParts) -> Result<(), Memory>
    ensures { OnOk result (parts.new.items ≡ (parts.old.items ++ made.last ∷ []) ++ lasts.Word made.front ∷ []) }
{
    parts.push(made.last)?;
    parts.push(LastPart::Word(made.front))?;
    Ok(())
}

/// The entry at an index, if there is one.
fn get(entries: &[WordEntry], place: usize) -> Option<WordEntry>
    ensures { result ≡ slice_get entries.now place }
{
    entries.get(place).copied()
}

/// The entry of a word, none for the empty word.
fn entry_at(entries: &[WordEntry], number: usize) -> Option<WordEntry>
    requires { number < length (words_of entries.now) }
    ensures { IsEntryOf entries.now number result }
{
    if number == 0 {
        return None;
    }
    get(entries, number - 1)
}

/// The group of a word.
fn group_at(entries: &[WordEntry], number: usize) -> u32
    requires { number < length (words_of entries.now) }
    ensures { result ≡ group_of (words_of entries.now) number }
{
    match entry_at(entries, number) {
        None => 0,
        Some(entry) => entry.group,
    }
}

/// Pushes the parts of the word of a number; the empty word has none.
pub(crate) fn open(
    entries: &[WordEntry],
    parts: &mut Vec<LastPart>,
    number: usize,
) -> Result<(), Memory>
    requires sound { AreSoundEntries entries.now }
    requires known { number < length (words_of entries.now) }
    ensures { OnOk result (ReplacesByParts (words_of entries.now) number parts.old.items parts.new.items) }
{
    match entry_at(entries, number) {
        None => Ok(()),
        Some(entry) => put_parts(parts, entry.made),
    }
}

/// Pushes a part back, if there is one.
fn put_back(parts: &mut Vec<LastPart>, part: Option<LastPart>) -> Result<(), Memory>
    ensures { OnOk result (parts.new.items ≡ parts.old.items ++ top_of part) }
{
    if let Some(part) = part {
        parts.push(part)?;
    }
    Ok(())
}

/// The order of two tokens, none if they are equal.
fn compare_tokens(one: Token, two: Token) -> Option<Ordering>
    ensures { IsTokenComparison one two result }
{
    if one < two {
        return Some(Ordering::Less);
    }
    if two < one {
        return Some(Ordering::Greater);
    }
    None
}

/// Pushes the left part back, if there is one, and replaces the right word by its parts.
fn open_right(
    entries: &[WordEntry],
    rests: &mut Rests,
    left: Option<LastPart>,
    right: usize,
) -> Result<(), Memory>
    requires sound { AreSoundEntries entries.now }
    requires tops { AreTops (words_of entries.now) rests.old left (Some (lasts.Word right)) }
    ensures { OnOk result (IsComparisonStep (words_of entries.now) rests.old rests.new left (Some (lasts.Word right)) None) }
{
    put_back(&mut rests.left, left)?;
    open(entries, &mut rests.right, right)
}

/// Pushes the right part back, if there is one, and replaces the left word by its parts.
fn open_left(
    entries: &[WordEntry],
    rests: &mut Rests,
    left: usize,
    right: Option<LastPart>,
) -> Result<(), Memory>
    requires sound { AreSoundEntries entries.now }
    requires tops { AreTops (words_of entries.now) rests.old (Some (lasts.Word left)) right }
    ensures { OnOk result (IsComparisonStep (words_of entries.now) rests.old rests.new (Some (lasts.Word left)) right None) }
{
    put_back(&mut rests.right, right)?;
    open(entries, &mut rests.left, left)
}

/// Compares two words at the tops of the stacks. Equal words are dropped. Two words of one group are in the order of
/// their numbers. Else the word of the higher group is replaced by its parts, until equal words are on top of both
/// stacks and can be dropped.
fn turn_words(
    entries: &[WordEntry],
    rests: &mut Rests,
    left: usize,
    right: usize,
) -> Result<Option<Ordering>, Memory>
    requires sound { AreSoundEntries entries.now }
    requires tops { AreTops (words_of entries.now) rests.old (Some (lasts.Word left)) (Some (lasts.Word right)) }
    ensures { IfOk result (IsComparisonStep (words_of entries.now) rests.old rests.new (Some (lasts.Word left)) (Some (lasts.Word right))) }
{
    if left == right {
        return Ok(None);
    }
    let left_group = group_at(entries, left);
    let right_group = group_at(entries, right);
    if left_group < right_group {
        open_right(entries, rests, Some(LastPart::Word(left)), right)?;
        return Ok(None);
    }
    if right_group < left_group {
        open_left(entries, rests, left, Some(LastPart::Word(right)))?;
        return Ok(None);
    }
    if left < right {
        return Ok(Some(Ordering::Less));
    }
    Ok(Some(Ordering::Greater))
}

/// Compares the top parts of two words; none if they do not decide the order.
fn turn_both(
    entries: &[WordEntry],
    rests: &mut Rests,
    left: LastPart,
    right: LastPart,
) -> Result<Option<Ordering>, Memory>
    requires sound { AreSoundEntries entries.now }
    requires tops { AreTops (words_of entries.now) rests.old (Some left) (Some right) }
    ensures { IfOk result (IsComparisonStep (words_of entries.now) rests.old rests.new (Some left) (Some right)) }
{
    match (left, right) {
        (LastPart::Token(one), LastPart::Token(two)) => Ok(compare_tokens(one, two)),
        (LastPart::Word(one), LastPart::Word(two)) => turn_words(entries, rests, one, two),
        (LastPart::Token(_), LastPart::Word(two)) => {
            open_right(entries, rests, Some(left), two)?;
            Ok(None)
        }
        (LastPart::Word(one), LastPart::Token(_)) => {
            open_left(entries, rests, one, Some(right))?;
            Ok(None)
        }
    }
}

/// Compares the top part of the right word with a left word that has ended.
fn left_ended(
    entries: &[WordEntry],
    rests: &mut Rests,
    right: LastPart,
) -> Result<Option<Ordering>, Memory>
    requires sound { AreSoundEntries entries.now }
    requires tops { AreTops (words_of entries.now) rests.old None (Some right) }
    ensures { IfOk result (IsComparisonStep (words_of entries.now) rests.old rests.new None (Some right)) }
{
    match right {
        LastPart::Token(_) => Ok(Some(Ordering::Less)),
        LastPart::Word(number) => {
            open_right(entries, rests, None, number)?;
            Ok(None)
        }
    }
}

/// Compares the top part of the left word with a right word that has ended.
fn right_ended(
    entries: &[WordEntry],
    rests: &mut Rests,
    left: LastPart,
) -> Result<Option<Ordering>, Memory>
    requires sound { AreSoundEntries entries.now }
    requires tops { AreTops (words_of entries.now) rests.old (Some left) None }
    ensures { IfOk result (IsComparisonStep (words_of entries.now) rests.old rests.new (Some left) None) }
{
    match left {
        LastPart::Token(_) => Ok(Some(Ordering::Greater)),
        LastPart::Word(number) => {
            open_left(entries, rests, number, None)?;
            Ok(None)
        }
    }
}

/// One step of a comparison, by the top parts of the two words; a word without a top part has ended.
fn turn(
    entries: &[WordEntry],
    rests: &mut Rests,
    left: Option<LastPart>,
    right: Option<LastPart>,
) -> Result<Option<Ordering>, Memory>
    requires sound { AreSoundEntries entries.now }
    requires tops { AreTops (words_of entries.now) rests.old left right }
    ensures { IfOk result (IsComparisonStep (words_of entries.now) rests.old rests.new left right) }
{
    match (left, right) {
        (None, None) => Ok(Some(Ordering::Equal)),
        (None, Some(right)) => left_ended(entries, rests, right),
        (Some(left), None) => right_ended(entries, rests, left),
        (Some(left), Some(right)) => turn_both(entries, rests, left, right),
    }
}

/// Takes the top part off a stack, if there is one.
pub(crate) fn take_top(parts: &mut Vec<LastPart>) -> Option<LastPart>
    ensures { TakesTop parts.old.items parts.new.items result }
{
    parts.pop()
}

/// Compares two words lexicographically. The stacks are scratch space and are cleared first. Fails only if memory
/// runs out.
pub fn compare(
    entries: &[WordEntry],
    rests: &mut Rests,
    left: WordParts,
    right: WordParts,
) -> Result<Ordering, Memory>
    requires sound { AreSoundEntries entries.now }
    requires left { HasParts (words_of entries.now) left }
    requires right { HasParts (words_of entries.now) right }
    ensures { IfOk result (IsComparison (spelled (words_of entries.now) left) (spelled (words_of entries.now) right)) }
{
    rests.left.clear();
    rests.right.clear();
    put_parts(&mut rests.left, left)?;
    put_parts(&mut rests.right, right)?;
    'parts: loop {
        let one = take_top(&mut rests.left);
        let two = take_top(&mut rests.right);
        match turn(entries, rests, one, two)? {
            None => {}
            Some(ordering) => return Ok(ordering),
        }
    }
}
