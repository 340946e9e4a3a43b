//! The numbering of words in lexicographic order, where equal words get one number.
ghost use Rattle.std.specs.Prelude.{◌≡◌, ◌<◌, ◌+◌, IfOk, IsSome, OnOk, Some, length, slice_get};
ghost use Rattle.std.specs.List.{Contains};
ghost use Rattle.mh_reach_words.specs.code.Numbering.{AddsNew, AreBelowGroup, ArePrefixFree, AreKnown, AreNumbers, IsNumberedUpTo, IsEqual, IsNumberedGroup, IsRepeated, SortsDistinct, InsertsOnce, number_in};
ghost use Rattle.mh_reach_words.specs.code.Sorting.{LexNoLater, IsSorted, HaveSameElements};
ghost use Rattle.mh_reach_words.specs.code.Words.{AreSoundEntries, HasParts, words_of};

use crate::comparing::{Rests, compare, no_rests};
use crate::sorting::sorted;
use crate::spelling::BySpelling;
use crate::word_parts::{WordEntry, WordParts};
use indexmap::{IndexMap, IndexSet};
use mh_grammar::Memory;
use std::alloc::Global;
use std::cmp::Ordering;

/// Inserts the parts of a word into a set.
fn put_once(distinct: &mut IndexSet<WordParts>, made: WordParts) -> Result<(), Memory>
    ensures { OnOk result (InsertsOnce distinct.old.keys distinct.new.keys made) }
{
    distinct.insert(made)?;
    Ok(())
}

/// The set of the given parts, each once.
fn distinct_of(alloc: Global, made: &[WordParts]) -> Result<IndexSet<WordParts>, Memory>
    ensures { IfOk result (λ all. HaveSameElements made.now all.keys) }
{
    let mut distinct = IndexSet::new(alloc);
    for one in made {
        put_once(&mut distinct, *one)?;
    }
    Ok(distinct)
}

/// The word at an index.
fn made_at(made: &[WordParts], place: usize) -> WordParts
    requires { place < length made.now }
    ensures { slice_get made.now place ≡ Some result }
{
    made[place]
}

/// Whether two words are equal.
fn is_equal(
    entries: &[WordEntry],
    rests: &mut Rests,
    left: WordParts,
    right: WordParts,
) -> Result<bool, Memory>
    requires sound { AreSoundEntries entries.now }
    requires left { HasParts (words_of entries.now) left }
    requires right { HasParts (words_of entries.now) right }
    ensures { IfOk result (IsEqual (words_of entries.now) left right) }
{
    match compare(entries, rests, left, right)? {
        Ordering::Equal => Ok(true),
        Ordering::Less | Ordering::Greater => Ok(false),
    }
}

/// Words in lexicographic order, to be numbered as one group.
#[derive(Clone, Copy, Drop)]
struct OrderedWords<'a> {
    group: u32,
    made: &'a [WordParts],
}

/// Whether the word at an index equals the word before it.
fn is_repeated(
    entries: &[WordEntry],
    rests: &mut Rests,
    ordered: &OrderedWords,
    place: usize,
) -> Result<bool, Memory>
    requires sound { AreSoundEntries entries.now }
    requires known { AreKnown (words_of entries.now) ordered.now.made.now }
    requires place { place < length ordered.now.made.now }
    ensures { IfOk result (IsRepeated (words_of entries.now) ordered.now.made.now place) }
{
    if place == 0 {
        return Ok(false);
    }
    let before = made_at(ordered.made, place - 1);
    let made = made_at(ordered.made, place);
    is_equal(entries, rests, before, made)
}

/// Appends the word at an index to the new entries, unless it equals the word before it.
fn add_new(
    entries: &[WordEntry],
    rests: &mut Rests,
    ordered: &OrderedWords,
    place: usize,
    new: &mut Vec<WordEntry>,
) -> Result<(), Memory>
    requires sound { AreSoundEntries entries.now }
    requires known { AreKnown (words_of entries.now) ordered.now.made.now }
    requires place { place < length ordered.now.made.now }
    ensures { OnOk result (AddsNew (words_of entries.now) ordered.now.group ordered.now.made.now place new.old.items new.new.items) }
{
    if is_repeated(entries, rests, ordered, place)? {
        return Ok(());
    }
    let entry = WordEntry {
        made: made_at(ordered.made, place),
        group: ordered.group,
    };
    new.push(entry)?;
    Ok(())
}

/// The new entries so far, and the numbers of the words so far.
#[derive(Drop)]
struct PartialNumbering {
    entries: Vec<WordEntry>,
    numbers: IndexMap<WordParts, usize>,
}

/// Numbers the word at an index; a word that equals the one before it gets the same number.
fn give_one(
    entries: &[WordEntry],
    rests: &mut Rests,
    ordered: &OrderedWords,
    place: usize,
    given: &mut PartialNumbering,
) -> Result<(), Memory>
    requires sound { AreSoundEntries entries.now }
    requires known { AreKnown (words_of entries.now) ordered.now.made.now }
    requires prefix_free { ArePrefixFree (words_of entries.now) ordered.now.made.now }
    requires sorted { IsSorted (LexNoLater (words_of entries.now)) ordered.now.made.now }
    requires place { place < length ordered.now.made.now }
    requires given { IsNumberedUpTo entries.now ordered.now.group ordered.now.made.now place given.old }
    ensures { OnOk result (IsNumberedUpTo entries.now ordered.now.group ordered.now.made.now (place + 1) given.new) }
{
    add_new(entries, rests, ordered, place, &mut given.entries)?;
    let number = entries.len() + given.entries.len();
    given.numbers.insert(made_at(ordered.made, place), number)?;
    Ok(())
}

/// Numbers words that are in order.
fn give(
    alloc: Global,
    entries: &[WordEntry],
    rests: &mut Rests,
    ordered: &OrderedWords,
) -> Result<PartialNumbering, Memory>
    requires sound { AreSoundEntries entries.now }
    requires known { AreKnown (words_of entries.now) ordered.now.made.now }
    requires prefix_free { ArePrefixFree (words_of entries.now) ordered.now.made.now }
    requires sorted { IsSorted (LexNoLater (words_of entries.now)) ordered.now.made.now }
    ensures { IfOk result (λ given. IsNumberedUpTo entries.now ordered.now.group ordered.now.made.now (length ordered.now.made.now) given) }
{
    let mut given = PartialNumbering {
        entries: Vec::new(alloc),
        numbers: IndexMap::new(alloc),
    };
    for place in 0..ordered.made.len() {
        give_one(entries, rests, ordered, place, &mut given)?;
    }
    Ok(given)
}

/// The new entries, and the number of each word in the order of the words.
#[derive(Drop)]
pub struct NumberedWords {
    pub entries: Vec<WordEntry>,
    pub numbers: Vec<usize>,
}

/// The number of a word that was numbered.
fn number_for(given: &PartialNumbering, made: &WordParts) -> usize
    requires { IsSome (number_in given.now made.now) }
    ensures { Some result ≡ number_in given.now made.now }
{
    given.numbers.get(made).copied().unwrap()
}

/// The number of each word, in the order of the words.
fn numbers_of(
    alloc: Global,
    given: &PartialNumbering,
    made: &[WordParts],
) -> Result<Vec<usize>, Memory>
    requires { (m : WordParts) → Contains made.now m → IsSome (number_in given.now m) }
    ensures { IfOk result (λ numbers. AreNumbers given.now made.now numbers.items) }
{
    let mut numbers = Vec::new(alloc);
    for one in made {
        numbers.push(number_for(given, one))?;
    }
    Ok(numbers)
}

/// The given words in lexicographic order; words with the same parts occur once.
fn in_order(
    alloc: Global,
    entries: &[WordEntry],
    rests: &mut Rests,
    made: &[WordParts],
) -> Result<Vec<WordParts>, Memory>
    requires sound { AreSoundEntries entries.now }
    requires known { AreKnown (words_of entries.now) made.now }
    ensures { IfOk result (λ words. SortsDistinct (words_of entries.now) made.now words.items) }
{
    let distinct = distinct_of(alloc, made)?;
    let order = BySpelling { entries };
    sorted(alloc, &order, rests, distinct.as_slice())
}

/// Numbers words, given the same words in lexicographic order.
fn number_ordered(
    alloc: Global,
    entries: &[WordEntry],
    rests: &mut Rests,
    ordered: &OrderedWords,
    made: &[WordParts],
) -> Result<NumberedWords, Memory>
    requires sound { AreSoundEntries entries.now }
    requires known { AreKnown (words_of entries.now) made.now }
    requires fresh { AreBelowGroup (words_of entries.now) ordered.now.group }
    requires prefix_free { ArePrefixFree (words_of entries.now) made.now }
    requires orders { SortsDistinct (words_of entries.now) made.now ordered.now.made.now }
    ensures { IfOk result (λ numbered. IsNumberedGroup entries.now ordered.now.group made.now numbered) }
{
    let given = give(alloc, entries, rests, ordered)?;
    let numbers = numbers_of(alloc, &given, made)?;
    Ok(NumberedWords {
        entries: given.entries,
        numbers,
    })
}

/// Numbers words as one group: equal words get one number, and the numbers rise with the words in lexicographic order.
/// Fails only if memory runs out.
pub fn number_words(
    alloc: Global,
    entries: &[WordEntry],
    group: u32,
    made: &[WordParts],
) -> Result<NumberedWords, Memory>
    requires sound { AreSoundEntries entries.now }
    requires known { AreKnown (words_of entries.now) made.now }
    requires fresh { AreBelowGroup (words_of entries.now) group }
    requires prefix_free { ArePrefixFree (words_of entries.now) made.now }
    ensures { IfOk result (λ numbered. IsNumberedGroup entries.now group made.now numbered) }
{
    let mut rests = no_rests(alloc);
    let words = in_order(alloc, entries, &mut rests, made)?;
    let ordered = OrderedWords {
        group,
        made: words.as_slice(),
    };
    number_ordered(alloc, entries, &mut rests, &ordered, made)
}
