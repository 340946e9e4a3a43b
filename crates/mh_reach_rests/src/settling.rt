//! The main loop of the search: words are settled in order of their costs, and words of one cost in lexicographic
//! order.
ghost use Rattle.std.specs.Prelude.{◌≡◌, ◌↔◌, ◌<◌, ◌≤◌, ◌+◌, ◌∷◌, IfOk, IsTrue, OnOk, drop, length};
ghost use Rattle.mh_facts.specs.Costs.{cap};
ghost use Rattle.mh_facts.specs.code.TokenClasses.{AreTokenClasses};
ghost use Rattle.mh_reach_rests.specs.code.RestLevels.{ArePaired, BeforeRestLevel, ExpandsItem, InRestLevel, IsInRangeFor, IsRanked, IsRestsResult, KeepsWaiting, TakesAllWaiting, TakesNextWaiting};
ghost use Rattle.mh_reach_rests.specs.code.RestRules.{AreRestRows, AreSources};

use crate::begins::begin;
use crate::joins::{expand_goto, expand_rest};
use crate::numbering::{RestBook, fresh_book, numbers_of};
use crate::settled::{SettledWord, SettledWords, no_words, settle, word_of};
use crate::sought::Sought;
use crate::sources::sources_of;
use crate::waiting::{RestData, SettledGoto, SettledRest, WaitingWord};
use mh_facts::queue::{Queue, push, take};
use mh_facts::{CAP, TokenClasses};
use mh_grammar::Memory;
use mh_reach_words::Book;
use mh_tables_core::Table;
use std::alloc::Global;

/// The result of the search: the settled words, the words by their numbers, and the working data.
pub struct RestsFound {
    pub settled: SettledWords,
    pub words: RestBook,
    pub work: RestData,
}

// The exit of a function drops this value by one call. With the derived destructor it would drop each field.
impl Drop for RestsFound {
    fn drop(self) {
        let RestsFound {
            settled,
            words,
            work,
        } = self;
        drop(settled);
        drop(words);
        drop(work);
    }
}

impl RestsFound {
    /// Returns the book of the words, and drops the rest of the result.
    pub fn into_book(self) -> Book
        ensures { result ≡ self.words.book }
    {
        let RestsFound {
            settled,
            words,
            work,
        } = self;
        drop(settled);
        drop(work);
        words.book
    }
}

/// A waiting word with its number.
#[derive(Clone, Copy, Drop)]
struct RankedWord {
    item: WaitingWord,
    word: usize,
}

/// Appends a word to a list, unless one is settled for what it is sought for.
fn keep_new(
    all: &mut Vec<WaitingWord>,
    settled: &SettledWords,
    item: WaitingWord,
) -> Result<(), Memory>
    ensures { OnOk result (KeepsWaiting settled.now item all.old.items all.new.items) }
{
    if word_of(settled, item.sought).is_none() {
        all.push(item)?;
    }
    Ok(())
}

/// Takes all words of a cost from the queue. Returns those that are not settled.
fn all_new(
    alloc: Global,
    queue: &mut Queue<WaitingWord>,
    settled: &SettledWords,
    cost: u32,
) -> Result<Vec<WaitingWord>, Memory>
    ensures { IfOk result (λ all. TakesAllWaiting settled.now queue.old.buckets.items queue.new.buckets.items cost all.items) }
{
    let mut all = Vec::new(alloc);
    'items: loop {
        match take(queue, cost) {
            None => return Ok(all),
            Some(item) => keep_new(&mut all, settled, item)?,
        }
    }
}

/// Takes the next word of a cost for which none is settled, and drops those for which one is settled.
fn next_new(
    queue: &mut Queue<WaitingWord>,
    settled: &SettledWords,
    cost: u32,
) -> Option<WaitingWord>
    ensures { TakesNextWaiting settled.now queue.old.buckets.items queue.new.buckets.items cost result }
{
    'items: loop {
        match take(queue, cost) {
            None => return None,
            Some(item) => {
                if word_of(settled, item.sought).is_none() {
                    return Some(item);
                }
            }
        }
    }
}

/// The words of one cost, in their order.
#[derive(Clone, Copy, Drop)]
struct Level<'a> {
    cost: u32,
    items: &'a [RankedWord],
}

/// The first word of a level.
fn first_of(level: &Level) -> RankedWord
    requires { 0 < length level.now.items.now }
    ensures { level.now.items.now ≡ result ∷ drop 1 level.now.items.now }
{
    level.items[0]
}

/// Queues what follows from a settled word.
fn expand(
    alloc: Global,
    table: &Table,
    classes: &TokenClasses,
    sources: &[Vec<u32>],
    work: &mut RestData,
    settled: (WaitingWord, u32),
) -> Result<(), Memory>
    requires classes { AreTokenClasses table.now classes.now }
    requires sources { AreSources table.now sources.now }
    requires rows { AreRestRows table.now classes.now work.old }
    requires item { IsInRangeFor table.now settled.0.sought settled.0.end settled.1 }
    ensures { OnOk result (ExpandsItem table.now classes.now sources.now work.old work.new settled.0 settled.1) }
{
    let (item, cost) = settled;
    match item.sought {
        Sought::Rest(key) => {
            let rest = SettledRest {
                key,
                end: item.end,
                cost,
            };
            expand_rest(alloc, table, classes, sources, work, rest)?;
            Ok(())
        }
        Sought::Goto(fact) => {
            let goto = SettledGoto {
                fact,
                target: item.end,
                cost,
            };
            expand_goto(alloc, table, classes, work, goto)?;
            Ok(())
        }
    }
}

/// Settles the first word of a level, and what follows from it at the same cost: no token was added, so it has the same
/// word. The word is queued again, so that one loop settles all of these.
fn settle_one(
    alloc: Global,
    table: &Table,
    classes: &TokenClasses,
    sources: &[Vec<u32>],
    found: &mut RestsFound,
    level: &Level,
) -> Result<(), Memory>
    requires classes { AreTokenClasses table.now classes.now }
    requires sources { AreSources table.now sources.now }
    requires some { 0 < length level.now.items.now }
    requires ready { InRestLevel table.now classes.now found.old level.now.cost level.now.items.now }
    requires cost { level.now.cost ≤ cap }
    ensures { OnOk result (InRestLevel table.now classes.now found.new level.now.cost (drop 1 level.now.items.now)) }
{
    table.facts();
    let first = first_of(level);
    let word = SettledWord {
        cost: level.cost,
        word: first.word,
    };
    push(alloc, &mut found.work.queue, level.cost, first.item)?;
    'turns: loop {
        match next_new(&mut found.work.queue, &found.settled, level.cost) {
            None => return Ok(()),
            Some(item) => {
                settle(&mut found.settled, item.sought, word)?;
                let work = &mut found.work;
                expand(alloc, table, classes, sources, work, (item, level.cost))?;
            }
        }
    }
}

/// Settles all words of a level, in order.
fn settle_each(
    alloc: Global,
    table: &Table,
    classes: &TokenClasses,
    sources: &[Vec<u32>],
    found: &mut RestsFound,
    level: &Level,
) -> Result<(), Memory>
    requires classes { AreTokenClasses table.now classes.now }
    requires sources { AreSources table.now sources.now }
    requires ready { InRestLevel table.now classes.now found.old level.now.cost level.now.items.now }
    requires cost { level.now.cost ≤ cap }
    ensures { OnOk result (BeforeRestLevel table.now classes.now found.new (level.now.cost + 1)) }
{
    table.facts();
    for place in 0..level.items.len() {
        let rest = Level {
            cost: level.cost,
            items: &level.items[place..],
        };
        settle_one(alloc, table, classes, sources, found, &rest)?;
    }
    Ok(())
}

/// Pairs each word with its number.
fn paired(
    alloc: Global,
    items: &[WaitingWord],
    numbers: &[usize],
) -> Result<Vec<RankedWord>, Memory>
    requires { length numbers.now ≡ length items.now }
    ensures { IfOk result (λ pairs. ArePaired items.now numbers.now (length items.now) pairs.items) }
{
    let mut pairs = Vec::new(alloc);
    for place in 0..items.len() {
        pairs.push(RankedWord {
            item: items[place],
            word: numbers[place],
        })?;
    }
    Ok(pairs)
}

/// Sorts words by their numbers.
fn in_order(
    alloc: Global,
    items: &[WaitingWord],
    numbers: &[usize],
) -> Result<Vec<RankedWord>, Memory>
    requires { length numbers.now ≡ length items.now }
    ensures { IfOk result (λ all. IsRanked items.now numbers.now all.items) }
{
    let mut ranked = paired(alloc, items, numbers)?;
    ranked.sort_unstable_by_key(
        |one: &RankedWord| -> usize
            ensures { result ≡ one.now.word }
        { one.word },
    );
    Ok(ranked)
}

/// Settles all words of one cost.
fn settle_level(
    alloc: Global,
    table: &Table,
    classes: &TokenClasses,
    sources: &[Vec<u32>],
    found: &mut RestsFound,
    cost: u32,
) -> Result<(), Memory>
    requires classes { AreTokenClasses table.now classes.now }
    requires sources { AreSources table.now sources.now }
    requires before { BeforeRestLevel table.now classes.now found.old cost }
    requires cost { cost ≤ cap }
    ensures { OnOk result (BeforeRestLevel table.now classes.now found.new (cost + 1)) }
{
    table.facts();
    let all = all_new(alloc, &mut found.work.queue, &found.settled, cost)?;
    let items = all.as_slice();
    let numbers = numbers_of(alloc, table, &found.settled, &mut found.words, cost, items)?;
    found.words.book.rising();
    let ranked = in_order(alloc, items, numbers.as_slice())?;
    let items = ranked.as_slice();
    settle_each(
        alloc,
        table,
        classes,
        sources,
        found,
        &Level { cost, items },
    )
}

/// The result before the search.
fn fresh(alloc: Global, table: &Table, classes: &TokenClasses) -> Result<RestsFound, Memory>
    requires { AreTokenClasses table.now classes.now }
    ensures { IfOk result (λ found. BeforeRestLevel table.now classes.now found 0) }
{
    table.facts();
    let work = begin(alloc, table, classes)?;
    let words = fresh_book(alloc, table)?;
    Ok(RestsFound {
        settled: no_words(alloc),
        words,
        work,
    })
}

/// Whether no word of this or a higher cost waits.
fn is_done(found: &RestsFound, cost: u32) -> bool
    ensures { IsTrue result ↔ (length found.now.work.queue.buckets.items ≤ cost) }
{
    found.work.queue.buckets.len() <= cost as usize
}

/// Finds, for each goto fact of a table, the least cost of its words, and the lexicographically first word of that
/// cost. Fails only if memory runs out.
pub fn search(alloc: Global, table: &Table, classes: &TokenClasses) -> Result<RestsFound, Memory>
    requires { AreTokenClasses table.now classes.now }
    ensures { IfOk result (IsRestsResult table.now classes.now) }
{
    table.facts();
    let sources = sources_of(alloc, table)?;
    let mut found = fresh(alloc, table, classes)?;
    for cost in 0..CAP + 1 {
        if is_done(&found, cost) {
            return Ok(found);
        }
        settle_level(alloc, table, classes, sources.as_slice(), &mut found, cost)?;
    }
    Ok(found)
}
