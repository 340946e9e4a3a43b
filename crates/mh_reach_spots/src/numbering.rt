//! The numbers of the sentences of one cost, and the order of arrivals by these numbers.
ghost use Rattle.std.specs.Prelude.{◌≡◌, ◌≤◌, ◌<◌, ◌+◌, IfOk, length};
ghost use Rattle.mh_facts.specs.Costs.{cap};
ghost use Rattle.mh_reach_spots.specs.code.SpotNumbers.{ArePaired, AreSentences, IsRanked, SentencesAreNumbered, mades};

use crate::waiting::{RankedSpot, WaitingSpot};
use mh_facts::CAP;
use mh_grammar::Memory;
use mh_reach_words::{Book, EMPTY, WordParts};
use std::alloc::Global;

/// The parts of the sentences of arrivals.
fn all_made(alloc: Global, all: &[WaitingSpot]) -> Result<Vec<WordParts>, Memory>
    ensures { IfOk result (λ made. made.items ≡ mades all.now) }
{
    let mut made = Vec::new(alloc);
    for coming in all {
        made.push(coming.made)?;
    }
    Ok(made)
}

/// The number of the empty word for each arrival.
fn no_numbers(alloc: Global, all: &[WaitingSpot]) -> Result<Vec<usize>, Memory>
    ensures { IfOk result (λ numbers. length numbers.items ≡ length all.now) }
{
    let numbers = vec![in alloc; EMPTY; all.len()]?;
    Ok(numbers)
}

/// Numbers the sentences of arrivals of one cost as one group of the book; those of the highest cost are not
/// distinguished. Returns the number of each. Fails only if memory runs out.
pub(crate) fn numbers_of(
    alloc: Global,
    book: &mut Book,
    cost: u32,
    all: &[WaitingSpot],
) -> Result<Vec<usize>, Memory>
    requires cost { cost ≤ cap }
    requires sentences { cost < cap → AreSentences book.old cost all.now }
    ensures { IfOk result (λ numbers. SentencesAreNumbered book.old book.new cost all.now numbers.items) }
{
    if cost >= CAP {
        return no_numbers(alloc, all);
    }
    let made = all_made(alloc, all)?;
    let numbers = book.number_all(alloc, CAP + 1 + cost, made.as_slice())?;
    book.rising();
    Ok(numbers)
}

/// Pairs each arrival with its number.
fn paired(alloc: Global, all: &[WaitingSpot], numbers: &[usize]) -> Result<Vec<RankedSpot>, Memory>
    requires { length numbers.now ≡ length all.now }
    ensures { IfOk result (λ pairs. ArePaired all.now numbers.now (length all.now) pairs.items) }
{
    let mut pairs = Vec::new(alloc);
    for place in 0..all.len() {
        pairs.push(RankedSpot {
            coming: all[place],
            sentence: numbers[place],
        })?;
    }
    Ok(pairs)
}

/// Sorts arrivals by the numbers of their sentences. Fails only if memory runs out.
pub(crate) fn in_order(
    alloc: Global,
    all: &[WaitingSpot],
    numbers: &[usize],
) -> Result<Vec<RankedSpot>, Memory>
    requires { length numbers.now ≡ length all.now }
    ensures { IfOk result (λ ranked. IsRanked all.now numbers.now ranked.items) }
{
    let mut ranked = paired(alloc, all, numbers)?;
    ranked.sort_unstable_by_key(
        |one: &RankedSpot| -> usize
            ensures { result ≡ one.now.sentence }
        { one.sentence },
    );
    Ok(ranked)
}
