//! The second search, best-first: the least sentence by which each state is reached, with each next token.
ghost use Rattle.std.specs.Prelude.{◌≡◌, ◌+◌, OnOk, IfOk};
ghost use Rattle.mh_facts.specs.Costs.{cap};
ghost use Rattle.mh_facts.specs.code.TokenClasses.{AreTokenClasses};
ghost use Rattle.mh_reach_words.specs.code.Numbering.{AreBelowGroup};
ghost use Rattle.mh_reach_rests.specs.code.RestLevels.{IsRestsResult};
ghost use Rattle.mh_reach_spots.specs.code.GotoRows.{HasGotos};
ghost use Rattle.mh_reach_spots.specs.code.SpotLevels.{BeforeLevel};
ghost use Rattle.mh_reach_spots.specs.code.Spots.{AreLeastArrivals};

use crate::goto_rows::{NumberedGoto, gotos_by_start};
use crate::levels::{SecondSearch, arrive_level};
use crate::spots::Spots;
use crate::steps::starts;
use mh_facts::{CAP, OrderedMap, TokenClasses};
use mh_grammar::{Memory, lost};
use mh_reach_rests::RestsFound;
use mh_reach_words::Book;
use mh_tables_core::Table;
use std::alloc::Global;

/// Settles one level after another until no arrival waits.
fn arrive_all(
    alloc: Global,
    table: &Table,
    classes: &TokenClasses,
    gotos: &[Vec<NumberedGoto>],
    second: &mut SecondSearch,
) -> Result<(), Memory>
    requires classes { AreTokenClasses table.now classes.now }
    requires before { BeforeLevel table.now classes.now gotos.now second.old.spots.book second.old.spots.spots second.old.queue.buckets.items 0 }
    ensures { OnOk result (AreLeastArrivals table.now classes.now second.new.spots) }
{
    table.facts();
    for cost in 0..CAP + 1 {
        let buckets = second.queue.buckets.len();
        if buckets <= cost as usize {
            return Ok(());
        }
        arrive_level(alloc, table, classes, gotos, second, cost)?;
    }
    Ok(())
}

/// Returns the settled arrivals and drops the queue.
fn spots_in(second: SecondSearch) -> Spots
    ensures { result ≡ second.spots }
{
    second.spots
}

/// Runs the second search over goto facts that are filed by their beginnings.
fn arrive_by(
    alloc: Global,
    table: &Table,
    classes: &TokenClasses,
    gotos: &[Vec<NumberedGoto>],
    book: Book,
) -> Result<Spots, Memory>
    requires classes { AreTokenClasses table.now classes.now }
    requires below { AreBelowGroup book (cap + 1) }
    requires gotos { HasGotos table.now classes.now book gotos.now }
    ensures { IfOk result (AreLeastArrivals table.now classes.now) }
{
    table.facts();
    book.rising();
    let queue = starts(alloc, table, classes)?;
    let spots = Spots {
        spots: OrderedMap::new(alloc),
        book,
    };
    let mut second = SecondSearch { spots, queue };
    match arrive_all(alloc, table, classes, gotos, &mut second) {
        Ok(()) => Ok(spots_in(second)),
        Err(_) => Err(lost(second)),
    }
}

/// Finds, for each state and next token that a run reaches, the first of the sentences of least cost: by start and then
/// lexicographically. Fails only if memory runs out.
pub fn arrive(
    alloc: Global,
    table: &Table,
    classes: &TokenClasses,
    found: RestsFound,
) -> Result<Spots, Memory>
    requires classes { AreTokenClasses table.now classes.now }
    requires found { IsRestsResult table.now classes.now found }
    ensures { IfOk result (AreLeastArrivals table.now classes.now) }
{
    match gotos_by_start(alloc, table, classes, &found) {
        Ok(gotos) => {
            let book = found.into_book();
            arrive_by(alloc, table, classes, gotos.as_slice(), book)
        }
        Err(_) => Err(lost(found)),
    }
}
