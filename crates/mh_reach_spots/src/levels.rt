//! A level of the second search: the arrivals of one cost, which are settled in the order of their sentences.
ghost use Rattle.std.specs.Prelude.{◌≡◌, ◌≤◌, ◌<◌, ◌+◌, ◌∷◌, OnOk, IfOk, drop, length};
ghost use Rattle.mh_facts.specs.Costs.{cap};
ghost use Rattle.mh_facts.specs.code.TokenClasses.{AreTokenClasses};
ghost use Rattle.mh_reach_spots.specs.code.SpotLevels.{BeforeLevel, InLevel, KeepsUnreached, TakesAllUnreached, TakesNextSpot};

use crate::goto_rows::NumberedGoto;
use crate::numbering::{in_order, numbers_of};
use crate::spots::{SpotArrival, Spots, arrival_at, arrive_at};
use crate::steps::queue_next;
use crate::waiting::{RankedSpot, SettledSpot, WaitingSpot};
use mh_facts::TokenClasses;
use mh_facts::queue::{Queue, push, take};
use mh_grammar::Memory;
use mh_tables_core::Table;
use std::alloc::Global;

/// The working data of the second search: the settled arrivals and the queue.
#[derive(Drop)]
pub struct SecondSearch {
    pub spots: Spots,
    pub queue: Queue<WaitingSpot>,
}

/// Takes the next arrival of a cost whose spot is not reached; drops the arrivals at spots that are reached.
fn next_coming(queue: &mut Queue<WaitingSpot>, spots: &Spots, cost: u32) -> Option<WaitingSpot>
    ensures { TakesNextSpot spots.now.spots queue.old.buckets.items queue.new.buckets.items cost result }
{
    'items: loop {
        match take(queue, cost) {
            None => return None,
            Some(coming) => {
                if arrival_at(spots, coming.spot).is_none() {
                    return Some(coming);
                }
            }
        }
    }
}

/// Appends an arrival to a list, unless its spot is reached.
fn keep_coming(all: &mut Vec<WaitingSpot>, spots: &Spots, coming: WaitingSpot) -> Result<(), Memory>
    ensures { OnOk result (KeepsUnreached spots.now.spots coming all.old.items all.new.items) }
{
    if arrival_at(spots, coming.spot).is_none() {
        all.push(coming)?;
    }
    Ok(())
}

/// Takes all arrivals of a cost from the queue. Returns those at spots that are not reached.
fn take_all(
    alloc: Global,
    queue: &mut Queue<WaitingSpot>,
    spots: &Spots,
    cost: u32,
) -> Result<Vec<WaitingSpot>, Memory>
    ensures { IfOk result (λ all. TakesAllUnreached spots.now.spots queue.old.buckets.items queue.new.buckets.items cost all.items) }
{
    let mut all = Vec::new(alloc);
    'items: loop {
        match take(queue, cost) {
            None => return Ok(all),
            Some(coming) => keep_coming(&mut all, spots, coming)?,
        }
    }
}

/// The arrivals of one cost, in the order of their sentences.
#[derive(Clone, Copy, Drop)]
struct Level<'a> {
    cost: u32,
    comings: &'a [RankedSpot],
}

/// The first arrival of a level.
fn first_of(level: &Level) -> RankedSpot
    requires { 0 < length level.now.comings.now }
    ensures { level.now.comings.now ≡ result ∷ drop 1 level.now.comings.now }
{
    level.comings[0]
}

/// Settles the first arrival of a level, and the arrivals of the same cost that follow from it, which have the same
/// sentence.
fn arrive_one(
    alloc: Global,
    table: &Table,
    classes: &TokenClasses,
    gotos: &[Vec<NumberedGoto>],
    second: &mut SecondSearch,
    level: &Level,
) -> Result<(), Memory>
    requires classes { AreTokenClasses table.now classes.now }
    requires some { 0 < length level.now.comings.now }
    requires ready { InLevel table.now classes.now gotos.now second.old.spots.book second.old.spots.spots second.old.queue.buckets.items level.now.cost level.now.comings.now }
    requires cost { level.now.cost ≤ cap }
    ensures { OnOk result (InLevel table.now classes.now gotos.now second.new.spots.book second.new.spots.spots second.new.queue.buckets.items level.now.cost (drop 1 level.now.comings.now)) }
{
    table.facts();
    let first = first_of(level);
    let arrival = SpotArrival {
        cost: level.cost,
        sentence: first.sentence,
    };
    push(alloc, &mut second.queue, level.cost, first.coming)?;
    'turns: loop {
        match next_coming(&mut second.queue, &second.spots, level.cost) {
            None => return Ok(()),
            Some(coming) => {
                arrive_at(&mut second.spots, coming.spot, arrival)?;
                let from = SettledSpot {
                    spot: coming.spot,
                    cost: level.cost,
                    sentence: first.sentence,
                };
                queue_next(alloc, table, classes, &mut second.queue, gotos, from)?;
            }
        }
    }
}

/// Settles all arrivals of a level, in order.
fn arrive_each(
    alloc: Global,
    table: &Table,
    classes: &TokenClasses,
    gotos: &[Vec<NumberedGoto>],
    second: &mut SecondSearch,
    level: &Level,
) -> Result<(), Memory>
    requires classes { AreTokenClasses table.now classes.now }
    requires ready { InLevel table.now classes.now gotos.now second.old.spots.book second.old.spots.spots second.old.queue.buckets.items level.now.cost level.now.comings.now }
    requires cost { level.now.cost ≤ cap }
    ensures { OnOk result (BeforeLevel table.now classes.now gotos.now second.new.spots.book second.new.spots.spots second.new.queue.buckets.items (level.now.cost + 1)) }
{
    table.facts();
    for place in 0..level.comings.len() {
        let rest = Level {
            cost: level.cost,
            comings: &level.comings[place..],
        };
        arrive_one(alloc, table, classes, gotos, second, &rest)?;
    }
    Ok(())
}

/// Settles all arrivals of one cost, and the arrivals of the same cost that follow from them.
pub(crate) fn arrive_level(
    alloc: Global,
    table: &Table,
    classes: &TokenClasses,
    gotos: &[Vec<NumberedGoto>],
    second: &mut SecondSearch,
    cost: u32,
) -> Result<(), Memory>
    requires classes { AreTokenClasses table.now classes.now }
    requires before { BeforeLevel table.now classes.now gotos.now second.old.spots.book second.old.spots.spots second.old.queue.buckets.items cost }
    requires cost { cost ≤ cap }
    ensures { OnOk result (BeforeLevel table.now classes.now gotos.now second.new.spots.book second.new.spots.spots second.new.queue.buckets.items (cost + 1)) }
{
    table.facts();
    let all = take_all(alloc, &mut second.queue, &second.spots, cost)?;
    let numbers = numbers_of(alloc, &mut second.spots.book, cost, all.as_slice())?;
    let ranked = in_order(alloc, all.as_slice(), numbers.as_slice())?;
    let level = Level {
        cost,
        comings: ranked.as_slice(),
    };
    arrive_each(alloc, table, classes, gotos, second, &level)
}
