//! The words with which the search begins: the empty rests at the ends of the right sides.
ghost use Rattle.std.specs.Prelude.{◌<◌, ℕ, [], IfOk, OnOk, length};
ghost use Rattle.std.specs.List.{Contains};
ghost use Rattle.mh_facts.specs.code.Queues.{Among, Below, QueueGains};
ghost use Rattle.mh_facts.specs.code.TokenClasses.{AreTokenClasses};
ghost use Rattle.mh_reach_rests.specs.code.RestRules.{AreBegun, IsEndWord, IsEndWordOn};

use crate::conclusions::{Conclusion, conclude};
use crate::rows::empty_rows;
use crate::waiting::{Origin, RestData, WaitingWord};
use mh_facts::queue::{Queue, empty_queue};
use mh_facts::{FactKey, TokenClasses, class_of, representatives_of};
use mh_grammar::{Memory, Token};
use mh_tables_core::{NextAction, Table, choose};
use std::alloc::Global;

/// Queues the empty rest of the production that a state reduces on a token.
fn begin_on(
    alloc: Global,
    table: &Table,
    classes: &TokenClasses,
    queue: &mut Queue<WaitingWord>,
    state: u32,
    token: Token,
) -> Result<(), Memory>
    requires classes { AreTokenClasses table.now classes.now }
    requires state { state < length table.now.states }
    requires token { token < table.now.grammar.tokens }
    ensures { OnOk result (QueueGains (IsEndWordOn table.now classes.now state token) queue.old.buckets.items queue.new.buckets.items) }
{
    table.facts();
    match choose(table, state, Some(token)) {
        NextAction::Reduce(production) => {
            let next = class_of(table, classes, state, token).representative;
            let conclusion = Conclusion {
                key: FactKey {
                    from: state,
                    production,
                    dot: table.length_of(production),
                    first: next,
                    next,
                },
                end: state,
                cost: 0,
                origin: Origin::Ended,
            };
            conclude(alloc, table, classes, queue, conclusion)
        }
        _ => Ok(()),
    }
}

/// Queues the empty rests of a state on each of the given tokens.
fn begin_on_each(
    alloc: Global,
    table: &Table,
    classes: &TokenClasses,
    queue: &mut Queue<WaitingWord>,
    state: u32,
    tokens: &[Token],
) -> Result<(), Memory>
    requires classes { AreTokenClasses table.now classes.now }
    requires state { state < length table.now.states }
    requires tokens { (x : ℕ) → Contains tokens.now x → x < table.now.grammar.tokens }
    ensures { OnOk result (QueueGains (Among (IsEndWordOn table.now classes.now state) tokens.now) queue.old.buckets.items queue.new.buckets.items) }
{
    for token in tokens {
        begin_on(alloc, table, classes, queue, state, *token)?;
    }
    Ok(())
}

/// Queues the empty rests of a state. A state that reduces by default does so on each representative.
fn begin_in(
    alloc: Global,
    table: &Table,
    classes: &TokenClasses,
    queue: &mut Queue<WaitingWord>,
    state: u32,
) -> Result<(), Memory>
    requires classes { AreTokenClasses table.now classes.now }
    requires state { state < length table.now.states }
    ensures { OnOk result (QueueGains (IsEndWord table.now classes.now state) queue.old.buckets.items queue.new.buckets.items) }
{
    table.facts();
    if table.fallback(state).is_some() {
        let tokens = representatives_of(table, classes, state);
        return begin_on_each(alloc, table, classes, queue, state, tokens);
    }
    for token in 0..table.tokens() {
        begin_on(alloc, table, classes, queue, state, token)?;
    }
    Ok(())
}

/// A queue of the empty rests of all states.
fn begin_all(
    alloc: Global,
    table: &Table,
    classes: &TokenClasses,
) -> Result<Queue<WaitingWord>, Memory>
    requires { AreTokenClasses table.now classes.now }
    ensures { IfOk result (λ queue. QueueGains (Below (IsEndWord table.now classes.now) (length table.now.states)) [] queue.buckets.items) }
{
    table.facts();
    let mut queue = empty_queue(alloc);
    for state in 0..table.states() {
        begin_in(alloc, table, classes, &mut queue, state)?;
    }
    Ok(queue)
}

/// The working data at the beginning of the search. Fails only if memory runs out.
pub(crate) fn begin(
    alloc: Global,
    table: &Table,
    classes: &TokenClasses,
) -> Result<RestData, Memory>
    requires { AreTokenClasses table.now classes.now }
    ensures { IfOk result (AreBegun table.now classes.now) }
{
    let queue = begin_all(alloc, table, classes)?;
    let rests = empty_rows(alloc, classes.places)?;
    let gotos = empty_rows(alloc, classes.places)?;
    Ok(RestData {
        queue,
        rests,
        gotos,
    })
}
