//! The arrivals that follow from a settled arrival.
ghost use Rattle.std.specs.Prelude.{◌≡◌, ◌≤◌, ◌<◌, ◌+◌, ℕ, [], Some, OnOk, IfOk, length, min};
ghost use Rattle.std.specs.List.{Contains};
ghost use Rattle.mh_tables_core.specs.Table.{edge_of};
ghost use Rattle.mh_facts.specs.Costs.{cap};
ghost use Rattle.mh_facts.specs.code.Queues.{Among, IsUniqueItem, QueueGains, row_of};
ghost use Rattle.mh_facts.specs.code.TokenClasses.{AreTokenClasses};
ghost use Rattle.mh_reach_spots.specs.declared.goto_rows.NumberedGoto.{NumberedGoto};
ghost use Rattle.mh_reach_spots.specs.code.SpotSteps.{CanStepFrom, FollowsSpot, IsStartArrival, StepsAlong, StepsEdge, StepsOn, StepsOverGoto, StepsShift};

use crate::goto_rows::NumberedGoto;
use crate::waiting::{SettledSpot, WaitingSpot};
use mh_facts::queue::{Queue, empty_queue, push};
use mh_facts::{TokenClasses, add_costs, add_token, class_of, representatives_of};
use mh_grammar::{Edge, Memory, Symbol, Token};
use mh_reach_words::{EMPTY, LastPart, StateAndNext, WordParts};
use mh_tables_core::{NextAction, Table, choose};
use std::alloc::Global;

/// Queues arrivals at a state by one sentence, one with each of the given next tokens.
fn push_each(
    alloc: Global,
    queue: &mut Queue<WaitingSpot>,
    tokens: &[Token],
    cost: u32,
    state: u32,
    made: WordParts,
) -> Result<(), Memory>
    ensures { OnOk result (QueueGains (Among (StepsOn cost state made) tokens.now) queue.old.buckets.items queue.new.buckets.items) }
{
    for next in tokens {
        let spot = StateAndNext { state, next: *next };
        push(alloc, queue, cost, WaitingSpot { spot, made })?;
    }
    Ok(())
}

/// Queues the arrivals that follow by a shift of a token, if the spot has this token next.
fn step_on(
    alloc: Global,
    table: &Table,
    classes: &TokenClasses,
    queue: &mut Queue<WaitingSpot>,
    from: SettledSpot,
    token: Token,
) -> Result<(), Memory>
    requires from { CanStepFrom table.now classes.now from }
    requires token { token < table.now.grammar.tokens }
    ensures { OnOk result (QueueGains (StepsAlong table.now classes.now from token) queue.old.buckets.items queue.new.buckets.items) }
{
    table.facts();
    if class_of(table, classes, from.spot.state, token).representative != from.spot.next {
        return Ok(());
    }
    match choose(table, from.spot.state, Some(token)) {
        NextAction::Shift(end) => {
            let made = WordParts {
                front: from.sentence,
                last: LastPart::Token(token),
            };
            let cost = add_token(table, from.cost, token);
            push_each(
                alloc,
                queue,
                representatives_of(table, classes, end),
                cost,
                end,
                made,
            )
        }
        _ => Ok(()),
    }
}

/// Queues the arrivals that follow by a shift along an edge, if the edge's symbol is a token.
fn step_edge(
    alloc: Global,
    table: &Table,
    classes: &TokenClasses,
    queue: &mut Queue<WaitingSpot>,
    from: SettledSpot,
    edge: Edge,
) -> Result<(), Memory>
    requires from { CanStepFrom table.now classes.now from }
    requires edge { edge_of table.now from.spot.state edge.symbol ≡ Some edge.target }
    ensures { OnOk result (QueueGains (StepsEdge table.now classes.now from edge) queue.old.buckets.items queue.new.buckets.items) }
{
    table.facts();
    match edge.symbol {
        Symbol::N(_) => Ok(()),
        Symbol::T(token) => step_on(alloc, table, classes, queue, from, token),
    }
}

/// Queues the arrivals that follow by shifts.
fn step_shifts(
    alloc: Global,
    table: &Table,
    classes: &TokenClasses,
    queue: &mut Queue<WaitingSpot>,
    from: SettledSpot,
) -> Result<(), Memory>
    requires { CanStepFrom table.now classes.now from }
    ensures { OnOk result (QueueGains (StepsShift table.now classes.now from) queue.old.buckets.items queue.new.buckets.items) }
{
    table.facts();
    for edge in table.edges(from.spot.state) {
        step_edge(alloc, table, classes, queue, from, *edge)?;
    }
    Ok(())
}

/// The arrival that follows by a goto fact, if the goto fact begins at the spot.
fn stepped(from: SettledSpot, goto: NumberedGoto) -> Option<WaitingSpot>
    ensures { IsUniqueItem (StepsOverGoto from goto) (min (from.cost + goto.cost) cap) result }
{
    let fits = goto.fact.from == from.spot.state && goto.fact.first == from.spot.next;
    if !fits {
        return None;
    }
    Some(WaitingSpot {
        spot: StateAndNext {
            state: goto.target,
            next: goto.fact.next,
        },
        made: WordParts {
            front: from.sentence,
            last: LastPart::Word(goto.word),
        },
    })
}

/// Queues the arrival that follows by a goto fact, if the goto fact begins at the spot.
fn step_goto(
    alloc: Global,
    queue: &mut Queue<WaitingSpot>,
    from: SettledSpot,
    goto: NumberedGoto,
) -> Result<(), Memory>
    requires cost { from.cost ≤ cap }
    requires goto { goto.cost ≤ cap }
    ensures { OnOk result (QueueGains (StepsOverGoto from goto) queue.old.buckets.items queue.new.buckets.items) }
{
    match stepped(from, goto) {
        None => Ok(()),
        Some(coming) => push(alloc, queue, add_costs(from.cost, goto.cost), coming),
    }
}

/// Queues the arrivals that follow by each of the goto facts that begin at the spot.
fn step_gotos(
    alloc: Global,
    queue: &mut Queue<WaitingSpot>,
    from: SettledSpot,
    gotos: &[NumberedGoto],
) -> Result<(), Memory>
    requires cost { from.cost ≤ cap }
    requires gotos { (w : NumberedGoto) → Contains gotos.now w → w.cost ≤ cap }
    ensures { OnOk result (QueueGains (Among (StepsOverGoto from) gotos.now) queue.old.buckets.items queue.new.buckets.items) }
{
    for goto in gotos {
        step_goto(alloc, queue, from, *goto)?;
    }
    Ok(())
}

/// Queues all arrivals that follow from a settled arrival.
pub(crate) fn queue_next(
    alloc: Global,
    table: &Table,
    classes: &TokenClasses,
    queue: &mut Queue<WaitingSpot>,
    gotos: &[Vec<NumberedGoto>],
    from: SettledSpot,
) -> Result<(), Memory>
    requires from { CanStepFrom table.now classes.now from }
    requires next { from.spot.next < table.now.grammar.tokens }
    requires rows { length gotos.now ≡ classes.now.places }
    requires few { (n : ℕ) (w : NumberedGoto) → Contains (row_of gotos.now n) w → w.cost ≤ cap }
    ensures { OnOk result (QueueGains (FollowsSpot table.now classes.now gotos.now from) queue.old.buckets.items queue.new.buckets.items) }
{
    step_shifts(alloc, table, classes, queue, from)?;
    let place = class_of(table, classes, from.spot.state, from.spot.next).place as usize;
    step_gotos(alloc, queue, from, gotos[place].as_slice())
}

/// Returns a queue of the arrivals at the beginning of each start, one for each next token.
pub(crate) fn starts(
    alloc: Global,
    table: &Table,
    classes: &TokenClasses,
) -> Result<Queue<WaitingSpot>, Memory>
    requires { AreTokenClasses table.now classes.now }
    ensures { IfOk result (λ queue. QueueGains (IsStartArrival table.now classes.now) [] queue.buckets.items) }
{
    table.facts();
    let mut queue = empty_queue(alloc);
    for start in 0..table.starts() {
        let tokens = representatives_of(table, classes, start as u32);
        let made = WordParts {
            front: EMPTY,
            last: LastPart::Token(start),
        };
        push_each(alloc, &mut queue, tokens, 0, start as u32, made)?;
    }
    Ok(queue)
}
