//! The rules of the search: what follows from a settled word and the words settled before.
ghost use Rattle.std.specs.Prelude.{◌≡◌, ◌<◌, ◌≤◌, ◌-◌, ◌↔◌, ℕ, IsTrue, OnOk, Some, length, slice_get};
ghost use Rattle.std.specs.List.{Contains};
ghost use Rattle.mh_grammar.specs.declared.types.Symbol.TheVariants.{T};
ghost use Rattle.mh_grammar.specs.Plain.{rhs_of};
ghost use Rattle.mh_facts.specs.Costs.{cap};
ghost use Rattle.mh_facts.specs.code.Queues.{AddsToRow, Among, QueueGains, row_of};
ghost use Rattle.mh_facts.specs.code.TokenClasses.{AreTokenClasses, place_of};
ghost use Rattle.mh_reach_rests.specs.declared.waiting.SettledGoto.{SettledGoto};
ghost use Rattle.mh_reach_rests.specs.declared.waiting.SettledRest.{SettledRest};
ghost use Rattle.mh_reach_rests.specs.code.RestRules.{AreRestRows, AreSources, ExpandsRest, FitsRest, FollowsBoth, FollowsToken, IsGotoInRange, IsRestToJoin, after_goto, after_token, gotos_in, rests_in};

use crate::conclusions::{Conclusion, conclude};
use crate::waiting::{Origin, RestData, SettledGoto, SettledRest, WaitingWord};
use mh_facts::queue::Queue;
use mh_facts::{FactKey, TokenClasses, add_costs, add_token, class_of};
use mh_grammar::{Memory, Symbol, Token};
use mh_tables_core::{NextAction, Table, choose};
use std::alloc::Global;

/// The conclusion from a rest after a token that is shifted in a state.
fn after_token(
    table: &Table,
    classes: &TokenClasses,
    rest: SettledRest,
    state: u32,
    token: Token,
) -> Conclusion
    requires classes { AreTokenClasses table.now classes.now }
    requires rest { IsRestToJoin table.now rest }
    requires state { state < length table.now.states }
    requires token { token < table.now.grammar.tokens }
    ensures { result ≡ after_token table.now classes.now rest state token }
{
    Conclusion {
        key: FactKey {
            from: state,
            dot: rest.key.dot - 1,
            first: class_of(table, classes, state, token).representative,
            ..rest.key
        },
        end: rest.end,
        cost: add_token(table, rest.cost, token),
        origin: Origin::Shifted(rest.key),
    }
}

/// Queues what follows from a rest by a shift of the token before it in a state.
fn shift_in(
    alloc: Global,
    table: &Table,
    classes: &TokenClasses,
    queue: &mut Queue<WaitingWord>,
    rest: (SettledRest, Token),
    state: u32,
) -> Result<(), Memory>
    requires classes { AreTokenClasses table.now classes.now }
    requires rest { IsRestToJoin table.now rest.0 }
    requires symbol { slice_get (rhs_of table.now.grammar rest.0.key.production) (rest.0.key.dot - 1) ≡ Some (T rest.1) }
    requires state { state < length table.now.states }
    requires token { rest.1 < table.now.grammar.tokens }
    ensures { OnOk result (QueueGains (FollowsToken table.now classes.now rest.0 rest.1 state) queue.old.buckets.items queue.new.buckets.items) }
{
    let (rest, token) = rest;
    table.facts();
    match choose(table, state, Some(token)) {
        NextAction::Shift(end) => {
            if end != rest.key.from {
                return Ok(());
            }
            let conclusion = after_token(table, classes, rest, state, token);
            conclude(alloc, table, classes, queue, conclusion)
        }
        _ => Ok(()),
    }
}

/// Queues what follows from a rest by shifts of the token before it.
fn shift(
    alloc: Global,
    table: &Table,
    classes: &TokenClasses,
    queue: &mut Queue<WaitingWord>,
    sources: &[u32],
    rest: (SettledRest, Token),
) -> Result<(), Memory>
    requires classes { AreTokenClasses table.now classes.now }
    requires rest { IsRestToJoin table.now rest.0 }
    requires symbol { slice_get (rhs_of table.now.grammar rest.0.key.production) (rest.0.key.dot - 1) ≡ Some (T rest.1) }
    requires sources { (s : ℕ) → Contains sources.now s → s < length table.now.states }
    requires token { rest.1 < table.now.grammar.tokens }
    ensures { OnOk result (QueueGains (Among (FollowsToken table.now classes.now rest.0 rest.1) sources.now) queue.old.buckets.items queue.new.buckets.items) }
{
    for state in sources {
        shift_in(alloc, table, classes, queue, rest, *state)?;
    }
    Ok(())
}

/// The conclusion from a goto fact and the rest after it.
fn after_goto(goto: SettledGoto, rest: SettledRest) -> Conclusion
    requires goto { goto.cost ≤ cap }
    requires rest { rest.cost ≤ cap }
    requires dot { 0 < rest.key.dot }
    ensures { result ≡ after_goto goto rest }
{
    Conclusion {
        key: FactKey {
            from: goto.fact.from,
            dot: rest.key.dot - 1,
            first: goto.fact.first,
            ..rest.key
        },
        end: rest.end,
        cost: add_costs(goto.cost, rest.cost),
        origin: Origin::Joined {
            goto: goto.fact,
            rest: rest.key,
        },
    }
}

/// Whether a rest begins in the target of a goto fact with the token that the goto fact has next, and follows its
/// nonterminal.
fn fits(table: &Table, goto: SettledGoto, rest: SettledRest) -> bool
    requires { IsRestToJoin table.now rest }
    ensures { IsTrue result ↔ FitsRest table.now goto rest }
{
    goto.target == rest.key.from
        && goto.fact.next == rest.key.first
        && table.symbol_of(rest.key.production, rest.key.dot - 1)
            == Symbol::N(goto.fact.nonterminal)
}

/// Queues what follows from a goto fact and a rest, if the rest follows the goto fact.
fn join(
    alloc: Global,
    table: &Table,
    classes: &TokenClasses,
    queue: &mut Queue<WaitingWord>,
    goto: SettledGoto,
    rest: SettledRest,
) -> Result<(), Memory>
    requires classes { AreTokenClasses table.now classes.now }
    requires goto { IsGotoInRange table.now goto }
    requires rest { IsRestToJoin table.now rest }
    ensures { OnOk result (QueueGains (FollowsBoth table.now classes.now goto rest) queue.old.buckets.items queue.new.buckets.items) }
{
    table.facts();
    if !fits(table, goto, rest) {
        return Ok(());
    }
    conclude(alloc, table, classes, queue, after_goto(goto, rest))
}

/// Queues what follows from a rest and the goto facts of its row.
fn join_gotos(
    alloc: Global,
    table: &Table,
    classes: &TokenClasses,
    queue: &mut Queue<WaitingWord>,
    gotos: &[SettledGoto],
    rest: SettledRest,
) -> Result<(), Memory>
    requires classes { AreTokenClasses table.now classes.now }
    requires gotos { (g : SettledGoto) → Contains gotos.now g → IsGotoInRange table.now g }
    requires rest { IsRestToJoin table.now rest }
    ensures { OnOk result (QueueGains (Among (λ goto. FollowsBoth table.now classes.now goto rest) gotos.now) queue.old.buckets.items queue.new.buckets.items) }
{
    for goto in gotos {
        join(alloc, table, classes, queue, *goto, rest)?;
    }
    Ok(())
}

/// Queues what follows from a goto fact and the rests of its row.
fn join_rests(
    alloc: Global,
    table: &Table,
    classes: &TokenClasses,
    queue: &mut Queue<WaitingWord>,
    goto: SettledGoto,
    rests: &[SettledRest],
) -> Result<(), Memory>
    requires classes { AreTokenClasses table.now classes.now }
    requires goto { IsGotoInRange table.now goto }
    requires rests { (r : SettledRest) → Contains rests.now r → IsRestToJoin table.now r }
    ensures { OnOk result (QueueGains (Among (FollowsBoth table.now classes.now goto) rests.now) queue.old.buckets.items queue.new.buckets.items) }
{
    for rest in rests {
        join(alloc, table, classes, queue, goto, *rest)?;
    }
    Ok(())
}

/// Stores a rest that follows a nonterminal in its row, and queues what follows from it and the goto facts before it.
fn meet_gotos(
    alloc: Global,
    table: &Table,
    classes: &TokenClasses,
    work: &mut RestData,
    rest: SettledRest,
) -> Result<(), Memory>
    requires classes { AreTokenClasses table.now classes.now }
    requires rows { AreRestRows table.now classes.now work.old }
    requires rest { IsRestToJoin table.now rest }
    ensures queue { OnOk result (QueueGains (Among (λ goto. FollowsBoth table.now classes.now goto rest) (gotos_in work.old (place_of classes.now rest.key.from rest.key.first))) work.old.queue.buckets.items work.new.queue.buckets.items) }
    ensures rests { OnOk result (AddsToRow work.old.rests.items work.new.rests.items (place_of classes.now rest.key.from rest.key.first) rest) }
    ensures gotos { OnOk result (work.new.gotos.items ≡ work.old.gotos.items) }
{
    let place = class_of(table, classes, rest.key.from, rest.key.first).place as usize;
    join_gotos(
        alloc,
        table,
        classes,
        &mut work.queue,
        work.gotos[place].as_slice(),
        rest,
    )?;
    work.rests[place].push(rest)?;
    Ok(())
}

/// The states from which an edge leads to a state.
fn states_before(sources: &[Vec<u32>], state: u32) -> &[u32]
    requires { state < length sources.now }
    ensures { result.now ≡ row_of sources.now state }
{
    let place = state as usize;
    sources[place].as_slice()
}

/// Queues what follows from a settled rest.
pub(crate) fn expand_rest(
    alloc: Global,
    table: &Table,
    classes: &TokenClasses,
    sources: &[Vec<u32>],
    work: &mut RestData,
    rest: SettledRest,
) -> Result<(), Memory>
    requires classes { AreTokenClasses table.now classes.now }
    requires sources { AreSources table.now sources.now }
    requires rows { AreRestRows table.now classes.now work.old }
    requires rest { IsRestToJoin table.now rest }
    ensures { OnOk result (ExpandsRest table.now classes.now sources.now work.old work.new rest) }
{
    table.facts();
    match table.symbol_of(rest.key.production, rest.key.dot - 1) {
        Symbol::T(token) => {
            let states = states_before(sources, rest.key.from);
            shift(
                alloc,
                table,
                classes,
                &mut work.queue,
                states,
                (rest, token),
            )?;
            Ok(())
        }
        Symbol::N(_) => {
            meet_gotos(alloc, table, classes, work, rest)?;
            Ok(())
        }
    }
}

/// Stores a goto fact in its row, and queues what follows from it and the rests after it.
pub(crate) fn expand_goto(
    alloc: Global,
    table: &Table,
    classes: &TokenClasses,
    work: &mut RestData,
    goto: SettledGoto,
) -> Result<(), Memory>
    requires classes { AreTokenClasses table.now classes.now }
    requires rows { AreRestRows table.now classes.now work.old }
    requires goto { IsGotoInRange table.now goto }
    ensures queue { OnOk result (QueueGains (Among (FollowsBoth table.now classes.now goto) (rests_in work.old (place_of classes.now goto.target goto.fact.next))) work.old.queue.buckets.items work.new.queue.buckets.items) }
    ensures gotos { OnOk result (AddsToRow work.old.gotos.items work.new.gotos.items (place_of classes.now goto.target goto.fact.next) goto) }
    ensures rests { OnOk result (work.new.rests.items ≡ work.old.rests.items) }
{
    table.facts();
    let place = class_of(table, classes, goto.target, goto.fact.next).place as usize;
    join_rests(
        alloc,
        table,
        classes,
        &mut work.queue,
        goto,
        work.rests[place].as_slice(),
    )?;
    work.gotos[place].push(goto)?;
    Ok(())
}
