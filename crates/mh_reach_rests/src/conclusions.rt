//! The conclusion of a rule: a rest that begins one symbol earlier, or at the beginning of a path its goto facts.
ghost use Rattle.std.specs.Prelude.{◌≡◌, ◌<◌, ◌∷◌, ◌↔◌, [], zero, IsTrue, OnOk, Some};
ghost use Rattle.mh_grammar.specs.declared.types.Symbol.TheVariants.{N};
ghost use Rattle.mh_grammar.specs.Plain.{lhs_of};
ghost use Rattle.mh_tables_core.specs.Table.{edge_of};
ghost use Rattle.mh_tables_core.specs.Run.{Reduces, run_move_of};
ghost use Rattle.mh_facts.specs.code.Queues.{Among, QueueGains};
ghost use Rattle.mh_facts.specs.code.TokenClasses.{AreTokenClasses, rep_of, representatives_at};
ghost use Rattle.mh_reach_rests.specs.code.RestRules.{IsConcluded, IsConcludedAt, IsGotoItem, IsGotoOf, IsRestInRange};

use crate::sought::Sought;
use crate::waiting::{Origin, WaitingWord};
use mh_facts::queue::{Queue, push};
use mh_facts::{FactKey, GotoFact, TokenClasses, class_of, representatives_of};
use mh_grammar::{Memory, Token};
use mh_tables_core::{NextAction, Table, choose};
use std::alloc::Global;

/// A rest, or a whole path, that a rule concludes: its key, the state at its end, and the cost and the origin of its
/// word.
#[derive(Clone, Copy, Drop)]
pub(crate) struct Conclusion {
    pub key: FactKey,
    pub end: u32,
    pub cost: u32,
    pub origin: Origin,
}

/// Whether a whole path is reduced on a token, and the token is in the class of the path's next token.
fn reduces(table: &Table, classes: &TokenClasses, path: Conclusion, next: Token) -> bool
    requires classes { AreTokenClasses table.now classes.now }
    requires path { IsRestInRange table.now path.key path.end path.cost }
    requires next { next < table.now.grammar.tokens }
    ensures { IsTrue result ↔ ((run_move_of table.now path.end (next ∷ []) ≡ Reduces path.key.production) × (rep_of classes.now path.end next ≡ path.key.next)) }
{
    match choose(table, path.end, Some(next)) {
        NextAction::Reduce(production) => {
            production == path.key.production
                && class_of(table, classes, path.end, next).representative == path.key.next
        }
        _ => false,
    }
}

/// The goto fact of a whole path with a next token.
fn goto_of(table: &Table, path: Conclusion, target: u32, next: Token) -> WaitingWord
    requires { IsRestInRange table.now path.key path.end path.cost }
    ensures { IsGotoItem table.now path target next result }
{
    let fact = GotoFact {
        from: path.key.from,
        nonterminal: table.lhs_of(path.key.production),
        first: path.key.first,
        next,
    };
    WaitingWord {
        sought: Sought::Goto(fact),
        end: target,
        origin: path.origin,
    }
}

/// Queues the goto fact of a whole path with a next token, if the path is reduced on the token.
fn conclude_goto(
    alloc: Global,
    table: &Table,
    classes: &TokenClasses,
    queue: &mut Queue<WaitingWord>,
    path: Conclusion,
    goto: (u32, Token),
) -> Result<(), Memory>
    requires classes { AreTokenClasses table.now classes.now }
    requires path { IsRestInRange table.now path.key path.end path.cost }
    requires next { goto.1 < table.now.grammar.tokens }
    ensures { OnOk result (QueueGains (IsGotoOf table.now classes.now path goto.0 goto.1) queue.old.buckets.items queue.new.buckets.items) }
{
    let (target, next) = goto;
    if !reduces(table, classes, path, next) {
        return Ok(());
    }
    push(alloc, queue, path.cost, goto_of(table, path, target, next))
}

/// Queues the goto facts of a whole path over the goto to a state.
fn conclude_gotos_to(
    alloc: Global,
    table: &Table,
    classes: &TokenClasses,
    queue: &mut Queue<WaitingWord>,
    path: Conclusion,
    target: u32,
) -> Result<(), Memory>
    requires classes { AreTokenClasses table.now classes.now }
    requires path { IsRestInRange table.now path.key path.end path.cost }
    requires edge { edge_of table.now path.key.from (N (lhs_of table.now.grammar path.key.production)) ≡ Some target }
    ensures { OnOk result (QueueGains (Among (IsGotoOf table.now classes.now path target) (representatives_at classes.now target)) queue.old.buckets.items queue.new.buckets.items) }
{
    table.facts();
    for next in representatives_of(table, classes, target) {
        conclude_goto(alloc, table, classes, queue, path, (target, *next))?;
    }
    Ok(())
}

/// Queues the goto facts of a whole path.
fn conclude_gotos(
    alloc: Global,
    table: &Table,
    classes: &TokenClasses,
    queue: &mut Queue<WaitingWord>,
    path: Conclusion,
) -> Result<(), Memory>
    requires classes { AreTokenClasses table.now classes.now }
    requires path { IsRestInRange table.now path.key path.end path.cost }
    ensures { OnOk result (QueueGains (IsConcludedAt table.now classes.now path zero) queue.old.buckets.items queue.new.buckets.items) }
{
    match table.goto(path.key.from, table.lhs_of(path.key.production)) {
        None => Ok(()),
        Some(target) => conclude_gotos_to(alloc, table, classes, queue, path, target),
    }
}

/// Queues what a rule concludes.
pub(crate) fn conclude(
    alloc: Global,
    table: &Table,
    classes: &TokenClasses,
    queue: &mut Queue<WaitingWord>,
    conclusion: Conclusion,
) -> Result<(), Memory>
    requires classes { AreTokenClasses table.now classes.now }
    requires range { IsRestInRange table.now conclusion.key conclusion.end conclusion.cost }
    ensures { OnOk result (QueueGains (IsConcluded table.now classes.now conclusion) queue.old.buckets.items queue.new.buckets.items) }
{
    if conclusion.key.dot == 0 {
        return conclude_gotos(alloc, table, classes, queue, conclusion);
    }
    let item = WaitingWord {
        sought: Sought::Rest(conclusion.key),
        end: conclusion.end,
        origin: conclusion.origin,
    };
    push(alloc, queue, conclusion.cost, item)
}
