//! The first sentence that comes to the state of a conflict, and the token that comes next.
ghost use Rattle.std.specs.Prelude.{◌≡◌, ◌↔◌, ◌<◌, ◌≤◌, ◌+◌, IfOk, IsTrue, OnOk, MatchBool, Some, length};
ghost use Rattle.mh_grammar.specs.declared.types.Look.{Look as Look'};
ghost use Rattle.mh_reach.specs.Reaching.{LeastCostTo};
ghost use Rattle.mh_tables_core.specs.Failing.{max_sentence_cost};
ghost use Rattle.mh_explain.specs.FirstSentences.{IsFoundOn, IsFoundWith, IsShownWith};
ghost use Rattle.mh_explain.specs.code.Searched.{IsCostlier, IsNoSooner, IsSentenceOrder, IsShownBelow, IsSooner, TakesSooner, with_too_long};

use mh_grammar::{Look, Memory, Sentence, Token};
use mh_reach::Reach;
use mh_tables_core::{NextAction, Table, choose};
use std::alloc::Global;
use std::cmp::Ordering;

/// The greatest cost of a sentence that is written.
const MAX_SENTENCE_COST: u32 = 1_000_000;

/// What was found of the sentences that come to the state of a conflict.
#[derive(Drop)]
pub enum FoundSentence {
    /// No sentence comes to the state.
    NoSentence,
    /// Sentences come to the state, but each costs more than 1,000,000.
    TooLong,
    /// The first sentence that comes to the state, with its cost, and the token that comes next.
    First {
        cost: u32,
        sentence: Sentence,
        next: Token,
    },
}

/// True if a sentence that comes to this state runs into the conflict on this look when this token comes next: the look
/// is the token, or the look is the end of the stream and the state does not refuse the token.
fn is_shown_with(table: &Table, state: u32, look: Look, token: Token) -> bool
    requires state { state < length table.now.states }
    requires token { token < table.now.grammar.tokens }
    ensures { MatchBool result (IsShownWith table.now state look token) (IsShownWith table.now state look token → ⊥) }
{
    match look {
        Look::Token(shown) => shown == token,
        Look::End => !matches!(choose(table, state, Some(token)), NextAction::Refuse),
    }
}

/// The order of two sentences of one cost: by start, then by the numbers of the tokens in lexicographic order.
fn order(left: &Sentence, right: &Sentence) -> Ordering
    ensures { IsSentenceOrder left.now right.now result }
{
    match left.start.cmp(&right.start) {
        Ordering::Equal => left.tokens.as_slice().cmp(right.tokens.as_slice()),
        decided => decided,
    }
}

/// True if the best sentence so far costs less than the given cost.
fn costs_more(cost: u32, best: &FoundSentence) -> bool
    ensures { IsTrue result ↔ IsCostlier cost best.now }
{
    match best {
        FoundSentence::NoSentence | FoundSentence::TooLong => false,
        FoundSentence::First { cost: least, .. } => *least < cost,
    }
}

/// True if the sentence of this cost comes before the best one so far.
fn is_sooner(cost: u32, sentence: &Sentence, best: &FoundSentence) -> bool
    ensures { MatchBool result (IsSooner cost sentence.now best.now) (IsNoSooner cost sentence.now best.now) }
{
    match best {
        FoundSentence::NoSentence | FoundSentence::TooLong => true,
        FoundSentence::First {
            cost: least,
            sentence: first,
            ..
        } => match cost.cmp(least) {
            Ordering::Less => true,
            Ordering::Equal => order(sentence, first) == Ordering::Less,
            Ordering::Greater => false,
        },
    }
}

/// Replaces the best sentence so far by the given sentence of this cost, if the given sentence comes before the best.
fn take_sooner(best: &mut FoundSentence, cost: u32, sentence: Sentence, next: Token)
    ensures { TakesSooner cost sentence next best.old best.new }
{
    if is_sooner(cost, &sentence, best) {
        *best = FoundSentence::First {
            cost,
            sentence,
            next,
        };
    }
}

/// Notes that some sentence comes to the state, but costs too much.
fn note_too_long(best: &mut FoundSentence)
    ensures { best.new ≡ with_too_long best.old }
{
    if let FoundSentence::NoSentence = best {
        *best = FoundSentence::TooLong;
    }
}

/// Compares the best sentence so far with the first sentence that comes to the state with this token next. The cost is
/// the cost of that first sentence.
fn add_sentence(
    alloc: Global,
    reach: &Reach<'_>,
    state: u32,
    token: Token,
    cost: u32,
    best: &mut FoundSentence,
) -> Result<(), Memory>
    requires state { state < length reach.now.states }
    requires token { token < reach.now.grammar.tokens }
    requires least { LeastCostTo reach.now state token (Some cost) }
    requires cheap { cost ≤ max_sentence_cost }
    ensures { OnOk result ((look : Look') → IsShownWith reach.now state look token → IsFoundWith reach.now state (IsShownBelow reach.now state look token) best.old → IsFoundWith reach.now state (IsShownBelow reach.now state look (token + 1)) best.new) }
{
    if costs_more(cost, best) {
        return Ok(());
    }
    let sentence = reach.sentence_to(alloc, state, token)?;
    take_sooner(best, cost, sentence, token);
    Ok(())
}

/// Compares the best sentence so far with the first sentence that comes to the state with this token next. The tokens
/// are tried in rising order, so for equal sentences the lowest next token is kept.
fn add_token(
    alloc: Global,
    reach: &Reach<'_>,
    state: u32,
    token: Token,
    best: &mut FoundSentence,
) -> Result<(), Memory>
    requires state { state < length reach.now.states }
    requires token { token < reach.now.grammar.tokens }
    ensures { OnOk result ((look : Look') → IsShownWith reach.now state look token → IsFoundWith reach.now state (IsShownBelow reach.now state look token) best.old → IsFoundWith reach.now state (IsShownBelow reach.now state look (token + 1)) best.new) }
{
    match reach.cost_to(state, token) {
        None => Ok(()),
        Some(cost) => {
            if cost > MAX_SENTENCE_COST {
                note_too_long(best);
                return Ok(());
            }
            add_sentence(alloc, reach, state, token, cost, best)
        }
    }
}

/// Finds the first sentence that runs into a conflict of a state. For a conflict on a token, this token comes next. For
/// a conflict with the end of the stream, the lowest possible token that the state does not refuse comes next. Fails
/// only if memory runs out.
pub(crate) fn first_sentence(
    alloc: Global,
    reach: &Reach<'_>,
    state: u32,
    look: Look,
) -> Result<FoundSentence, Memory>
    requires { state < length reach.now.states }
    ensures { IfOk result (IsFoundOn reach.now state look) }
{
    let table = reach.table().table();
    let mut best = FoundSentence::NoSentence;
    for token in 0..table.tokens() {
        if is_shown_with(table, state, look, token) {
            add_token(alloc, reach, state, token, &mut best)?;
        }
    }
    Ok(best)
}
