//! The best candidate for the sentence of each state, by the result of the second search.
ghost use Rattle.std.specs.Prelude.{◌≡◌, ◌<◌, IfOk, IfSome, length};
ghost use Rattle.mh_facts.specs.code.TokenClasses.{AreTokenClasses};
ghost use Rattle.mh_reach_words.specs.code.Sorting.{IsLater, LexNoLater};
ghost use Rattle.mh_reach_words.specs.code.Words.{HasParts};
ghost use Rattle.mh_reach_spots.specs.code.Spots.{AreLeastArrivals};
ghost use Rattle.mh_reach.specs.code.Candidates.{AreBest, AreKnownSentences, CostsAreCapped, IsBestBelow, IsBetterOf, IsBetterOfOptions, IsCandidateOn, IsKnownCandidate, made_of};

use crate::sentences::{FailureCandidate, Reach};
use mh_facts::{CAP, TokenClasses, add_token, class_of};
use mh_grammar::{Memory, Token};
use mh_reach_spots::{Spots, arrival_at};
use mh_reach_words::{LastPart, Rests, StateAndNext, WordParts, no_rests};
use mh_tables_core::{Halting, NextAction, Table, choose};
use std::alloc::Global;
use std::cmp::Ordering;

/// The parts of the sentence of a candidate: the sentence that reaches the state, and the refused token.
fn made_of(best: FailureCandidate) -> WordParts
    ensures { result ≡ made_of best }
{
    WordParts {
        front: best.sentence,
        last: LastPart::Token(best.token),
    }
}

/// The candidate of a state for one token, none if the state does not refuse the token or is not reached with it.
fn best_on(
    table: &Table,
    classes: &TokenClasses,
    spots: &Spots,
    state: u32,
    token: Token,
) -> Option<FailureCandidate>
    requires classes { AreTokenClasses table.now classes.now }
    requires arrivals { CostsAreCapped spots.now.spots }
    requires state { state < length table.now.states }
    requires token { token < table.now.grammar.tokens }
    ensures { IsCandidateOn table.now classes.now spots.now.spots state token result }
{
    table.facts();
    match choose(table, state, Some(token)) {
        NextAction::Refuse => {
            let spot = StateAndNext {
                state,
                next: class_of(table, classes, state, token).representative,
            };
            match arrival_at(spots, spot) {
                None => None,
                Some(arrival) => Some(FailureCandidate {
                    cost: add_token(table, arrival.cost, token),
                    sentence: arrival.sentence,
                    token,
                }),
            }
        }
        _ => None,
    }
}

/// Whether the sentence of the left candidate comes later, by start and then lexicographically.
fn comes_later(
    spots: &Spots,
    rests: &mut Rests,
    left: FailureCandidate,
    right: FailureCandidate,
) -> Result<bool, Memory>
    requires left { HasParts spots.now.book (made_of left) }
    requires right { HasParts spots.now.book (made_of right) }
    ensures { IfOk result (IsLater (LexNoLater spots.now.book) (made_of left) (made_of right)) }
{
    match spots.book.compare(rests, made_of(left), made_of(right))? {
        Ordering::Greater => Ok(true),
        Ordering::Less | Ordering::Equal => Ok(false),
    }
}

/// The better of two candidates: by cost, then by sentence. Sentences of the highest cost are not compared.
fn sooner_of(
    spots: &Spots,
    rests: &mut Rests,
    left: FailureCandidate,
    right: FailureCandidate,
) -> Result<FailureCandidate, Memory>
    requires left { IsKnownCandidate spots.now.book left }
    requires right { IsKnownCandidate spots.now.book right }
    ensures { IfOk result (IsBetterOf spots.now.book left right) }
{
    if left.cost < right.cost {
        return Ok(left);
    }
    if right.cost < left.cost {
        return Ok(right);
    }
    if left.cost >= CAP {
        return Ok(left);
    }
    if comes_later(spots, rests, left, right)? {
        Ok(right)
    } else {
        Ok(left)
    }
}

/// Compares the best so far with a new candidate, if both exist, and returns the better one.
fn first_of(
    spots: &Spots,
    rests: &mut Rests,
    best: Option<FailureCandidate>,
    more: Option<FailureCandidate>,
) -> Result<Option<FailureCandidate>, Memory>
    requires best { IfSome best (IsKnownCandidate spots.now.book) }
    requires more { IfSome more (IsKnownCandidate spots.now.book) }
    ensures { IfOk result (IsBetterOfOptions spots.now.book best more) }
{
    match (best, more) {
        (None, more) => Ok(more),
        (Some(best), None) => Ok(Some(best)),
        (Some(left), Some(right)) => {
            let first = sooner_of(spots, rests, left, right)?;
            Ok(Some(first))
        }
    }
}

/// The best candidate of a state, none if no sentence fails there.
fn best_of(
    table: &Table,
    classes: &TokenClasses,
    spots: &Spots,
    rests: &mut Rests,
    state: u32,
) -> Result<Option<FailureCandidate>, Memory>
    requires classes { AreTokenClasses table.now classes.now }
    requires arrivals { CostsAreCapped spots.now.spots }
    requires sentences { AreKnownSentences spots.now.book spots.now.spots }
    requires state { state < length table.now.states }
    ensures { IfOk result (IsBestBelow table.now classes.now spots.now.book spots.now.spots state table.now.grammar.tokens) }
{
    let mut best = None;
    for token in 0..table.tokens() {
        let more = best_on(table, classes, spots, state, token);
        best = first_of(spots, rests, best, more)?;
    }
    Ok(best)
}

/// The best candidate of each state.
fn all_best(
    alloc: Global,
    table: &Table,
    classes: &TokenClasses,
    spots: &Spots,
) -> Result<Vec<Option<FailureCandidate>>, Memory>
    requires classes { AreTokenClasses table.now classes.now }
    requires arrivals { CostsAreCapped spots.now.spots }
    requires sentences { AreKnownSentences spots.now.book spots.now.spots }
    ensures { IfOk result (λ best. AreBest table.now classes.now spots.now.book spots.now.spots (length table.now.states) best.items) }
{
    let mut rests = no_rests(alloc);
    let mut all = Vec::new(alloc);
    for state in 0..table.states() {
        let best = best_of(table, classes, spots, &mut rests, state)?;
        all.push(best)?;
    }
    Ok(all)
}

/// Chooses the best candidates, and keeps the classes and the arrivals, which spell sentences. Fails only if memory
/// runs out.
pub(crate) fn reach_by<'t>(
    alloc: Global,
    table: &'t Halting,
    classes: TokenClasses,
    spots: Spots,
) -> Result<Reach<'t>, Memory>
    requires classes { AreTokenClasses table.now classes }
    requires arrivals { AreLeastArrivals table.now classes spots }
    ensures { IfOk result (λ reach. reach ≡ table.now) }
{
    let inner = table.table();
    inner.facts();
    match all_best(alloc, inner, &classes, &spots) {
        Ok(best) => Ok(Reach {
            table,
            classes,
            spots,
            best,
        }),
        Err(memory) => {
            // Each value is dropped by one call: at the end of a scope its fields would be dropped one by one, which
            // takes long to prove.
            drop(classes);
            drop(spots);
            Err(memory)
        }
    }
}
