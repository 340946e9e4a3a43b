//! The least cost of a sentence that fails in a state, and the first sentence of that cost; the same for the sentences
//! that come to a state with a given token next. A spot is a state with a next token.
ghost use Rattle.std.specs.Prelude.{◌≡◌, ◌<◌, ◌++◌, IfOk, OnOk, length};
ghost use Rattle.mh_tables_core.specs.Failing.{FailsFirst, FailsWithinMaxCost};
ghost use Rattle.mh_reach.specs.Coming.{FirstComing, ComesWithinMaxCost};
ghost use Rattle.mh_facts.specs.code.TokenClasses.{IsSized};
ghost use Rattle.mh_facts.specs.code.WordCosts.{listed};
ghost use Rattle.mh_reach.specs.code.Candidates.{HasSentence, IsSentence, spot_of};
ghost use Rattle.mh_reach.specs.Reaching.{LeastCost, LeastCostTo};

use mh_facts::{TokenClasses, class_of};
use mh_grammar::{Memory, Sentence, Sequence, Token};
use mh_reach_spots::{Spots, arrival_at};
use mh_reach_words::{Book, StateAndNext};
use mh_tables_core::{Halting, Table};
use std::alloc::Global;
use std::marker::Model;

/// A candidate for the sentence of a state: the number of the sentence that reaches the state, the token that is
/// refused there, and the cost of the sentence with this token, up to the highest cost. The number of a sentence of the
/// highest cost has no meaning.
#[derive(Clone, Copy, Drop)]
pub struct FailureCandidate {
    pub cost: u32,
    pub sentence: usize,
    pub token: Token,
}

/// For each state of a table, whether a sentence fails there, and the first sentence that does; and for each token,
/// whether a sentence comes to the state with the token next, and the first that does.
pub struct Reach<'t> {
    pub(crate) table: &'t Halting,
    pub(crate) classes: TokenClasses,
    pub(crate) spots: Spots,
    pub(crate) best: Vec<Option<FailureCandidate>>,
}

// The exit of a function drops this value by one call. With the derived destructor it would drop each field.
impl<'t> Drop for Reach<'t> {
    fn drop(self) {
        let Reach {
            table: _,
            classes: _,
            spots,
            best,
        } = self;
        drop(spots);
        drop(best);
    }
}

impl<'t> Model for Reach<'t> {
    ghost use Rattle.mh_tables_core.specs.Table.{TableData};
    ghost use Rattle.mh_reach.specs.code.Candidates.{IsReachResult};

    ghost Value = { TableData };

    ghost view = { λ r. r.table.now };

    ghost invariant = { λ r. IsReachResult r.table.now r.classes r.spots r.best.items };
}

/// Appends a token, if there is one.
fn push_last(tokens: &mut Vec<Token>, last: Option<Token>) -> Result<(), Memory>
    ensures { OnOk result (tokens.new.items ≡ tokens.old.items ++ listed last) }
{
    if let Some(token) = last {
        tokens.push(token)?;
    }
    Ok(())
}

/// The sentence of a number of the book, with one more token if one is given. The first number of the sentence's word
/// is the start.
fn sentence_at(
    alloc: Global,
    book: &Book,
    number: usize,
    last: Option<Token>,
) -> Result<Sentence, Memory>
    requires { HasSentence book.now number }
    ensures { IfOk result (IsSentence book.now number last) }
{
    let mut tokens = book.spell(alloc, number)?;
    let start = tokens.remove(0);
    push_last(&mut tokens, last)?;
    Ok(Sentence {
        start,
        tokens: Sequence::from_vec(tokens),
    })
}

/// The spot of a state with a token next, by the representative of the token.
fn spot_of(table: &Table, classes: &TokenClasses, state: u32, token: Token) -> StateAndNext
    requires sized { IsSized table.now classes.now }
    requires state { state < length table.now.states }
    requires token { token < table.now.grammar.tokens }
    ensures { result ≡ spot_of classes.now state token }
{
    StateAndNext {
        state,
        next: class_of(table, classes, state, token).representative,
    }
}

impl<'t> Reach<'t> {
    /// The table that was searched.
    pub fn table(&self) -> &'t Halting
        ensures { result.now ≡ self.now }
    {
        self.table
    }

    /// The least cost of a sentence that fails in a state, none if no sentence does. The cost 1,000,001 means more than
    /// 1,000,000.
    pub fn cost_of(&self, state: u32) -> Option<u32>
        requires { state < length self.now.states }
        ensures { LeastCost self.now state result }
    {
        match self.best[state as usize] {
            None => None,
            Some(best) => Some(best.cost),
        }
    }

    /// The first of the sentences that fail in a state: by cost, then by start, then by the numbers of the tokens in
    /// lexicographic order. A sentence that costs at most 1,000,000 must fail there. Fails only if memory runs out.
    pub fn sentence_of(&self, alloc: Global, state: u32) -> Result<Sentence, Memory>
        requires state { state < length self.now.states }
        requires within_max_cost { FailsWithinMaxCost self.now state }
        ensures { IfOk result (λ sentence. FailsFirst self.now sentence.start sentence.tokens state) }
    {
        match self.best[state as usize] {
            None => unreachable!(),
            Some(best) => { sentence_at(alloc, &self.spots.book, best.sentence, Some(best.token)) }
        }
    }

    /// The least cost of a sentence that comes to a state with this token next, none if no sentence does. The token
    /// next has no part in the cost. The cost 1,000,001 means more than 1,000,000.
    pub fn cost_to(&self, state: u32, token: Token) -> Option<u32>
        requires state { state < length self.now.states }
        requires token { token < self.now.grammar.tokens }
        ensures { LeastCostTo self.now state token result }
    {
        let table = self.table.table();
        let spot = spot_of(table, &self.classes, state, token);
        match arrival_at(&self.spots, spot) {
            None => None,
            Some(arrival) => Some(arrival.cost),
        }
    }

    /// The first of the sentences that come to a state with this token next, without this token: by cost, then by
    /// start, then by the numbers of the tokens in lexicographic order. A sentence that costs at most 1,000,000 must
    /// come there. Fails only if memory runs out.
    pub fn sentence_to(&self, alloc: Global, state: u32, token: Token) -> Result<Sentence, Memory>
        requires state { state < length self.now.states }
        requires token { token < self.now.grammar.tokens }
        requires cheap { ComesWithinMaxCost self.now state token }
        ensures { IfOk result (λ sentence. FirstComing self.now sentence.start sentence.tokens state token) }
    {
        let table = self.table.table();
        let spot = spot_of(table, &self.classes, state, token);
        match arrival_at(&self.spots, spot) {
            None => unreachable!(),
            Some(arrival) => sentence_at(alloc, &self.spots.book, arrival.sentence, None),
        }
    }
}
