//! Finds words for the nonterminals in the order of the words, the least first (Knuth, "A generalization of Dijkstra's
//! algorithm", 1977). When all symbols of a right side have words, the production offers the concatenation of these
//! words to its left side. The least of all offers is the least word of its nonterminal. So each nonterminal gets one
//! word, and each production is visited once for each of its symbols. A pass over all productions checks afterwards
//! that no word can become earlier.
ghost use Rattle.std.specs.Prelude.{◌≡◌, ◌<◌, ◌≤◌, ◌+◌, ◌^◌, length, sum, vec_len, OnOk};
ghost use Rattle.std.specs.BinaryHeap.{heap_len};
ghost use Rattle.mh_grammar.specs.Plain.{plain_of, IsInRange, IsProductionBelow};
ghost use Rattle.mh_sample.specs.code.Chains.{AreDerived};
ghost use Rattle.mh_sample.specs.code.Offers.{load, KeepsDerived};

use crate::chains::{fits, spelled};
use crate::improving::improve;
use crate::order::Offer;
use crate::word::{MAX_WORD, TokenWord};
use mh_grammar::{Grammar, Memory, Production, Symbol, users_of};
use std::alloc::Global;
use std::cmp::Reverse;
use std::collections::BinaryHeap;

/// The worklist: what the productions still lack, and their offers.
pub struct Waiting {
    /// For each production the number of symbols in its right side without a word.
    pub missing: Vec<usize>,
    /// The heap of offers, with the least offer on top.
    pub offers: BinaryHeap<Reverse<Offer>>,
}

// The exit of a function drops this value by one call. With the derived destructor it would drop each field.
impl Drop for Waiting {
    fn drop(self) {
        let Waiting { missing, offers } = self;
        drop(missing);
        drop(offers);
    }
}

/// Gives a word to each nonterminal that has words of at most `MAX_WORD` tokens, in the order of the offers.
pub fn settle(
    alloc: Global,
    grammar: &Grammar,
    words: &mut Vec<Option<TokenWord>>,
) -> Result<(), Memory>
    requires range { IsInRange (plain_of grammar.now) }
    requires len { vec_len words.old ≡ length grammar.now.nonterminals }
    ensures len { vec_len words.new ≡ length grammar.now.nonterminals }
    ensures derived { OnOk result (KeepsDerived (plain_of grammar.now) words.old.items words.new.items) }
{
    let users = users_of(alloc, grammar)?;
    let mut waiting = Waiting {
        missing: Vec::new(alloc),
        offers: BinaryHeap::new(alloc),
    };
    begin(alloc, grammar, words, &mut waiting)?;
    while let Some(Reverse(offer)) = waiting.offers.pop() {
        accept(alloc, grammar, &users, offer.place, words, &mut waiting)?;
    }
    Ok(())
}

/// Counts the nonterminals of each right side. A production without nonterminals makes its offer.
fn begin(
    alloc: Global,
    grammar: &Grammar,
    words: &[Option<TokenWord>],
    waiting: &mut Waiting,
) -> Result<(), Memory>
    requires range { IsInRange (plain_of grammar.now) }
    requires len { length words.now ≡ length grammar.now.nonterminals }
{
    for (place, production) in grammar.productions.as_slice().iter().enumerate() {
        let missing = nonterminals_in(production.rhs.as_slice());
        waiting.missing.push(missing)?;
        if missing == 0 {
            put_offer(alloc, words, production, place, &mut waiting.offers)?;
        }
    }
    Ok(())
}

/// The number of nonterminals among the symbols.
fn nonterminals_in(symbols: &[Symbol]) -> usize {
    symbols
        .iter()
        .filter(|symbol| matches!(**symbol, Symbol::N(_)))
        .count()
}

/// Offers the word of a right side to the left side, if the left side has no word and the word is not too long.
fn put_offer(
    alloc: Global,
    words: &[Option<TokenWord>],
    production: &Production,
    place: usize,
    offers: &mut BinaryHeap<Reverse<Offer>>,
) -> Result<(), Memory>
    requires { IsProductionBelow (2 ^ 16) (length words.now) production.now }
    ensures { OnOk result (heap_len offers.new ≤ heap_len offers.old + 1) }
{
    let symbols = production.rhs.as_slice();
    if words[usize::from(production.lhs)].is_some() || !fits(words, symbols, MAX_WORD) {
        return Ok(());
    }
    if let Some(word) = spelled(alloc, words, symbols)? {
        let tokens = word.into_vec();
        let length = tokens.len();
        offers.push(Reverse(Offer {
            length,
            tokens,
            place,
        }))?;
    }
    Ok(())
}

/// Accepts the offer of a production, if the offer makes the word of the left side earlier. Then each occurrence of the
/// left side in a right side lacks its word no longer.
fn accept(
    alloc: Global,
    grammar: &Grammar,
    users: &[Vec<usize>],
    place: usize,
    words: &mut Vec<Option<TokenWord>>,
    waiting: &mut Waiting,
) -> Result<(), Memory>
    requires range { IsInRange (plain_of grammar.now) }
    requires len { vec_len words.old ≡ length grammar.now.nonterminals }
    requires users { length users.now ≡ length grammar.now.nonterminals }
    ensures len { vec_len words.new ≡ length grammar.now.nonterminals }
    ensures derived { OnOk result (KeepsDerived (plain_of grammar.now) words.old.items words.new.items) }
    ensures ends { OnOk result (load waiting.new ≤ load waiting.old) }
{
    if let Some(production) = grammar.productions.get(place) {
        if improve(alloc, production, words)? {
            for user in &users[usize::from(production.lhs)] {
                serve(alloc, grammar, words, *user, waiting)?;
            }
        }
    }
    Ok(())
}

/// Counts that one more symbol of the right side has a word. When all symbols have words, the production makes its
/// offer.
fn serve(
    alloc: Global,
    grammar: &Grammar,
    words: &[Option<TokenWord>],
    place: usize,
    waiting: &mut Waiting,
) -> Result<(), Memory>
    requires range { IsInRange (plain_of grammar.now) }
    requires len { length words.now ≡ length grammar.now.nonterminals }
    ensures ends { OnOk result (load waiting.new ≤ load waiting.old) }
{
    if place < waiting.missing.len() && waiting.missing[place] > 0 {
        waiting.missing[place] -= 1;
        if waiting.missing[place] == 0 {
            if let Some(production) = grammar.productions.get(place) {
                put_offer(alloc, words, production, place, &mut waiting.offers)?;
            }
        }
    }
    Ok(())
}
