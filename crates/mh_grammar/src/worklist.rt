//! Marks nonterminals by a worklist: each production is visited once for each symbol of its right side. The order of
//! the work only saves time. The passes of `marks` check afterwards that no production adds a mark.
ghost use Rattle.std.specs.Prelude.{◌≡◌, ◌≤◌, ◌^◌, length, vec_len, IfOk, OnOk};
ghost use Rattle.std.specs.List.{All};
ghost use Rattle.mh_grammar.specs.Marked.{AreSound};
ghost use Rattle.mh_grammar.specs.Plain.{plain_of, IsInRange, IsSymbolBelow};
ghost use Rattle.mh_grammar.specs.code.Worklist.{load};

use crate::marks::{is_marked, mark_left_side};
use crate::types::{Grammar, Memory, Symbol};
use std::alloc::Global;

/// The worklist: what the productions still lack, and the productions that lack nothing.
#[derive(Drop)]
pub struct Waiting {
    /// For each production the number of symbols in its right side without a mark.
    pub missing: Vec<usize>,
    /// The indices of the productions whose symbols are all marked.
    pub ready: Vec<usize>,
}

/// Marks the left side of each production whose symbols are all marked, until the worklist is empty.
pub(crate) fn mark_all(
    alloc: Global,
    grammar: &Grammar,
    tokens: bool,
    marks: &mut [bool],
) -> Result<(), Memory>
    requires range { IsInRange (plain_of grammar.now) }
    requires len { length marks.old ≡ length grammar.now.nonterminals }
    ensures len { length marks.new ≡ length marks.old }
    ensures sound { AreSound tokens grammar.now.productions marks.old → AreSound tokens grammar.now.productions marks.new }
{
    let users = users_of(alloc, grammar)?;
    let mut waiting = begun(alloc, grammar, tokens, marks)?;
    while let Some(place) = waiting.ready.pop() {
        if let Some(production) = grammar.productions.get(place) {
            if mark_left_side(tokens, production, marks) {
                serve_all(&users[usize::from(production.lhs)], &mut waiting)?;
            }
        }
    }
    Ok(())
}

/// For each nonterminal the indices of the productions whose right sides contain the nonterminal, once for each
/// occurrence. The list only guides a search, so the contract says no more than its length.
pub fn users_of(alloc: Global, grammar: &Grammar) -> Result<Vec<Vec<usize>>, Memory>
    requires { IsInRange (plain_of grammar.now) }
    ensures { IfOk result (λ users. vec_len users ≡ length grammar.now.nonterminals) }
{
    let mut users = Vec::new(alloc);
    for _ in 0..grammar.nonterminals.len() {
        users.push(Vec::new(alloc))?;
    }
    for (place, production) in grammar.productions.as_slice().iter().enumerate() {
        put_users(production.rhs.as_slice(), place, &mut users)?;
    }
    Ok(users)
}

/// Adds the index of a production to the users of each nonterminal in the right side.
fn put_users(symbols: &[Symbol], place: usize, users: &mut Vec<Vec<usize>>) -> Result<(), Memory>
    requires { All (IsSymbolBelow (2 ^ 16) (vec_len users.old)) symbols.now }
    ensures { vec_len users.new ≡ vec_len users.old }
{
    for symbol in symbols {
        if let Symbol::N(nonterminal) = *symbol {
            users[usize::from(nonterminal)].push(place)?;
        }
    }
    Ok(())
}

/// The first worklist: what each production lacks by the marks.
fn begun(alloc: Global, grammar: &Grammar, tokens: bool, marks: &[bool]) -> Result<Waiting, Memory>
    requires range { IsInRange (plain_of grammar.now) }
    requires len { length marks.now ≡ length grammar.now.nonterminals }
{
    let mut missing = Vec::new(alloc);
    let mut ready = Vec::new(alloc);
    for (place, production) in grammar.productions.as_slice().iter().enumerate() {
        let lacks = missing_in(tokens, marks, production.rhs.as_slice());
        missing.push(lacks)?;
        if lacks == 0 {
            ready.push(place)?;
        }
    }
    Ok(Waiting { missing, ready })
}

/// The number of symbols without a mark.
fn missing_in(tokens: bool, marks: &[bool], symbols: &[Symbol]) -> usize
    requires { All (IsSymbolBelow (2 ^ 16) (length marks.now)) symbols.now }
{
    let mut missing = 0;
    for symbol in symbols {
        if !is_marked(tokens, marks, *symbol) {
            missing += 1;
        }
    }
    missing
}

/// Counts, for each listed production, that one more symbol of the right side is marked.
fn serve_all(users: &[usize], waiting: &mut Waiting) -> Result<(), Memory>
    ensures { OnOk result (load waiting.new ≤ load waiting.old) }
{
    for user in users {
        serve(*user, waiting)?;
    }
    Ok(())
}

/// Counts that one more symbol of the right side is marked. A production that lacks nothing is ready.
fn serve(place: usize, waiting: &mut Waiting) -> Result<(), Memory>
    ensures { OnOk result (load waiting.new ≤ load waiting.old) }
{
    if place < waiting.missing.len() && waiting.missing[place] > 0 {
        waiting.missing[place] -= 1;
        if waiting.missing[place] == 0 {
            waiting.ready.push(place)?;
        }
    }
    Ok(())
}
