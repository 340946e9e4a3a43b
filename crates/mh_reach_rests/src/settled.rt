//! The settled words: what each is sought for, its cost, and its number.
ghost use Rattle.std.specs.Prelude.{◌≡◌, ◌∷◌, ◌++◌, [], None, OnOk};
ghost use Rattle.mh_reach_rests.specs.code.SettledWords.{Settles, rest_at, goto_at, settled_at};

use crate::sought::Sought;
use mh_facts::{FactKey, GotoFact, OrderedMap};
use mh_grammar::Memory;
use std::alloc::Global;

/// The cost of a word, and its number. The number of a word of the highest cost has no meaning.
#[derive(Clone, Copy, Drop)]
pub struct SettledWord {
    pub cost: u32,
    pub word: usize,
}

/// The settled words of rests and of goto facts.
#[derive(Drop)]
pub struct SettledWords {
    pub rests: OrderedMap<FactKey, SettledWord>,
    pub gotos: OrderedMap<GotoFact, SettledWord>,
}

/// No words.
pub(crate) fn no_words(alloc: Global) -> SettledWords
    ensures rests { result.rests ≡ [] }
    ensures gotos { result.gotos ≡ [] }
{
    SettledWords {
        rests: OrderedMap::new(alloc),
        gotos: OrderedMap::new(alloc),
    }
}

/// The settled word of a rest, if there is one.
pub(crate) fn word_of_rest(settled: &SettledWords, key: FactKey) -> Option<SettledWord>
    ensures { result ≡ rest_at settled.now.rests key }
{
    settled.rests.get(&key).copied()
}

/// The settled word of a goto fact, if there is one.
pub fn word_of_goto(settled: &SettledWords, fact: GotoFact) -> Option<SettledWord>
    ensures { result ≡ goto_at settled.now.gotos fact }
{
    settled.gotos.get(&fact).copied()
}

/// The settled word of what is sought, if there is one.
pub(crate) fn word_of(settled: &SettledWords, sought: Sought) -> Option<SettledWord>
    ensures { result ≡ settled_at settled.now sought }
{
    match sought {
        Sought::Rest(key) => word_of_rest(settled, key),
        Sought::Goto(fact) => word_of_goto(settled, fact),
    }
}

/// Stores the word of a rest that has none. Fails only if memory runs out.
fn settle_rest(settled: &mut SettledWords, key: FactKey, word: SettledWord) -> Result<(), Memory>
    requires { rest_at settled.old.rests key ≡ None }
    ensures rests { OnOk result (settled.new.rests ≡ settled.old.rests ++ (key, word) ∷ []) }
    ensures gotos { OnOk result (settled.new.gotos ≡ settled.old.gotos) }
{
    settled.rests.push(key, word)?;
    Ok(())
}

/// Stores the word of a goto fact that has none. Fails only if memory runs out.
fn settle_goto(settled: &mut SettledWords, fact: GotoFact, word: SettledWord) -> Result<(), Memory>
    requires { goto_at settled.old.gotos fact ≡ None }
    ensures rests { OnOk result (settled.new.rests ≡ settled.old.rests) }
    ensures gotos { OnOk result (settled.new.gotos ≡ settled.old.gotos ++ (fact, word) ∷ []) }
{
    settled.gotos.push(fact, word)?;
    Ok(())
}

/// Stores the word of what has none. Fails only if memory runs out.
pub(crate) fn settle(
    settled: &mut SettledWords,
    sought: Sought,
    word: SettledWord,
) -> Result<(), Memory>
    requires { settled_at settled.old sought ≡ None }
    ensures { OnOk result (Settles settled.old settled.new sought word) }
{
    match sought {
        Sought::Rest(key) => settle_rest(settled, key, word),
        Sought::Goto(fact) => settle_goto(settled, fact, word),
    }
}
