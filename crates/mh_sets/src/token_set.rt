//! The public type of sets of lookaheads.
ghost use Rattle.std.specs.Prelude.{◌≡◌, [], ◌∷◌, ◌<◌, ◌≤◌, ◌*◌, ◌⊎◌, ◌↔◌, ◌++◌, true, false, length, slice_get, IsTrue, MatchOption};
ghost use Rattle.std.specs.List.{Contains};
ghost use Rattle.std.specs.Cmp.Lexicographic.{pointwise, lists_per, lists_equiv};
ghost use Rattle.std.specs.Hash as fed;
ghost use Rattle.mh_grammar.specs.declared.types.Look.{Look as LookOf};
ghost use Rattle.mh_grammar.specs.contracts.types.LookPartialEq.TheImpl.Laws.{laws-law as same_laws};
ghost use Rattle.mh_grammar.specs.contracts.types.LookEq.TheImpl.Laws.{laws-law as equal_laws};
ghost use Rattle.mh_grammar.specs.Plain.{IsLookBelow};
ghost use Rattle.mh_sets.specs.Sets.{IsSet};
ghost use Rattle.mh_sets.specs.BitWords.{bit_words_of, has_stream_end};
ghost use Rattle.mh_sets.specs.LookEquality.{looks_Decides};

use crate::bits::{are_within, clear_bit, has_bit, join, least, set_bit, share};
use mh_grammar::Look;
use std::alloc::AllocError;
use std::hash::{Hash, Hasher};
use std::marker::Model;

/// A set of lookaheads: tokens below 64 times the width W, and the end of the stream. Its model in contracts is the
/// rising list of its lookaheads.
#[derive(Drop)]
pub struct TokenSet<const W: usize> {
    words: [u64; W],
    end: bool,
}

impl<const W: usize> Model for TokenSet<W> {
    ghost use Rattle.std.specs.Prelude.{List};
    ghost use Rattle.mh_grammar.specs.declared.types.Look.{Look};
    ghost use Rattle.mh_sets.specs.BitWords.{looks_of, AreBitWords};

    ghost Value = { List Look };

    ghost view = { λ s. looks_of s.words s.end };

    ghost invariant = { λ s. AreBitWords W s.words };
}

impl<const W: usize> TokenSet<W> {
    /// The empty set.
    pub fn empty() -> TokenSet<W>
        requires { W ≤ 8 }
        ensures { result ≡ [] }
    {
        TokenSet {
            words: [0; W],
            end: false,
        }
    }

    /// The set with one lookahead.
    pub fn only(look: Look) -> TokenSet<W>
        requires few { W ≤ 8 }
        requires look { IsLookBelow (64 * W) look }
        ensures { result ≡ look ∷ [] }
    {
        let mut set = TokenSet::empty();
        set.insert(look);
        set
    }

    /// Adds a lookahead, and returns whether it was new.
    pub fn insert(&mut self, look: Look) -> bool
        requires { IsLookBelow (64 * W) look }
        ensures set { IsSet W self.new }
        ensures members { (b : LookOf) → Contains self.new b ↔ (Contains self.old b ⊎ (b ≡ look)) }
        ensures fresh { IsTrue result ↔ (Contains self.old look → ⊥) }
    {
        match look {
            Look::Token(token) => set_bit(&mut self.words, usize::from(token)),
            Look::End => {
                let fresh = !self.end;
                self.end = true;
                fresh
            }
        }
    }

    /// Returns whether a lookahead is in the set.
    pub fn contains(&self, look: Look) -> bool
        requires { IsLookBelow (64 * W) look }
        ensures { IsTrue result ↔ Contains self.now look }
    {
        match look {
            Look::Token(token) => has_bit(&self.words, usize::from(token)),
            Look::End => self.end,
        }
    }

    /// Adds the lookaheads of another set, and returns whether this set grew.
    pub fn union_into(&mut self, other: &TokenSet<W>) -> bool
        ensures set { IsSet W self.new }
        ensures members { (b : LookOf) → Contains self.new b ↔ (Contains self.old b ⊎ Contains other.now b) }
        ensures same { result ≡ false → self.new ≡ self.old }
        ensures grew { result ≡ true → length self.old < length self.new }
    {
        let fresh = join(&mut self.words, &other.words);
        let late = other.end & !self.end;
        self.end |= other.end;
        fresh | late
    }

    /// Returns whether two sets share a lookahead.
    pub fn meets(&self, other: &TokenSet<W>) -> bool
        ensures { IsTrue result ↔ ((b : LookOf) × Contains self.now b × Contains other.now b) }
    {
        share(&self.words, &other.words) | (self.end & other.end)
    }

    /// Returns whether each lookahead of this set is in the other set.
    pub fn is_subset(&self, other: &TokenSet<W>) -> bool
        ensures { IsTrue result ↔ ((b : LookOf) → Contains self.now b → Contains other.now b) }
    {
        are_within(&self.words, &other.words) & (!self.end | other.end)
    }

    /// Returns the lowest token; if there is none, the end of the stream; `None` if the set is empty.
    pub fn first(&self) -> Option<Look>
        ensures { result ≡ slice_get self.now 0 }
    {
        match least(&self.words) {
            Some(token) => Some(Look::Token(token as u16)),
            None if self.end => Some(Look::End),
            None => None,
        }
    }

    /// Removes the first lookahead and returns it; `None` if the set is empty.
    pub fn take_first(&mut self) -> Option<Look>
        ensures { MatchOption result ((self.old ≡ []) × (self.new ≡ [])) (λ look. self.old ≡ look ∷ self.new) }
    {
        match least(&self.words) {
            Some(token) => {
                clear_bit(&mut self.words, token);
                Some(Look::Token(token as u16))
            }
            None if self.end => {
                self.end = false;
                Some(Look::End)
            }
            None => None,
        }
    }

    /// Copies the set. It allocates no memory.
    pub fn copied(&self) -> TokenSet<W>
        ensures { result ≡ self.now }
    {
        TokenSet {
            words: self.words,
            end: self.end,
        }
    }

    /// Law: the lookaheads rise, and each token is below 64 times the width.
    pub fn is_set(&self)
        ensures { IsSet W self.now }
    {
        let _words = &self.words;
    }
}

impl<const W: usize> Clone for TokenSet<W> {
    ghost is_clone = { λ x y. y ≡ x };

    fn clone(&self) -> Result<TokenSet<W>, AllocError> {
        Ok(self.copied())
    }
}

impl<const W: usize> PartialEq for TokenSet<W> {
    ghost eq = { λ x y. pointwise ⟦<Look as PartialEq>⟧.eq x y };

    ghost laws = { lists_per same_laws };

    fn eq(&self, other: &TokenSet<W>) -> bool {
        (self.words == other.words) & (self.end == other.end)
    }
}

impl<const W: usize> Eq for TokenSet<W> {
    ghost laws = { lists_equiv equal_laws };
}

impl<const W: usize> Hash for TokenSet<W> {
    ghost hash_input = { λ looks. fed.slice fed.u64 (bit_words_of W looks) ++ fed.bool (has_stream_end looks) };

    ghost respects_eq = { (fed.same_Alike (λ looks. fed.slice fed.u64 (bit_words_of W looks) ++ fed.bool (has_stream_end looks)) looks_Decides).fed };

    fn hash<H: Hasher>(&self, state: &mut H) {
        self.words.hash(state);
        self.end.hash(state);
    }
}
