//! The book of the words that a search has found, by their numbers.
ghost use Rattle.std.specs.Prelude.{◌≡◌, ◌<◌, [], ◌∷◌, IfOk, OnErr, length};
ghost use Rattle.mh_reach_words.specs.code.Comparison.{IsComparison};
ghost use Rattle.mh_reach_words.specs.code.Numbering.{AreBelowGroup, ArePrefixFree, AreKnown, IsNumberingOf};
ghost use Rattle.mh_reach_words.specs.code.Words.{HasParts, IsBook, empty_word, letters_of, spelled};

use crate::comparing::{Rests, compare};
use crate::numbering::number_words;
use crate::word_parts::{WordEntry, WordParts};
use crate::writing::spell;
use mh_grammar::{Memory, Token};
use std::alloc::Global;
use std::cmp::Ordering;
use std::marker::Model;

/// Distinct words in groups, by their numbers. The empty word has the number 0 and the group 0. Groups rise with the
/// numbers, and in each group the words rise lexicographically; no word of a group is a prefix of another word of the
/// group.
#[derive(Drop)]
pub struct Book {
    entries: Vec<WordEntry>,
}

impl Model for Book {
    ghost use Rattle.mh_reach_words.specs.code.Words.{AreSoundEntries, Words, words_of};

    ghost Value = { Words };

    ghost view = { λ b. words_of b.entries.items };

    ghost invariant = { λ b. AreSoundEntries b.entries.items };
}

impl Book {
    /// A book that has the empty word alone.
    pub fn new(alloc: Global) -> Book
        ensures { result ≡ empty_word ∷ [] }
    {
        Book {
            entries: Vec::new(alloc),
        }
    }

    /// Law: the words of a book are in their order.
    pub fn rising(&self)
        ensures { IsBook self.now }
    {
        let _entries = &self.entries;
    }

    /// Adds words as a new group above all others and returns the number of each; equal words get one number. Fails
    /// only if memory runs out; the book then stays as it was.
    pub fn number_all(
        &mut self,
        alloc: Global,
        group: u32,
        made: &[WordParts],
    ) -> Result<Vec<usize>, Memory>
        requires known { AreKnown self.old made.now }
        requires fresh { AreBelowGroup self.old group }
        requires prefix_free { ArePrefixFree self.old made.now }
        ensures numbered { IfOk result (λ numbers. IsNumberingOf self.old self.new group made.now numbers.items) }
        ensures failed { OnErr result (self.new ≡ self.old) }
    {
        let numbered = number_words(alloc, self.entries.as_slice(), group, made)?;
        self.entries.extend_from_slice(numbered.entries.as_slice())?;
        Ok(numbered.numbers)
    }

    /// Compares two words by their parts lexicographically. The stacks are scratch space. Fails only if memory
    /// runs out.
    pub fn compare(
        &self,
        rests: &mut Rests,
        left: WordParts,
        right: WordParts,
    ) -> Result<Ordering, Memory>
        requires left { HasParts self.now left }
        requires right { HasParts self.now right }
        ensures { IfOk result (IsComparison (spelled self.now left) (spelled self.now right)) }
    {
        compare(self.entries.as_slice(), rests, left, right)
    }

    /// The tokens of the word of a number. Fails only if memory runs out.
    pub fn spell(&self, alloc: Global, number: usize) -> Result<Vec<Token>, Memory>
        requires { number < length self.now }
        ensures { IfOk result (λ letters. letters.items ≡ letters_of self.now number) }
    {
        spell(alloc, self.entries.as_slice(), number)
    }
}
