//! The lexicographic order of the words of a book.
ghost use Rattle.std.specs.Prelude.{IfOk, IsTrue};
ghost use Rattle.mh_reach_words.specs.code.Sorting.{LexNoLater};
ghost use Rattle.mh_reach_words.specs.code.Words.{AreSoundEntries, HasParts, words_of};

use crate::comparing::{Rests, compare};
use crate::sorting::Order;
use crate::word_parts::{WordEntry, WordParts};
use mh_grammar::Memory;
use std::cmp::Ordering;

/// The order of words by their tokens.
#[derive(Clone, Copy, Drop)]
pub(crate) struct BySpelling<'a> {
    pub(crate) entries: &'a [WordEntry],
}

impl<'a> Order for BySpelling<'a> {
    type Item = WordParts;

    type Rests = Rests;

    ghost is_sound = { λ order. AreSoundEntries order.entries.now };

    ghost is_known = { λ order made. HasParts (words_of order.entries.now) made };

    ghost in_turn = { λ order. LexNoLater (words_of order.entries.now) };

    fn comes_later(
        &self,
        rests: &mut Rests,
        left: WordParts,
        right: WordParts,
    ) -> Result<bool, Memory> {
        match compare(self.entries, rests, left, right)? {
            Ordering::Greater => Ok(true),
            Ordering::Less | Ordering::Equal => Ok(false),
        }
    }

    fn is_alike(&self, _left: WordParts, _right: WordParts) -> bool {
        false
    }
}
