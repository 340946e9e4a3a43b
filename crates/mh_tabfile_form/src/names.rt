//! Lists of names in two pieces of memory.
ghost use Rattle.std.specs.Prelude.{◌≡◌, ◌↔◌, ◌<◌, ◌≤◌, ◌-◌, length, map, take, drop, slice_index_or, IfOk, IsTrue};

use mh_grammar::Memory;
use std::alloc::Global;
use std::marker::Model;

/// A list of names. All bytes are in one list, name by name; the bounds are 0 and then the end of each name.
#[derive(Drop)]
pub struct Names {
    bytes: Vec<u8>,
    bounds: Vec<usize>,
}

impl Model for Names {
    ghost use Rattle.std.specs.Prelude.{List, ℕ, length, drop};
    ghost use Rattle.mh_tabfile_form.specs.code.Pieces.{pieces, AreBounds};

    ghost Value = { List (List ℕ) };

    ghost view = { λ n. pieces n.bytes.items 0 (drop 1 n.bounds.items) };

    ghost invariant = { λ n. AreBounds (length n.bytes.items) n.bounds.items };
}

/// The number of bytes of the words. The sum wraps if it exceeds the numbers of the machine.
fn total_length(words: &[&[u8]]) -> usize {
    let mut total = 0usize;
    for word in words {
        total = total.wrapping_add(word.len());
    }
    total
}

/// The bytes between two indices.
fn part_of(bytes: &[u8], start: usize, end: usize) -> &[u8]
    requires order { start ≤ end }
    requires within { end ≤ length bytes.now }
    ensures { result.now ≡ take (end - start) (drop start bytes.now) }
{
    &bytes[start..end]
}

fn are_same_bytes(bytes: &[u8], others: &[u8]) -> bool
    ensures { IsTrue result ↔ (bytes.now ≡ others.now) }
{
    bytes == others
}

fn are_same_bounds(bounds: &[usize], others: &[usize]) -> bool
    ensures { IsTrue result ↔ (bounds.now ≡ others.now) }
{
    bounds == others
}

impl Names {
    /// The list of these words.
    pub fn from_words(alloc: Global, words: &[&[u8]]) -> Result<Names, Memory>
        ensures { IfOk result (λ names. names ≡ map (λ word. word.now) words.now) }
    {
        let mut bytes = Vec::with_capacity(alloc, total_length(words))?;
        let mut bounds = Vec::with_capacity(alloc, words.len() + 1)?;
        bounds.push(0)?;
        for word in words {
            bytes.extend_from_slice(word)?;
            bounds.push(bytes.len())?;
        }
        Ok(Names { bytes, bounds })
    }

    /// The number of names.
    pub fn len(&self) -> usize
        ensures { result ≡ length self.now }
    {
        self.bounds.len() - 1
    }

    /// The name at an index, from 0.
    pub fn at(&self, index: usize) -> &[u8]
        requires { index < length self.now }
        ensures { result.now ≡ slice_index_or self.now index result.now }
    {
        part_of(
            self.bytes.as_slice(),
            self.bounds[index],
            self.bounds[index + 1],
        )
    }

    /// Returns true if both lists have the same names.
    pub fn is_same(&self, other: &Names) -> bool
        ensures { IsTrue result ↔ (self.now ≡ other.now) }
    {
        are_same_bounds(self.bounds.as_slice(), other.bounds.as_slice())
            && are_same_bytes(self.bytes.as_slice(), other.bytes.as_slice())
    }
}
