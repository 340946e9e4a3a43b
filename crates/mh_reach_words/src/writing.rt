//! Writing out the words of a book.
ghost use Rattle.std.specs.Prelude.{◌≡◌, ◌<◌, IfOk, OnOk, length};
ghost use Rattle.mh_reach_words.specs.code.Words.{AreSoundEntries, IsLastBelow, letters_of, words_of};
ghost use Rattle.mh_reach_words.specs.code.Writing.{WritesPart};

use crate::comparing::{open, take_top};
use crate::word_parts::{LastPart, WordEntry};
use mh_grammar::{Memory, Token};
use std::alloc::Global;

/// Writes a token, or replaces a word by its parts on the stack.
fn write_part(
    entries: &[WordEntry],
    parts: &mut Vec<LastPart>,
    letters: &mut Vec<Token>,
    part: LastPart,
) -> Result<(), Memory>
    requires sound { AreSoundEntries entries.now }
    requires known { IsLastBelow (length (words_of entries.now)) part }
    ensures { OnOk result (WritesPart (words_of entries.now) part parts.old.items parts.new.items letters.old.items letters.new.items) }
{
    match part {
        LastPart::Token(token) => {
            letters.push(token)?;
            Ok(())
        }
        LastPart::Word(number) => open(entries, parts, number),
    }
}

/// The tokens of the word of a number. Fails only if memory runs out.
pub fn spell(alloc: Global, entries: &[WordEntry], number: usize) -> Result<Vec<Token>, Memory>
    requires sound { AreSoundEntries entries.now }
    requires known { number < length (words_of entries.now) }
    ensures { IfOk result (λ letters. letters.items ≡ letters_of (words_of entries.now) number) }
{
    let mut parts = Vec::new(alloc);
    parts.push(LastPart::Word(number))?;
    let mut letters = Vec::new(alloc);
    'parts: loop {
        match take_top(&mut parts) {
            None => return Ok(letters),
            Some(part) => write_part(entries, &mut parts, &mut letters, part)?,
        }
    }
}
