//! Writes a sentence from the left to the right.
ghost use Rattle.std.specs.Prelude.{◌≡◌, ◌<◌, ◌≤◌, ◌+◌, ◌%◌, [], ◌∷◌, ◌++◌, Some, length, reverse, slice_get, IfOk, OnOk};
ghost use Rattle.std.specs.List.{filter};
ghost use Rattle.rand_pcg.specs.Pcg.{pcg32};
ghost use Rattle.mh_grammar.specs.declared.types.Symbol.TheVariants.{T, N};
ghost use Rattle.mh_grammar.specs.Plain.{plain_of, start_symbol};
ghost use Rattle.mh_sample.specs.code.Rows.{fits, length_in};
ghost use Rattle.mh_sample.specs.code.Writing.{rounds_left, Ends, IsGuide, IsPopped, IsWriting, Treats};
ghost use Rattle.mh_sample.specs.DrawLimit.{max_draws};

use crate::rows::{Choice, length_of};
use crate::word::Shortest;
use mh_grammar::{Grammar, Memory, Sequence, Symbol, Token};
use rand_core::SeedableRng;
use rand_core::utils::NextWord;
use rand_pcg::Lcg64Xsh32;
use std::alloc::Global;

/// The most draws. After the last draw each nonterminal is replaced by its shortest word.
pub const MAX_DRAWS: u32 = 10_000;

/// The grammar with all that the writing reads from: shortest words, lengths, rows, seed and limit.
#[derive(Clone, Copy)]
pub struct Guide<'a> {
    pub grammar: &'a Grammar,
    /// The shortest word of each nonterminal.
    pub shortest: &'a [Shortest],
    /// The least length of each nonterminal.
    pub lengths: &'a [usize],
    /// The productions of each nonterminal.
    pub rows: &'a [Sequence<Choice>],
    /// The seed of the generator.
    pub seed: u64,
    /// The most tokens of the sentence.
    pub limit: usize,
}

/// A sentence that is being written.
#[derive(Drop)]
pub struct Writing {
    pub generator: Lcg64Xsh32,
    pub draws: u32,
    pub written: Vec<Token>,
    /// The symbols still to be written, in reverse: the last symbol of the list comes first.
    pub pending: Vec<Symbol>,
    /// The least length of the pending symbols.
    pub needed: usize,
}

/// The choices of the row with a length of at most `room`.
fn candidates(alloc: Global, row: &[Choice], room: usize) -> Result<Vec<Choice>, Memory>
    ensures { IfOk result (λ v. v.items ≡ filter (fits room) row.now) }
{
    let mut candidates = Vec::new(alloc);
    for choice in row {
        if choice.length <= room {
            candidates.push(*choice)?;
        }
    }
    Ok(candidates)
}

/// Draws one of the candidates.
fn drawn(generator: &mut Lcg64Xsh32, candidates: &[Choice]) -> Choice
    requires { 0 < length candidates.now }
    ensures generator { generator.new ≡ (pcg32 generator.old).1 }
    ensures choice { slice_get candidates.now ((pcg32 generator.old).0 % length candidates.now) ≡ Some result }
{
    let number = generator.next_word() as usize;
    candidates[number % candidates.len()]
}

/// Puts a right side before the pending symbols.
fn put_front(pending: &mut Vec<Symbol>, symbols: &[Symbol]) -> Result<(), Memory>
    ensures { OnOk result (pending.new.items ≡ pending.old.items ++ reverse symbols.now) }
{
    for place in (0..symbols.len()).rev() {
        pending.push(symbols[place])?;
    }
    Ok(())
}

/// Writes the token that was popped.
fn write_token(guide: &Guide<'_>, writing: &mut Writing, token: Token) -> Result<(), Memory>
    requires { IsPopped guide.now (T token) writing.old }
    ensures keeps { OnOk result (IsWriting guide.now writing.new) }
    ensures treats { OnOk result (Treats guide.now (T token) writing.old writing.new) }
    ensures ends { OnOk result (rounds_left writing.new ≡ rounds_left writing.old) }
{
    writing.written.push(token)?;
    Ok(())
}

/// Replaces the nonterminal that was popped by the right side of a production that is drawn.
fn draw_production(
    alloc: Global,
    guide: &Guide<'_>,
    writing: &mut Writing,
    nonterminal: u16,
) -> Result<(), Memory>
    requires guide { IsGuide guide.now }
    requires popped { IsPopped guide.now (N nonterminal) writing.old }
    requires draws { writing.old.draws < max_draws }
    ensures keeps { OnOk result (IsWriting guide.now writing.new) }
    ensures treats { OnOk result (Treats guide.now (N nonterminal) writing.old writing.new) }
    ensures ends { OnOk result (rounds_left writing.new < rounds_left writing.old) }
{
    let row = guide.rows[usize::from(nonterminal)].as_slice();
    let room = guide.limit - writing.written.len() - writing.needed;
    let candidates = candidates(alloc, row, room)?;
    let choice = drawn(&mut writing.generator, candidates.as_slice());
    writing.draws += 1;
    writing.needed += choice.length;
    let production = &guide.grammar.productions[choice.place as usize];
    put_front(&mut writing.pending, production.rhs.as_slice())
}

/// Replaces the nonterminal that was popped by its shortest word.
fn write_least(guide: &Guide<'_>, writing: &mut Writing, nonterminal: u16) -> Result<(), Memory>
    requires guide { IsGuide guide.now }
    requires popped { IsPopped guide.now (N nonterminal) writing.old }
    requires draws { max_draws ≤ writing.old.draws }
    ensures keeps { OnOk result (IsWriting guide.now writing.new) }
    ensures treats { OnOk result (Treats guide.now (N nonterminal) writing.old writing.new) }
    ensures ends { OnOk result (rounds_left writing.new ≡ rounds_left writing.old) }
{
    let Shortest::Word(word) = &guide.shortest[usize::from(nonterminal)] else {
        unreachable!()
    };
    writing.written.extend_from_slice(word.as_slice())?;
    Ok(())
}

/// Handles the symbol that was popped.
fn treat(
    alloc: Global,
    guide: &Guide<'_>,
    writing: &mut Writing,
    symbol: Symbol,
) -> Result<(), Memory>
    requires guide { IsGuide guide.now }
    requires popped { IsPopped guide.now symbol writing.old }
    ensures keeps { OnOk result (IsWriting guide.now writing.new) }
    ensures treats { OnOk result (Treats guide.now symbol writing.old writing.new) }
    ensures ends { OnOk result (rounds_left writing.new < rounds_left writing.old + 1) }
{
    match symbol {
        Symbol::T(token) => write_token(guide, writing, token),
        Symbol::N(nonterminal) => {
            if writing.draws < MAX_DRAWS {
                draw_production(alloc, guide, writing, nonterminal)
            } else {
                write_least(guide, writing, nonterminal)
            }
        }
    }
}

/// Handles the pending symbols, the first symbol first, until none is left.
pub fn write_all(alloc: Global, guide: &Guide<'_>, writing: &mut Writing) -> Result<(), Memory>
    requires guide { IsGuide guide.now }
    requires writing { IsWriting guide.now writing.old }
    ensures { OnOk result (Ends guide.now writing.old writing.new.written.items) }
{
    while let Some(symbol) = writing.pending.pop() {
        writing.needed -= length_of(guide.lengths, symbol);
        treat(alloc, guide, writing, symbol)?;
    }
    Ok(())
}

/// The first state of the writing: no token is written, and the first start symbol is pending.
pub fn begun(alloc: Global, guide: &Guide<'_>) -> Result<Writing, Memory>
    requires guide { IsGuide guide.now }
    requires some { 0 < length guide.now.grammar.now.starts }
    requires fits { length_in guide.now.lengths.now (start_symbol (plain_of guide.now.grammar.now) 0) ≤ guide.now.limit }
    ensures keeps { IfOk result (IsWriting guide.now) }
    ensures is { IfOk result (λ w. (w.draws ≡ 0) × (w.written.items ≡ []) × (w.pending.items ≡ start_symbol (plain_of guide.now.grammar.now) 0 ∷ [])) }
{
    let start = Symbol::N(guide.grammar.starts[0]);
    let mut pending = Vec::new(alloc);
    pending.push(start)?;
    Ok(Writing {
        generator: Lcg64Xsh32::seed_from_u64(guide.seed),
        draws: 0,
        written: Vec::new(alloc),
        pending,
        needed: length_of(guide.lengths, start),
    })
}
