//! The public call: the random sentence of a seed.
ghost use Rattle.std.specs.Prelude.{◌≡◌, ◌<◌, ◌≤◌, length as len, IfOk, IfErr};
ghost use Rattle.mh_grammar.specs.Plain.{plain_of, start_symbol, IsInRange, IsSentence};
ghost use Rattle.mh_sample.specs.Faults.{MayFail};
ghost use Rattle.mh_sample.specs.Random.{IsRandom};
ghost use Rattle.mh_sample.specs.code.Rows.{length_in};
ghost use Rattle.mh_sample.specs.code.Writing.{IsGuide};
ghost use Rattle.mh_sample.specs.declared.random.RandomFault.TheVariants.{Memory as Memory'};
ghost use Rattle.mh_sample.specs.WordLimit.{max_word};

use crate::rows::{least_lengths, rows_of};
use crate::shortest::shortest_words;
use crate::word::TokenWord;
use crate::writing::{Guide, begun, write_all};
use mh_grammar::{Grammar, Memory};
use std::alloc::{AllocError, AllocFailed, Global};

/// The reason why there is no random sentence.
#[derive(Clone, Copy, Debug, PartialEq, Eq)]
pub enum RandomFault {
    /// Each sentence of the first start symbol has more tokens than the limit.
    NoneWithin,
    /// Memory ran out.
    Memory,
}

impl From<Memory> for RandomFault {
    ghost from_gives = { λ _ e. e ≡ Memory' };

    fn from(_: Memory) -> Self {
        RandomFault::Memory
    }
}

/// The random sentence of a seed: a sentence of the first start symbol, of at most `length` tokens. The call fails with
/// `NoneWithin` exactly if each sentence of the first start symbol has more tokens, and with `Memory` only if memory
/// runs out.
pub fn random_sentence(
    alloc: Global,
    grammar: &Grammar,
    seed: u64,
    length: u32,
) -> Result<TokenWord, RandomFault>
    requires range { IsInRange (plain_of grammar.now) }
    requires start { 0 < len grammar.now.starts }
    requires few { length ≤ max_word }
    ensures random { IfOk result (λ s. IsRandom (plain_of grammar.now) seed length s) }
    ensures sentence { IfOk result (λ s. IsSentence (plain_of grammar.now) 0 s) }
    ensures within { IfOk result (λ s. len s ≤ length) }
    ensures fault { IfErr result (MayFail (plain_of grammar.now) length) }
{
    let shortest = shortest_words(alloc, grammar)?;
    let lengths = least_lengths(alloc, shortest.as_slice())?;
    if lengths[usize::from(grammar.starts[0])] > length as usize {
        return Err(RandomFault::NoneWithin);
    }
    let rows = rows_of(alloc, grammar, lengths.as_slice())?;
    let guide = Guide {
        grammar,
        shortest: shortest.as_slice(),
        lengths: lengths.as_slice(),
        rows: rows.as_slice(),
        seed,
        limit: length as usize,
    };
    Ok(sentence_by(alloc, &guide)?)
}

/// The random sentence by the guide.
fn sentence_by(alloc: Global, guide: &Guide<'_>) -> Result<TokenWord, Memory>
    requires guide { IsGuide guide.now }
    requires start { 0 < len guide.now.grammar.now.starts }
    requires fits { length_in guide.now.lengths.now (start_symbol (plain_of guide.now.grammar.now) 0) ≤ guide.now.limit }
    ensures random { IfOk result (λ s. IsRandom (plain_of guide.now.grammar.now) guide.now.seed guide.now.limit s) }
{
    let mut writing = begun(alloc, guide)?;
    write_all(alloc, guide, &mut writing)?;
    Ok(TokenWord::from_vec(writing.written))
}
