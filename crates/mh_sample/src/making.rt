//! Makes a sample: its grammar and its sentences.
ghost use Rattle.std.specs.Prelude.{◌≡◌, IfOk};
ghost use Rattle.mh_sample.specs.Texts.{grammar_text, sentences_text};

use crate::texts::{Sample, sample_grammar, sample_sentences};
use mh_grammar::Memory;
use std::alloc::Global;

/// Returns the grammar file and the sentences of a sample. The higher the number of an operator, the tighter the
/// operator binds. Fails only if memory runs out.
pub fn sample(alloc: Global, number: u32) -> Result<Sample, Memory>
    ensures grammar { IfOk result (λ sample. sample.grammar.items ≡ grammar_text number) }
    ensures sentences { IfOk result (λ sample. sample.sentences.items ≡ sentences_text number) }
{
    let grammar = sample_grammar(alloc, number)?;
    let sentences = sample_sentences(alloc, number)?;
    Ok(Sample { grammar, sentences })
}
