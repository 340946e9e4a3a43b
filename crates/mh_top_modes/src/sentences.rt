//! The modes that write sentences of the grammar: the shortest word of each nonterminal, and a random sentence.
ghost use Rattle.std.specs.Prelude.{◌≡◌, ◌<◌, ◌≤◌, length as len, IfOk};
ghost use Rattle.mh_grammar.specs.Plain.{plain_of, IsInRange};
ghost use Rattle.mh_opts.specs.Numbers.{max_length};
ghost use Rattle.mh_sample.specs.Sentences.{IsShortestText};
ghost use Rattle.mh_top_plans.specs.Drawn.{IsDrawn, none_within as none_within_line};
ghost use Rattle.mh_top_plans.specs.declared.at_end.FinalText.TheVariants.{Refusal as Refusal'};

use mh_grammar::{Grammar, Memory, Sequence, start_name};
use mh_outside::Sink;
use mh_sample::{RandomFault, random_text, shortest_text};
use mh_top_drive::{Prepared, Stop, write_text};
use mh_top_plans::{FinalText, Writer, write_final, written};
use std::alloc::Global;

/// The writer of the shortest word of each nonterminal.
#[derive(Drop)]
pub struct ShortestWords<'a, const W: usize> {
    pub prepared: &'a Prepared<W>,
}

/// Makes the lines of the shortest words.
fn lines(alloc: Global, grammar: &Grammar) -> Result<Sequence<u8>, Memory>
    requires { IsInRange (plain_of grammar.now) }
    ensures { IfOk result (IsShortestText grammar.now) }
{
    Ok(Sequence::from_vec(shortest_text(alloc, grammar)?))
}

impl<const W: usize> Writer for ShortestWords<'_, W> {
    ghost use Rattle.std.specs.Prelude.{◌≤◌};
    ghost use Rattle.mh_top_plans.specs.Plan.{Shortest};
    ghost use Rattle.mh_top_drive.specs.code.Prepared.{IsConsistent};

    ghost is_ready = { λ s. (W ≤ 8) × IsConsistent s.prepared.now };

    ghost end = { λ s. Shortest s.prepared.now };

    fn write<O: Sink>(self, alloc: Global, out: &mut O) -> Result<(), Stop> {
        let text = lines(alloc, &self.prepared.grammar)?;
        write_text(out, text.as_slice())
    }
}

/// The writer of the random sentence of a seed, of at most `length` tokens.
#[derive(Drop)]
pub struct RandomSentence<'a, const W: usize> {
    pub prepared: &'a Prepared<W>,
    pub seed: u64,
    pub length: u32,
}

/// Refuses the length if each sentence has more tokens.
fn none_within(alloc: Global, grammar: &Grammar, length: u32) -> Result<FinalText, Memory>
    ensures { IfOk result (λ made. made ≡ Refusal' (none_within_line grammar.now length)) }
{
    let mut line = b"menhir: no sentence of ".to_vec(alloc)?;
    line.extend_from_slice(start_name(grammar, 0))?;
    let limit = format!(in alloc; " within {length} tokens\n")?;
    line.extend_from_slice(limit.as_bytes())?;
    Ok(FinalText::Refusal {
        line: Sequence::from_vec(line),
    })
}

/// Makes the line of the random sentence.
fn drawn(alloc: Global, grammar: &Grammar, seed: u64, length: u32) -> Result<FinalText, Memory>
    requires range { IsInRange (plain_of grammar.now) }
    requires start { 0 < len grammar.now.starts }
    requires few { length ≤ max_length }
    ensures { IfOk result (IsDrawn grammar.now seed length) }
{
    match random_text(alloc, grammar, seed, length) {
        Ok(text) => Ok(written(text)),
        Err(RandomFault::NoneWithin) => none_within(alloc, grammar, length),
        Err(RandomFault::Memory) => Err(Memory),
    }
}

impl<const W: usize> Writer for RandomSentence<'_, W> {
    ghost use Rattle.std.specs.Prelude.{◌≤◌};
    ghost use Rattle.mh_opts.specs.Numbers.{max_length};
    ghost use Rattle.mh_top_plans.specs.Plan.{Random};
    ghost use Rattle.mh_top_drive.specs.code.Prepared.{IsConsistent};

    ghost is_ready = { λ s. (W ≤ 8) × IsConsistent s.prepared.now × (s.length ≤ max_length) };

    ghost end = { λ s. Random s.seed s.length s.prepared.now };

    fn write<O: Sink>(self, alloc: Global, out: &mut O) -> Result<(), Stop> {
        let made = drawn(alloc, &self.prepared.grammar, self.seed, self.length)?;
        write_final(out, made)
    }
}
