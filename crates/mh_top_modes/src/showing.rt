//! The mode of `--show-automaton`: the automaton as text.
ghost use Rattle.std.specs.Prelude.{◌≤◌, IfOk};
ghost use Rattle.mh_report.specs.Automata.{IsAutomatonText};
ghost use Rattle.mh_top_drive.specs.code.Prepared.{IsConsistent};

use mh_grammar::{Memory, Sequence};
use mh_outside::Sink;
use mh_report::automaton_text;
use mh_top_drive::{Prepared, Stop, write_text};
use mh_top_plans::Writer;
use std::alloc::Global;

/// The mode of `--show-automaton`, as a writer of the text of the automaton.
#[derive(Drop)]
pub struct AutomatonText<'a, const W: usize> {
    pub prepared: &'a Prepared<W>,
}

/// The text of the automaton.
fn shown<const W: usize>(alloc: Global, prepared: &Prepared<W>) -> Result<Sequence<u8>, Memory>
    requires few { W ≤ 8 }
    requires consistent { IsConsistent prepared.now }
    ensures { IfOk result (λ text. IsAutomatonText prepared.now.grammar prepared.now.tabled.automaton
        prepared.now.tabled.mode prepared.now.tabled.halting text) }
{
    let text = automaton_text(
        alloc,
        &prepared.grammar,
        &prepared.tabled.automaton,
        &prepared.tabled.halting,
        prepared.tabled.mode,
    )?;
    Ok(Sequence::from_vec(text))
}

impl<'a, const W: usize> Writer for AutomatonText<'a, W> {
    ghost use Rattle.std.specs.Prelude.{◌≤◌};
    ghost use Rattle.mh_top_plans.specs.Plan.{Automaton};
    ghost use Rattle.mh_top_drive.specs.code.Prepared.{IsConsistent};

    ghost is_ready = { λ s. (W ≤ 8) × IsConsistent s.prepared.now };

    ghost end = { λ s. Automaton s.prepared.now };

    fn write<O: Sink>(self, alloc: Global, out: &mut O) -> Result<(), Stop> {
        let text = shown(alloc, self.prepared)?;
        write_text(out, text.as_slice())
    }
}
