//! The mode that explains those conflicts for which there is a warning.
ghost use Rattle.std.specs.Prelude.{IfOk};
ghost use Rattle.mh_explain.specs.Explanations.{AreExplanations};
ghost use Rattle.mh_items.specs.Fitting.{FitsSets};
ghost use Rattle.mh_top_drive.specs.code.Prepared.{IsConsistent};

use mh_explain::explanation_text;
use mh_grammar::{Memory, Sequence};
use mh_outside::Sink;
use mh_top_drive::{Prepared, Stop, write_text};
use mh_top_plans::Writer;
use std::alloc::Global;

/// The mode of `--explain`, as a writer of the explanations of conflicts.
#[derive(Drop)]
pub struct ConflictExplanations<'a, const W: usize> {
    pub prepared: &'a Prepared<W>,
}

/// The explanations of the conflicts.
fn explained<const W: usize>(alloc: Global, prepared: &Prepared<W>) -> Result<Sequence<u8>, Memory>
    requires fits { FitsSets W prepared.now.grammar }
    requires consistent { IsConsistent prepared.now }
    ensures { IfOk result (λ text. AreExplanations prepared.now.grammar prepared.now.tabled.automaton
        prepared.now.tabled.halting prepared.now.tabled.conflicts text) }
{
    let text = explanation_text(
        alloc,
        &prepared.grammar,
        &prepared.tabled.automaton,
        &prepared.tabled.halting,
        prepared.tabled.conflicts.as_slice(),
    )?;
    Ok(Sequence::from_vec(text))
}

impl<const W: usize> Writer for ConflictExplanations<'_, W> {
    ghost use Rattle.mh_items.specs.Fitting.{FitsSets};
    ghost use Rattle.mh_top_plans.specs.Plan.{Conflicts};
    ghost use Rattle.mh_top_drive.specs.code.Prepared.{IsConsistent};

    ghost is_ready = { λ s. FitsSets W s.prepared.now.grammar × IsConsistent s.prepared.now };

    ghost end = { λ s. Conflicts s.prepared.now };

    fn write<O: Sink>(self, alloc: Global, out: &mut O) -> Result<(), Stop> {
        let text = explained(alloc, self.prepared)?;
        write_text(out, text.as_slice())
    }
}
