//! The mode of `--write-tables`: the automaton and its table as a table file.
ghost use Rattle.std.specs.Prelude.{◌≡◌, ◌≤◌, IfOk};
ghost use Rattle.mh_top_drive.specs.code.Prepared.{IsConsistent};
ghost use Rattle.mh_top_plans.specs.Plan.{table_file_text};

use mh_grammar::{Memory, Sequence};
use mh_outside::Sink;
use mh_tabfile::write_tables;
use mh_top_drive::{Prepared, Stop, write_text};
use mh_top_plans::Writer;
use std::alloc::Global;

/// The mode of `--write-tables`, as a writer of the table file.
#[derive(Drop)]
pub struct TableFile<'a, const W: usize> {
    pub prepared: &'a Prepared<W>,
}

/// The text of the table file.
fn exported<const W: usize>(alloc: Global, prepared: &Prepared<W>) -> Result<Sequence<u8>, Memory>
    requires few { W ≤ 8 }
    requires consistent { IsConsistent prepared.now }
    ensures { IfOk result (λ text. text ≡ table_file_text prepared.now) }
{
    let text = write_tables(
        alloc,
        &prepared.grammar,
        &prepared.tabled.automaton,
        prepared.tabled.halting.table(),
        prepared.tabled.mode,
    )?;
    Ok(Sequence::from_vec(text))
}

impl<const W: usize> Writer for TableFile<'_, W> {
    ghost use Rattle.std.specs.Prelude.{◌≤◌};
    ghost use Rattle.mh_top_plans.specs.FinalText.{end_of_final_text};
    ghost use Rattle.mh_top_plans.specs.Plan.{Known, table_file_text};
    ghost use Rattle.mh_top_plans.specs.declared.at_end.FinalText.TheVariants.{Written};
    ghost use Rattle.mh_top_drive.specs.code.Prepared.{IsConsistent};

    ghost is_ready = { λ s. (W ≤ 8) × IsConsistent s.prepared.now };

    ghost end = { λ s. Known (end_of_final_text (Written (table_file_text s.prepared.now))) };

    fn write<O: Sink>(self, alloc: Global, out: &mut O) -> Result<(), Stop> {
        let text = exported(alloc, self.prepared)?;
        write_text(out, text.as_slice())
    }
}
