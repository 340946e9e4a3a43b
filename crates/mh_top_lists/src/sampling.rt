//! The mode that counts a sample: it makes the catalogue of the table, runs the sentences of the sample, and writes one
//! line of counts.
ghost use Rattle.mh_sample.specs.Counts.{IsSampleLine};
ghost use Rattle.mh_top_drive.specs.code.ModeCalls.{OutCounts};
ghost use Rattle.mh_top_lists.specs.code.Entries.{WritesWholeText};
ghost use Rattle.mh_top_drive.specs.code.Prepared.{IsConsistent};

use crate::refusing::stop_of;
use mh_catalogue::catalogue;
use mh_outside::Sink;
use mh_sample::sample_line;
use mh_top_drive::{Prepared, Stop, write_text};
use mh_top_plans::Writer;
use std::alloc::Global;

/// Writes the line of counts. `listed` is the number of rows of the catalogue.
fn write_counts<O: Sink, const W: usize>(
    alloc: Global,
    prepared: &Prepared<W>,
    number: u32,
    listed: usize,
    out: &mut O,
) -> Result<(), Stop>
    requires consistent { IsConsistent prepared.now }
    requires may_write { O.MayWrite out.old }
    ensures text { WritesWholeText (IsSampleLine prepared.now.grammar prepared.now.tabled.halting number listed) (O.written out.old) (O.written out.new) result }
    ensures counts { OutCounts (O.faults out.old) (O.faults out.new) result }
{
    let table = &prepared.tabled.halting;
    let line = sample_line(alloc, number, &prepared.grammar, table, listed)?;
    write_text(out, &line)
}

/// The mode of `--sample`, as a writer of the counts of the sample with this number.
#[derive(Drop)]
pub struct SampleCounts<'a, const W: usize> {
    pub prepared: &'a Prepared<W>,
    pub number: u32,
}

impl<const W: usize> Writer for SampleCounts<'_, W> {
    ghost use Rattle.std.specs.Prelude.{◌≤◌};
    ghost use Rattle.mh_top_plans.specs.Plan.{Sampled};
    ghost use Rattle.mh_top_drive.specs.code.Prepared.{IsConsistent};

    ghost is_ready = { λ s. (W ≤ 8) × IsConsistent s.prepared.now };

    ghost end = { λ s. Sampled s.number s.prepared.now };

    fn write<O: Sink>(self, alloc: Global, out: &mut O) -> Result<(), Stop> {
        match catalogue(alloc, &self.prepared.tabled.halting) {
            Ok(rows) => write_counts(
                alloc,
                self.prepared,
                self.number,
                rows.as_slice().len(),
                out,
            ),
            Err(fault) => Err(stop_of(alloc, fault)),
        }
    }
}
