//! The mode that lists the errors: it makes the catalogue of the table, and then writes the entry of each row as soon
//! as the entry is made.
use crate::entries::write_entries;
use crate::refusing::stop_of;
use mh_catalogue::catalogue;
use mh_outside::Sink;
use mh_top_drive::{Prepared, Stop};
use mh_top_plans::Writer;
use std::alloc::Global;

/// The mode of `--list-errors`, as a writer of the list of errors.
#[derive(Drop)]
pub struct ErrorList<'a, const W: usize> {
    pub prepared: &'a Prepared<W>,
}

impl<'a, const W: usize> Writer for ErrorList<'a, W> {
    ghost use Rattle.std.specs.Prelude.{◌≤◌};
    ghost use Rattle.mh_top_plans.specs.Plan.{Errors};
    ghost use Rattle.mh_top_drive.specs.code.Prepared.{IsConsistent};

    ghost is_ready = { λ s. (W ≤ 8) × IsConsistent s.prepared.now };

    ghost end = { λ s. Errors s.prepared.now };

    fn write<O: Sink>(self, alloc: Global, out: &mut O) -> Result<(), Stop> {
        match catalogue(alloc, &self.prepared.tabled.halting) {
            Ok(rows) => write_entries(alloc, self.prepared, rows.as_slice(), out),
            Err(fault) => Err(stop_of(alloc, fault)),
        }
    }
}
