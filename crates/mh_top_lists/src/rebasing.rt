//! The mode that rebases a messages file onto the grammar: it reads the entries of the file, makes the catalogue of the
//! table, and then writes the rebased text.
ghost use Rattle.std.specs.Prelude.{◌≡◌};
ghost use Rattle.mh_opts.specs.declared.jobs.Job.TheVariants.{RebaseErrors};
ghost use Rattle.mh_top_plans.specs.Files.{IsNextFileOfJob};
ghost use Rattle.mh_top_plans.specs.Plan.{IsPlanOfJob};
ghost use Rattle.mh_top_plans.specs.code.Modes.{MayRunWithFiles, OpenedAndRan};
ghost use Rattle.mh_top_drive.specs.code.ModeCalls.{InputAndOutCounts, ModeShelfCounts};

use crate::refusing::rebase_stop_of;
use mh_msgfile::LooseFile;
use mh_outside::{Shelf, Sink, Source};
use mh_rebase::rebase;
use mh_top_drive::{Prepared, Stop, write_text};
use mh_top_plans::{Writer, read_loose_file, write_at_end};
use std::alloc::Global;

/// The mode of `--rebase-errors`, as a writer of the rebased file.
#[derive(Drop)]
struct RebasedFile<'a, const W: usize> {
    prepared: &'a Prepared<W>,
    file: LooseFile,
}

impl<const W: usize> Writer for RebasedFile<'_, W> {
    ghost use Rattle.std.specs.Prelude.{◌≤◌};
    ghost use Rattle.mh_msgfile.specs.LooseFiles.{HasShortLines};
    ghost use Rattle.mh_top_plans.specs.Plan.{Rebased};
    ghost use Rattle.mh_top_drive.specs.code.Prepared.{IsConsistent};

    ghost is_ready = { λ s. (W ≤ 8) × IsConsistent s.prepared.now × HasShortLines s.file };

    ghost end = { λ s. Rebased s.file s.prepared.now };

    fn write<O: Sink>(self, alloc: Global, out: &mut O) -> Result<(), Stop> {
        let tabled = &self.prepared.tabled;
        match rebase(
            alloc,
            &self.prepared.grammar,
            &tabled.automaton,
            &tabled.halting,
            &self.file,
            self.prepared.order.comment_expected,
        ) {
            Ok(text) => write_text(out, &text),
            Err(fault) => Err(rebase_stop_of(alloc, fault)),
        }
    }
}

/// Reads the entries of the named messages file, and runs the mode that writes the file rebased onto the grammar.
pub fn rebase_errors<F: Shelf, I: Source, O: Sink, const W: usize>(
    alloc: Global,
    prepared: &Prepared<W>,
    shelf: &mut F,
    file: &[u8],
    input: &mut I,
    out: &mut O,
) -> Result<(), Stop>
    requires { MayRunWithFiles W prepared.now (F.MayAsk shelf.old file.now) (I.MayRead input.old) (O.MayWrite out.old) }
    ensures ran { OpenedAndRan (IsPlanOfJob (RebaseErrors file.now) (F.files shelf.old) prepared.now)
        (IsNextFileOfJob (RebaseErrors file.now) (F.files shelf.old) prepared.now)
        (I.left input.old) (I.left input.new) (O.written out.old) (O.written out.new) result }
    ensures counts { InputAndOutCounts (I.faults input.old) (I.faults input.new)
        (O.faults out.old) (O.faults out.new) result }
    ensures read { ModeShelfCounts (F.faults shelf.old) (F.faults shelf.new) result }
    ensures kept { F.files shelf.new ≡ F.files shelf.old }
{
    match read_loose_file(alloc, shelf, file) {
        Ok(file) => write_at_end(alloc, RebasedFile { prepared, file }, input, out),
        Err(stop) => Err(stop),
    }
}
