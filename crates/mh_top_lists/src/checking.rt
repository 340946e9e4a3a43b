//! The mode that reports what is wrong with a messages file: the mode reads the blocks of the file, makes the catalogue
//! of the table, and then writes the lines.
ghost use Rattle.std.specs.Prelude.{◌≡◌};
ghost use Rattle.mh_opts.specs.declared.jobs.Job.TheVariants.{CheckErrors};
ghost use Rattle.mh_top_drive.specs.code.ModeCalls.{EndIsWritten, InputAndOutCounts, ModeShelfCounts, OutCounts};
ghost use Rattle.mh_top_plans.specs.ErrorsChecked.{cause_of_lines};
ghost use Rattle.mh_top_plans.specs.Files.{IsNextFileOfJob};
ghost use Rattle.mh_top_plans.specs.Plan.{IsPlanOfJob};
ghost use Rattle.mh_top_plans.specs.code.Modes.{MayRunWithFiles, OpenedAndRan};

use crate::refusing::errors_stop_of;
use mh_lint_messages::error_lines;
use mh_msgfile::LooseBlocks;
use mh_outside::{Shelf, Sink, Source};
use mh_top_drive::{Prepared, Stop, refused, write_text};
use mh_top_plans::{Writer, read_examined_file, write_at_end};
use std::alloc::Global;

/// The mode of `--check-errors`, as a writer of what is wrong with the file.
#[derive(Drop)]
struct FileErrors<'a, const W: usize> {
    prepared: &'a Prepared<W>,
    name: &'a [u8],
    blocks: LooseBlocks,
}

/// Writes these lines. If there is a line, the run then ends with status 1.
fn write_lines<O: Sink>(alloc: Global, out: &mut O, lines: &[u8]) -> Result<(), Stop>
    requires { O.MayWrite out.old }
    ensures text { EndIsWritten (λ e. e ≡ record { cause = cause_of_lines lines.now; out = lines.now }) (O.written out.old) (O.written out.new) result }
    ensures counts { OutCounts (O.faults out.old) (O.faults out.new) result }
{
    match write_text(out, lines) {
        Ok(()) if lines.is_empty() => Ok(()),
        Ok(()) => Err(refused(alloc, b"", b"", b"")),
        Err(stop) => Err(stop),
    }
}

impl<const W: usize> Writer for FileErrors<'_, W> {
    ghost use Rattle.std.specs.Prelude.{◌≤◌};
    ghost use Rattle.mh_msgfile.specs.LooseFiles.{HasShortLines};
    ghost use Rattle.mh_top_plans.specs.Plan.{Checked};
    ghost use Rattle.mh_top_drive.specs.code.Prepared.{IsConsistent};

    ghost is_ready = { λ s. (W ≤ 8) × IsConsistent s.prepared.now × HasShortLines s.blocks.file };

    ghost end = { λ s. Checked s.name.now s.blocks s.prepared.now };

    fn write<O: Sink>(self, alloc: Global, out: &mut O) -> Result<(), Stop> {
        match error_lines(
            alloc,
            &self.prepared.grammar,
            &self.prepared.tabled.halting,
            self.name,
            &self.blocks,
        ) {
            Ok(lines) => write_lines(alloc, out, &lines),
            Err(fault) => Err(errors_stop_of(alloc, fault)),
        }
    }
}

/// Reads the named messages file, and runs the mode that reports what is wrong with the file.
pub fn check_errors<F: Shelf, I: Source, O: Sink, const W: usize>(
    alloc: Global,
    prepared: &Prepared<W>,
    shelf: &mut F,
    name: &[u8],
    input: &mut I,
    out: &mut O,
) -> Result<(), Stop>
    requires { MayRunWithFiles W prepared.now (F.MayAsk shelf.old name.now) (I.MayRead input.old) (O.MayWrite out.old) }
    ensures ran { OpenedAndRan (IsPlanOfJob (CheckErrors name.now) (F.files shelf.old) prepared.now)
        (IsNextFileOfJob (CheckErrors name.now) (F.files shelf.old) prepared.now)
        (I.left input.old) (I.left input.new) (O.written out.old) (O.written out.new) result }
    ensures counts { InputAndOutCounts (I.faults input.old) (I.faults input.new)
        (O.faults out.old) (O.faults out.new) result }
    ensures read { ModeShelfCounts (F.faults shelf.old) (F.faults shelf.new) result }
    ensures kept { F.files shelf.new ≡ F.files shelf.old }
{
    match read_examined_file(alloc, shelf, name) {
        Ok(blocks) => {
            let writer = FileErrors {
                prepared,
                name,
                blocks,
            };
            write_at_end(alloc, writer, input, out)
        }
        Err(stop) => Err(stop),
    }
}
