//! The work after the warnings: the refusal under `--strict`, or the mode.
ghost use Rattle.std.specs.Prelude.{◌≡◌};
ghost use Rattle.mh_top_drive.specs.code.ModeCalls.{InputAndOutCounts, ModeShelfCounts};
ghost use Rattle.mh_top_plans.specs.code.Modes.{OpenedAndRan};
ghost use Rattle.mh_top.specs.code.Premises.{MayRunMode};
ghost use Rattle.mh_top_claims.specs.Run.{IsNextAfterWarnings};
ghost use Rattle.mh_top_claims.specs.Work.{IsPlanOf};

use crate::modes::run_mode;
use mh_outside::{Shelf, Sink, Source};
use mh_top_drive::{Prepared, Stop, refused};
use mh_top_prepare::is_refused;
use std::alloc::Global;

/// Refuses a grammar with warnings under `--strict`, and otherwise runs the mode of the job.
pub(crate) fn run_unless_refused<F: Shelf, I: Source, O: Sink, const W: usize>(
    alloc: Global,
    prepared: &Prepared<W>,
    shelf: &mut F,
    input: &mut I,
    out: &mut O,
) -> Result<(), Stop>
    requires { MayRunMode W prepared.now (F.MayAsk shelf.old) (I.MayRead input.old) (O.MayWrite out.old) }
    ensures ran { OpenedAndRan (IsPlanOf (F.files shelf.old) prepared.now) (IsNextAfterWarnings (F.files shelf.old) prepared.now)
        (I.left input.old) (I.left input.new) (O.written out.old) (O.written out.new) result }
    ensures counts { InputAndOutCounts (I.faults input.old) (I.faults input.new)
        (O.faults out.old) (O.faults out.new) result }
    ensures read { ModeShelfCounts (F.faults shelf.old) (F.faults shelf.new) result }
    ensures kept { F.files shelf.new ≡ F.files shelf.old }
{
    if is_refused(prepared) {
        // The refusal adds no line to the warnings.
        return Err(refused(alloc, b"", b"", b""));
    }
    run_mode(alloc, prepared, shelf, input, out)
}
