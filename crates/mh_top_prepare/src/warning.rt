//! The warnings on conflicts, and whether the grammar is refused for its conflicts.
ghost use Rattle.std.specs.Prelude.{◌≡◌, ◌≤◌, ◌&&◌};
ghost use Rattle.mh_top_drive.specs.code.ModeCalls.{OutCounts};
ghost use Rattle.mh_top_prepare.specs.code.Warnings.{Warned};
ghost use Rattle.mh_top_prepare.specs.Warnings.{has_warning as has_warning_in, is_warned as is_warned_of, warnings_of};
ghost use Rattle.mh_top_drive.specs.code.MayWriteAfter.{MayWriteAfter};

use mh_outside::Sink;
use mh_report::warning_text;
use mh_resolve_cells::{Conflict, ConflictKind};
use mh_top_drive::{Prepared, Stop, write_text};
use std::alloc::Global;

/// True if conflicts of the kind have a warning: all but those that levels of precedence solve.
fn is_warned(kind: ConflictKind) -> bool
    ensures { result ≡ is_warned_of kind }
{
    match kind {
        ConflictKind::Solved => false,
        ConflictKind::Unsolved => true,
        ConflictKind::Stream => true,
    }
}

/// True if some of the conflicts have a warning.
fn has_warning(conflicts: &[Conflict]) -> bool
    ensures { result ≡ has_warning_in conflicts.now }
{
    conflicts.iter().any(|conflict| is_warned(conflict.kind))
}

/// True if the grammar is refused for its conflicts: under `--strict`, if one has a warning.
pub fn is_refused<const W: usize>(prepared: &Prepared<W>) -> bool
    requires { W ≤ 8 }
    ensures { result ≡ (prepared.now.order.strict && has_warning_in prepared.now.tabled.conflicts) }
{
    prepared.order.strict && has_warning(prepared.tabled.conflicts.as_slice())
}

/// Writes the warnings on the conflicts.
pub fn warn<E: Sink, const W: usize>(
    alloc: Global,
    prepared: &Prepared<W>,
    err: &mut E,
) -> Result<(), Stop>
    requires few { W ≤ 8 }
    requires may_write { E.MayWrite err.old }
    ensures text { Warned (warnings_of prepared.now) (E.written err.old) (E.written err.new) result }
    ensures may_write_on { MayWriteAfter (E.MayWrite err.new) result }
    ensures counts { OutCounts (E.faults err.old) (E.faults err.new) result }
{
    let text = warning_text(
        alloc,
        &prepared.grammar,
        prepared.tabled.conflicts.as_slice(),
    )?;
    write_text(err, &text)
}
