//! The last line on err, and the exit status.
ghost use Rattle.std.specs.Prelude.{◌++◌, IfOk};
ghost use Rattle.mh_outside.specs.Faults.{CountsFault};
ghost use Rattle.mh_outside.specs.Sink.{WritesWhole};
ghost use Rattle.mh_top_drive.specs.Statuses.{status_of_cause, line_of_cause};
ghost use Rattle.mh_top_prepare.specs.code.LastLine.{ReportsStop, WritesLastLine};
ghost use Rattle.mh_top_drive.specs.code.MayWriteAfter.{MayWriteAfterStop};

use mh_outside::{Sink, WriteFault, write_whole};
use mh_top_drive::{Cause, Stop, status};

/// Writes two parts, one after the other. The call takes no memory.
fn write_both<E: Sink>(err: &mut E, first: &[u8], second: &[u8]) -> Result<(), WriteFault>
    requires may_write { E.MayWrite err.old }
    ensures bytes { WritesWhole (E.written err.old) (E.written err.new) (first.now ++ second.now) result }
    ensures may_write_on { IfOk result (λ _. E.MayWrite err.new) }
    ensures counts { CountsFault (E.faults err.old) (E.faults err.new) result }
{
    match write_whole(err, first) {
        Ok(()) => write_whole(err, second),
        Err(fault) => Err(fault),
    }
}

/// Writes three parts, one after the other. The call takes no memory.
fn write_line<E: Sink>(
    err: &mut E,
    before: &[u8],
    middle: &[u8],
    after: &[u8],
) -> Result<(), WriteFault>
    requires may_write { E.MayWrite err.old }
    ensures bytes { WritesWhole (E.written err.old) (E.written err.new) (before.now ++ middle.now ++ after.now) result }
    ensures counts { CountsFault (E.faults err.old) (E.faults err.new) result }
{
    match write_both(err, before, middle) {
        Ok(()) => write_whole(err, after),
        Err(fault) => Err(fault),
    }
}

/// Writes the last line, in three parts, and gives the status: that of the line, or that of a failed write.
fn write_last_line<E: Sink>(
    err: &mut E,
    before: &[u8],
    middle: &[u8],
    after: &[u8],
    status: u8,
) -> u8
    requires may_write { E.MayWrite err.old }
    ensures { WritesLastLine status (before.now ++ middle.now ++ after.now) (E.written err.old) (E.written err.new)
        (E.faults err.old) (E.faults err.new) result }
{
    match write_line(err, before, middle, after) {
        Ok(()) => status,
        Err(_) => status::WRITE_FAULT,
    }
}

/// Writes the line for a cause, and gives the status of the cause.
fn write_cause_line<E: Sink>(err: &mut E, cause: &Cause) -> u8
    requires may_write { E.MayWrite err.old }
    ensures { WritesLastLine (status_of_cause cause.now) (line_of_cause cause.now) (E.written err.old) (E.written err.new)
        (E.faults err.old) (E.faults err.new) result }
{
    let status = cause.code();
    match cause {
        Cause::Refused { line } => write_last_line(err, line.as_slice(), b"", b"", status),
        Cause::Misused { line } => write_last_line(err, line.as_slice(), b"", b"", status),
        Cause::Missing { name } => write_last_line(
            err,
            b"menhir: cannot read ",
            name.as_slice(),
            b"\n",
            status,
        ),
        Cause::LongFile { name } => write_last_line(
            err,
            b"menhir: too big: ",
            name.as_slice(),
            b"\n",
            status,
        ),
        Cause::LongInput => write_last_line(err, b"menhir: too big: the input\n", b"", b"", status),
    }
}

/// Writes the line for the reason for which the work stopped, and gives the exit status. After a failed write nothing
/// is written.
pub fn report<E: Sink>(err: &mut E, stop: Stop) -> u8
    requires may_write { MayWriteAfterStop (E.MayWrite err.old) stop }
    ensures { ReportsStop stop (E.written err.old) (E.written err.new)
        (E.faults err.old) (E.faults err.new) result }
{
    match stop {
        Stop::Halted { cause } => write_cause_line(err, &cause),
        Stop::ShelfFailed { name } => write_last_line(
            err,
            b"menhir: cannot read ",
            name.as_slice(),
            b"\n",
            status::READ_FAULT,
        ),
        Stop::InputFailed => write_last_line(
            err,
            b"menhir: cannot read the input\n",
            b"",
            b"",
            status::READ_FAULT,
        ),
        Stop::WriteFailed => status::WRITE_FAULT,
        Stop::OutOfMemory => write_last_line(
            err,
            b"menhir: out of memory\n",
            b"",
            b"",
            status::OUT_OF_MEMORY,
        ),
    }
}
