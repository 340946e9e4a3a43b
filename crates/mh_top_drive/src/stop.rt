//! The reasons for which the work stops early.
ghost use Rattle.std.specs.Prelude.{◌≡◌, ◌++◌, IfOk};
ghost use Rattle.mh_top_drive.specs.Statuses.{status_of_cause};
ghost use Rattle.mh_top_drive.specs.code.StageCalls.{StopsWith};
ghost use Rattle.mh_top_drive.specs.declared.stop.Cause.TheVariants.{Refused as Refused'};
ghost use Rattle.mh_top_drive.specs.declared.stop.Stop.TheVariants.{Halted as Halted', OutOfMemory, ShelfFailed};

use crate::status;
use mh_grammar::{Memory, Name, Sequence};
use std::alloc::{AllocError, AllocFailed, Global};

/// A cause that lies in the words, the files or the input. Faults of devices and lack of memory are not among them.
#[derive(Drop)]
pub enum Cause {
    /// The work is refused. The line is written on err.
    Refused { line: Sequence<u8> },
    /// The words of the command line are no order. The line is written on err.
    Misused { line: Sequence<u8> },
    /// A file that the words name is missing.
    Missing { name: Name },
    /// A file that the words name is over its limit.
    LongFile { name: Name },
    /// The input is over a limit: a line is too long, or there are too many lines.
    LongInput,
}

impl Cause {
    /// The exit status of the program for this cause.
    pub fn code(&self) -> u8
        ensures { result ≡ status_of_cause self.now }
    {
        match self {
            Cause::Refused { .. } => status::REFUSED,
            Cause::Misused { .. } => status::MISUSED,
            Cause::Missing { .. } => status::READ_FAULT,
            Cause::LongFile { .. } => status::TOO_BIG,
            Cause::LongInput => status::TOO_BIG,
        }
    }
}

/// The reason for which the work stopped early.
#[derive(Drop)]
pub enum Stop {
    /// The words, the files or the input give a cause.
    Halted { cause: Cause },
    /// The shelf failed at the file with this name.
    ShelfFailed { name: Name },
    /// A read of the input failed.
    InputFailed,
    /// A write failed. Nothing more is written.
    WriteFailed,
    /// Memory ran out.
    OutOfMemory,
}

impl From<AllocError> for Stop {
    ghost from_gives = { λ _ e. e ≡ OutOfMemory };

    fn from(_: AllocError) -> Self {
        Stop::OutOfMemory
    }
}

impl<T: Drop> From<AllocFailed<T>> for Stop {
    ghost from_gives = { λ _ e. e ≡ OutOfMemory };

    fn from(_: AllocFailed<T>) -> Self {
        Stop::OutOfMemory
    }
}

impl From<Memory> for Stop {
    ghost from_gives = { λ _ e. e ≡ OutOfMemory };

    fn from(_: Memory) -> Self {
        Stop::OutOfMemory
    }
}

/// Joins three parts to one text. Fails only if memory runs out.
pub fn joined(
    alloc: Global,
    before: &[u8],
    middle: &[u8],
    after: &[u8],
) -> Result<Sequence<u8>, AllocError>
    ensures { IfOk result (λ text. text ≡ before.now ++ middle.now ++ after.now) }
{
    let mut bytes = before.to_vec(alloc)?;
    bytes.extend_from_slice(middle)?;
    bytes.extend_from_slice(after)?;
    Ok(Sequence::from_vec(bytes))
}

/// The refusal of the work with this line.
pub fn refusal(line: Sequence<u8>) -> Stop
    ensures { result ≡ Halted' (Refused' line) }
{
    Stop::Halted {
        cause: Cause::Refused { line },
    }
}

/// The refusal of the work with the line that the three parts make.
pub fn refused(alloc: Global, before: &[u8], middle: &[u8], after: &[u8]) -> Stop
    ensures { StopsWith (Refused' (before.now ++ middle.now ++ after.now)) result }
{
    match joined(alloc, before, middle, after) {
        Ok(line) => refusal(line),
        Err(_) => Stop::OutOfMemory,
    }
}
