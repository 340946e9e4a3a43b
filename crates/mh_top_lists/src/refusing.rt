//! The refusal of a table that has a state in which only sentences of too high a cost fail. The modes that list errors
//! and those that rebase or check a messages file give this refusal.
ghost use Rattle.mh_top_lists.specs.code.CatalogueFaultStops.{IsStopForCatalogueFault, IsStopForErrorsFault, IsStopForRebaseFault};
ghost use Rattle.mh_top_drive.specs.code.StageCalls.{StopsWith};
ghost use Rattle.mh_top_drive.specs.declared.stop.Cause.TheVariants.{Refused};
ghost use Rattle.mh_top_plans.specs.Listing.{too_long as too_long_line};

use mh_catalogue::CatalogueFault;
use mh_lint_messages::ErrorsFault;
use mh_rebase::RebaseFault;
use mh_top_drive::{Stop, refused};
use std::alloc::Global;

/// The refusal for a state in which sentences fail, but only such whose cost is over the highest cost of a catalogue.
fn too_long(alloc: Global, state: u32) -> Stop
    ensures { StopsWith (Refused (too_long_line state)) result }
{
    match format!(in alloc; "menhir: too long: state {state}\n") {
        Ok(line) => refused(alloc, line.as_bytes(), b"", b""),
        Err(_) => Stop::OutOfMemory,
    }
}

/// The stop for a fault of the catalogue: the refusal with its line, or lack of memory.
pub(crate) fn stop_of(alloc: Global, fault: CatalogueFault) -> Stop
    ensures { IsStopForCatalogueFault fault result }
{
    match fault {
        CatalogueFault::TooLong { state } => too_long(alloc, state),
        CatalogueFault::Memory => Stop::OutOfMemory,
    }
}

/// The stop for a fault of rebasing: the refusal with its line, or lack of memory.
pub(crate) fn rebase_stop_of(alloc: Global, fault: RebaseFault) -> Stop
    ensures { IsStopForRebaseFault fault result }
{
    match fault {
        RebaseFault::TooLong { state } => too_long(alloc, state),
        RebaseFault::Memory => Stop::OutOfMemory,
    }
}

/// The stop for a fault of examining a messages file: the refusal with its line, or lack of memory.
pub(crate) fn errors_stop_of(alloc: Global, fault: ErrorsFault) -> Stop
    ensures { IsStopForErrorsFault fault result }
{
    match fault {
        ErrorsFault::TooLong { state } => too_long(alloc, state),
        ErrorsFault::Memory => Stop::OutOfMemory,
    }
}
