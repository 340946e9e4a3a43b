//! The refusal of a table file that is not valid for the grammar.
ghost use Rattle.mh_top_prepare.specs.code.FaultStops.{IsStopForInvalidTable};

use crate::refusing::invalid;
use mh_top_drive::Stop;
use mh_validate::ValidFault;
use std::alloc::Global;

/// The stop for a table file that is not valid: its refusal, or lack of memory.
pub(crate) fn not_valid(alloc: Global, name: &[u8], fault: ValidFault) -> Stop
    ensures { IsStopForInvalidTable name.now fault result }
{
    match fault {
        ValidFault::Invalid { state, reason } => invalid(alloc, name, state, reason),
        ValidFault::Memory => Stop::OutOfMemory,
    }
}
