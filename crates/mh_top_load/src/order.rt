//! Gives the order that the words of the command line spell, or the line on their usage fault.
ghost use Rattle.std.specs.Prelude.{◌≡◌, ◌++◌, map, string_bytes, IfOk};
ghost use Rattle.mh_opts.specs.Orders.{IsWithinLimits};
ghost use Rattle.mh_top_load.specs.Order.{staged_order};
ghost use Rattle.mh_top_load.specs.code.UsageFaultStops.{IsStopForUsageFault};
ghost use Rattle.mh_top_drive.specs.code.StageCalls.{StopsWith, StageGives};
ghost use Rattle.mh_top_drive.specs.declared.stop.Cause.TheVariants.{Misused as Misused'};

use mh_opts::{Order, UsageFault, read_words};
use mh_top_drive::{Cause, Stop, joined};
use std::alloc::Global;

/// The stop for misused words, with the line that the three parts make.
fn misused(alloc: Global, before: &[u8], middle: &[u8], after: &[u8]) -> Stop
    ensures { StopsWith (Misused' (before.now ++ middle.now ++ after.now)) result }
{
    match joined(alloc, before, middle, after) {
        Ok(line) => Stop::Halted {
            cause: Cause::Misused { line },
        },
        Err(_) => Stop::OutOfMemory,
    }
}

/// The reason to stop the work for a usage fault.
fn usage(alloc: Global, fault: &UsageFault) -> Stop
    ensures { IsStopForUsageFault fault.now result }
{
    match fault {
        UsageFault::Parse => misused(alloc, b"menhir: usage: bad words\n", b"", b""),
        UsageFault::Number => misused(alloc, b"menhir: usage: bad number\n", b"", b""),
        UsageFault::NoMode => misused(alloc, b"menhir: usage: no mode\n", b"", b""),
        UsageFault::TwoModes => misused(alloc, b"menhir: usage: two modes\n", b"", b""),
        UsageFault::Misplaced { option } => misused(
            alloc,
            b"menhir: usage: misplaced ",
            option.as_slice(),
            b"\n",
        ),
        UsageFault::NoGrammar => misused(alloc, b"menhir: usage: no grammar\n", b"", b""),
        UsageFault::Memory => Stop::OutOfMemory,
    }
}

/// The order that the words spell, or the stop for their usage fault.
pub fn order_in(alloc: Global, words: &[String]) -> Result<Order, Stop>
    ensures order { StageGives (λ s. staged_order (map string_bytes words.now) ≡ s) result }
    ensures limits { IfOk result (λ order. IsWithinLimits order.job) }
{
    match read_words(alloc, words) {
        Ok(order) => Ok(order),
        Err(fault) => Err(usage(alloc, &fault)),
    }
}
