//! The loop that makes all reductions that come next.
ghost use Rattle.std.specs.Prelude.{◌≡◌, IfOk, IfErr};
ghost use Rattle.mh_engine.specs.code.Settling.{SettlesTo, SettlesTooDeep};
ghost use Rattle.mh_engine.specs.declared.fault.ResumeFault.TheVariants as faults;

use crate::checkpoint::Checkpoint;
use crate::fault::ResumeFault;
use crate::phase::Phase;
use std::alloc::Global;

/// Returns the checkpoint after all reductions that come next. Fails with `TooDeep` if one of them would make more than
/// 4,000 pairs of a state and a tree, or a tree higher than 4,000.
pub(crate) fn settle<'t>(alloc: Global, from: Checkpoint<'t>) -> Result<Checkpoint<'t>, ResumeFault>
    ensures settled { IfOk result (λ c. SettlesTo from.entry c) }
    ensures deep { IfErr result (λ fault. fault ≡ faults.TooDeep → SettlesTooDeep from.entry) }
{
    from.facts();
    let mut at = from;
    // The loop ends, because each reduction either keeps the pairs up to the index `floor` of the stack, which at most
    // 10,000 reductions in a row do, or lowers this index. Only the proof uses `count`.
    let mut floor = at.depth().saturating_sub(1);
    let mut count: u32 = 0;
    'reductions: loop {
        match at.phase() {
            Phase::AboutToReduce {
                state: _,
                production: _,
            } => {
                let next = match at.resume(alloc) {
                    Ok(next) => next,
                    Err(fault) => return Err(fault),
                };
                next.facts();
                let depth = next.depth();
                if floor < depth {
                    count += 1;
                    at = next;
                } else {
                    floor = depth.saturating_sub(1);
                    count = 0;
                    at = next;
                }
            }
            _ => return Ok(at),
        }
    }
}
