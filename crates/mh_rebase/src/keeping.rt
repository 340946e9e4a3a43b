//! The decision on a line: its sentence is kept, or the line is dropped for a reason.
ghost use Rattle.std.specs.Prelude.{◌≡◌, IfOk, MatchResult};
ghost use Rattle.mh_rebase.specs.code.Reasons.{kept_line_in, IsReasonOfFault, IsReasonOfVerdict, IsStateToKeep};

use crate::reason::DropReason;
use mh_grammar::Memory;
use mh_msgfile::SentenceFault;
use mh_run::Verdict;

/// The reason why a line with this fault is dropped.
pub fn reason_of_fault(fault: SentenceFault) -> Result<DropReason, Memory>
    ensures { IfOk result (IsReasonOfFault fault) }
{
    match fault {
        SentenceFault::Unreadable => Ok(DropReason::Unreadable),
        SentenceFault::UnknownStart { name } => Ok(DropReason::UnknownStart { name }),
        SentenceFault::MissingStart => Ok(DropReason::MissingStart),
        SentenceFault::UnknownToken { name } => Ok(DropReason::UnknownToken { name }),
        SentenceFault::Memory => Err(Memory),
    }
}

/// The number of the kept line whose sentence fails in this state, if there is one. The index into `kept` is the state.
pub fn line_kept_in(kept: &[Option<u32>], state: u32) -> Option<u32>
    ensures { result ≡ kept_line_in kept.now state }
{
    match kept.get(state as usize) {
        Some(line) => *line,
        None => None,
    }
}

/// The state in which a sentence with this verdict and this number of tokens fails, if the sentence is to be kept; or
/// the reason why its line is dropped. For each state, `kept` has the number of the kept line whose sentence fails
/// there.
pub fn state_to_keep(
    verdict: Verdict,
    tokens: usize,
    kept: &[Option<u32>],
) -> Result<u32, DropReason>
    ensures { MatchResult result (IsStateToKeep verdict tokens kept.now) (IsReasonOfVerdict verdict tokens kept.now) }
{
    match verdict {
        Verdict::Reject { at, state } if at as usize + 1 == tokens => match line_kept_in(
            kept, state,
        ) {
            Some(line) => Err(DropReason::SharedState { state, line }),
            None => Ok(state),
        },
        Verdict::Reject { at, .. } => Err(DropReason::RefusedEarly { at }),
        Verdict::Accept { .. } => Err(DropReason::NotRefused { verdict }),
        Verdict::Overshoot { .. } => Err(DropReason::NotRefused { verdict }),
    }
}
