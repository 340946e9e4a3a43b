//! Runs of whole sentences that give trees.
ghost use Rattle.std.specs.Prelude.{◌≡◌, ◌<◌, ℕ, List, [], true, false, IfOk, IfErr, OnOk};
ghost use Rattle.mh_tables_core.specs.TooDeep.{too_deep};
ghost use Rattle.mh_tables_core.specs.Sentences.{FitsTable};
ghost use Rattle.mh_tables_core.specs.Table.{TableData};
ghost use Rattle.mh_tables_core.specs.TreeRuns.{IsTreeEnding};
ghost use Rattle.mh_engine.specs.Outcomes.{tree_ending_for};
ghost use Rattle.mh_engine.specs.code.SentenceOutcomes.{IsReachedOutcome, IsTokenOutcome, IsBeforeGivenToken, IsAcceptOutcome};
ghost use Rattle.mh_engine.specs.Phases.{phase_of, CanOffer, CanResume};
ghost use Rattle.mh_engine.specs.Steps.{offered, resumed};
ghost use Rattle.mh_engine.specs.declared.fault.ResumeFault.TheVariants as faults;
ghost use Rattle.mh_engine.specs.declared.phase.Phase.TheVariants as phases;
ghost use Rattle.mh_engine.specs.declared.sentence.TreeOutcome.TheVariants as outcomes;

use crate::checkpoint::{Checkpoint, begin};
use crate::fault::ResumeFault;
use crate::phase::Phase;
use crate::reductions::settle;
use mh_grammar::{Memory, Token};
use mh_tables_core::Halting;
use mh_tree::Tree;
use std::alloc::Global;

/// The result of the run of a sentence with trees.
#[derive(Drop)]
pub enum TreeOutcome {
    /// The run accepts after `read` tokens were shifted, and `tree` derives them; more tokens may follow.
    Accept { read: u32, tree: Tree },
    /// The sentence ended, and this state needs one more token.
    Overshoot { state: u32 },
    /// This state refuses the token at index `at`, from 0.
    Reject { at: u32, state: u32 },
    /// A step would make more than 4,000 pairs of a state and a tree, or a tree higher than 4,000.
    TooDeep,
}

/// Runs a sentence of fewer than 2^32 tokens from the start with this number, and returns how the run ends, with the
/// tree. The outcome is `TooDeep` exactly if a step up to the end of the run makes more than 4,000 pairs of a state and
/// a tree, or a tree higher than 4,000. Fails only if memory runs out.
pub fn run_with_trees(
    alloc: Global,
    table: &Halting,
    start: u16,
    sentence: &[Token],
) -> Result<TreeOutcome, Memory>
    requires { FitsTable table.now start sentence.now }
    ensures { IfOk result (λ outcome. IsTreeEnding table.now start sentence.now (tree_ending_for outcome)) }
{
    let _rows = table.table();
    match run(alloc, table, start, sentence) {
        Ok(outcome) => Ok(outcome),
        Err(ResumeFault::TooDeep) => Ok(TreeOutcome::TooDeep),
        Err(ResumeFault::Memory) => Err(Memory),
    }
}

/// Runs a sentence like `run_with_trees`, but reports `TooDeep` as a fault.
fn run(
    alloc: Global,
    table: &Halting,
    start: u16,
    sentence: &[Token],
) -> Result<TreeOutcome, ResumeFault>
    requires { FitsTable table.now start sentence.now }
    ensures reached { IfOk result (λ outcome. IsReachedOutcome table.now start sentence.now outcome) }
    ensures deep { IfErr result (λ fault. fault ≡ faults.TooDeep → IsReachedOutcome table.now start sentence.now outcomes.TooDeep) }
{
    let mut at = begin(table, start);
    for (place, token) in sentence.iter().enumerate() {
        at = match feed(alloc, at, place as u32, *token) {
            Ok(TokenOutcome::Shifted(next)) => next,
            Ok(TokenOutcome::Ended(outcome)) => return Ok(outcome),
            Err(fault) => return Err(fault),
        };
    }
    let end = match settle(alloc, at) {
        Ok(end) => end,
        Err(fault) => return Err(fault),
    };
    match end.phase() {
        Phase::InputNeeded { state } => Ok(TreeOutcome::Overshoot { state }),
        Phase::Accepted => Ok(accept(sentence.len() as u32, &end)?),
        _ => unreachable!(),
    }
}

/// The outcome of one token of a sentence.
#[derive(Drop)]
enum TokenOutcome<'t> {
    /// The token is shifted, and the run continues from this checkpoint.
    Shifted(Checkpoint<'t>),
    /// The run ends at this token or before it.
    Ended(TreeOutcome),
}

/// Runs the token at index `place` of the sentence; all tokens before it are shifted. Fails with `TooDeep` if a step on
/// the way is too deep.
fn feed<'t>(
    alloc: Global,
    at: Checkpoint<'t>,
    place: u32,
    token: Token,
) -> Result<TokenOutcome<'t>, ResumeFault>
    requires empty { at.left ≡ [] }
    requires not_refused { at.refused ≡ false }
    requires token { token < at.table.grammar.tokens }
    ensures read { IfOk result (λ outcome. (t : TableData) (start : ℕ) (w : List ℕ) → IsBeforeGivenToken t start w place token at.entry → IsTokenOutcome t start w place outcome) }
    ensures deep { IfErr result (λ fault. fault ≡ faults.TooDeep → (t : TableData) (start : ℕ) (w : List ℕ) → IsBeforeGivenToken t start w place token at.entry → IsReachedOutcome t start w outcomes.TooDeep) }
{
    let asking = match settle(alloc, at) {
        Ok(asking) => asking,
        Err(fault) => return Err(fault),
    };
    match asking.phase() {
        Phase::InputNeeded { state: _ } => {}
        Phase::Accepted => return Ok(TokenOutcome::Ended(accept(place, &asking)?)),
        _ => unreachable!(),
    }
    let offered = offer_to(asking, token)?;
    let fed = match settle(alloc, offered) {
        Ok(fed) => fed,
        Err(fault) => return Err(fault),
    };
    match fed.phase() {
        Phase::Shifting { state: _, token: _ } => {}
        Phase::Accepted => return Ok(TokenOutcome::Ended(accept(place, &fed)?)),
        Phase::HandlingError { state } => {
            return Ok(TokenOutcome::Ended(TreeOutcome::Reject { at: place, state }));
        }
        _ => unreachable!(),
    }
    match resume_from(alloc, fed) {
        Ok(next) => Ok(TokenOutcome::Shifted(next)),
        Err(fault) => Err(fault),
    }
}

/// The checkpoint with the token offered; it replaces the checkpoint `asking`.
pub(crate) fn offer_to<'t>(asking: Checkpoint<'t>, token: Token) -> Result<Checkpoint<'t>, Memory>
    requires can_offer { CanOffer (phase_of asking) }
    requires token { token < asking.table.grammar.tokens }
    ensures { IfOk result (λ c. c ≡ offered asking.entry token) }
{
    asking.offer(token)
}

/// The checkpoint after the next step; it replaces the checkpoint `from`.
pub(crate) fn resume_from<'t>(
    alloc: Global,
    from: Checkpoint<'t>,
) -> Result<Checkpoint<'t>, ResumeFault>
    requires { CanResume (phase_of from) }
    ensures value { IfOk result (λ c. c ≡ resumed from.entry) }
    ensures fits { OnOk result (too_deep (resumed from.entry).pairs.trees ≡ false) }
    ensures deep { IfErr result (λ fault. fault ≡ faults.TooDeep → too_deep (resumed from.entry).pairs.trees ≡ true) }
{
    from.resume(alloc)
}

/// The outcome of a run that accepts at this checkpoint.
fn accept(read: u32, at: &Checkpoint<'_>) -> Result<TreeOutcome, Memory>
    requires { phase_of at.now ≡ phases.Accepted }
    ensures { IfOk result (λ outcome. IsAcceptOutcome at.now.pairs.trees read outcome) }
{
    match at.tree() {
        Some(tree) => Ok(TreeOutcome::Accept {
            read,
            tree: tree.share()?,
        }),
        None => unreachable!(),
    }
}
