//! Runs of several tokens from a checkpoint on.
ghost use Rattle.std.specs.Prelude.{◌≡◌, ◌<◌, All, IfOk, IfErr};
ghost use Rattle.mh_engine.specs.Branches.{Branch, HasPosition};
ghost use Rattle.mh_engine.specs.Feeding.{IsFedTooDeep};
ghost use Rattle.mh_engine.specs.Phases.{phase_of, CanOffer};
ghost use Rattle.mh_engine.specs.Steps.{offered};
ghost use Rattle.mh_engine.specs.code.FedTokens.{FeedsTo, IsTokenFed};
ghost use Rattle.mh_engine.specs.code.Settling.{SettlesTooDeep};
ghost use Rattle.mh_engine.specs.declared.fault.ResumeFault.TheVariants as faults;

use crate::checkpoint::Checkpoint;
use crate::fault::ResumeFault;
use crate::phase::Phase;
use crate::reductions::settle;
use crate::sentence::{offer_to, resume_from};
use mh_grammar::Token;
use std::alloc::Global;

/// The checkpoint at which feeding ends, and the number of tokens that were shifted.
#[derive(Drop)]
pub struct Fed<'t> {
    pub checkpoint: Checkpoint<'t>,
    pub shifted: usize,
}

impl<'t> Checkpoint<'t> {
    /// Offers the tokens one after another, each where the run asks for one, and makes all shifts and reductions. Ends
    /// where the run asks for more tokens than these, where the run refuses a token, or where the run accepts. Fails
    /// with `TooDeep` exactly if a step on the way would make more than 4,000 pairs of a state and a tree, or a tree
    /// higher than 4,000.
    pub fn feed(&self, alloc: Global, tokens: &[Token]) -> Result<Fed<'t>, ResumeFault>
        requires can_offer { CanOffer (phase_of self.now) }
        requires tokens { All (λ z. z < self.now.table.grammar.tokens) tokens.now }
        ensures table { IfOk result (λ fed. fed.checkpoint.table ≡ self.now.table) }
        ensures fed { IfOk result (λ fed. FeedsTo self.now tokens.now fed.checkpoint fed.shifted) }
        ensures deep { IfErr result (λ fault. fault ≡ faults.TooDeep → (b : Branch) → HasPosition b self.now → IsFedTooDeep self.now.table b tokens.now) }
    {
        let from = self.fork()?;
        feed_each(alloc, from, tokens)
    }
}

/// Feeds the tokens to a checkpoint that asks for one, like `Checkpoint::feed`.
fn feed_each<'t>(
    alloc: Global,
    from: Checkpoint<'t>,
    tokens: &[Token],
) -> Result<Fed<'t>, ResumeFault>
    requires can_offer { CanOffer (phase_of from) }
    requires tokens { All (λ z. z < from.table.grammar.tokens) tokens.now }
    ensures table { IfOk result (λ fed. fed.checkpoint.table ≡ from.entry.table) }
    ensures fed { IfOk result (λ fed. FeedsTo from.entry tokens.now fed.checkpoint fed.shifted) }
    ensures deep { IfErr result (λ fault. fault ≡ faults.TooDeep → (b : Branch) → HasPosition b from.entry → IsFedTooDeep from.entry.table b tokens.now) }
{
    from.facts();
    let mut at = from;
    for (place, token) in tokens.iter().enumerate() {
        let Phase::InputNeeded { state: _ } = at.phase() else {
            return Ok(Fed {
                checkpoint: at,
                shifted: place,
            });
        };
        at = match feed_token(alloc, at, *token) {
            Ok(next) => next,
            Err(fault) => return Err(fault),
        };
        if !at.is_shifted() {
            return Ok(Fed {
                checkpoint: at,
                shifted: place,
            });
        }
    }
    Ok(Fed {
        checkpoint: at,
        shifted: tokens.len(),
    })
}

/// The checkpoint after one more token, at which the run asks for a token, refuses this one, or accepts; it replaces the
/// checkpoint `asking`.
fn feed_token<'t>(
    alloc: Global,
    asking: Checkpoint<'t>,
    token: Token,
) -> Result<Checkpoint<'t>, ResumeFault>
    requires can_offer { CanOffer (phase_of asking) }
    requires token { token < asking.table.grammar.tokens }
    ensures fed { IfOk result (λ c. IsTokenFed asking.entry token c) }
    ensures deep { IfErr result (λ fault. fault ≡ faults.TooDeep → SettlesTooDeep (offered asking.entry token)) }
{
    let offered = offer_to(asking, token)?;
    let settled = match settle(alloc, offered) {
        Ok(settled) => settled,
        Err(fault) => return Err(fault),
    };
    let Phase::Shifting { state: _, token: _ } = settled.phase() else {
        return Ok(settled);
    };
    match resume_from(alloc, settled) {
        Ok(shifted) => settle(alloc, shifted),
        Err(fault) => Err(fault),
    }
}
