//! Checkpoints: immutable positions of a run.
ghost use Rattle.std.specs.Prelude.{◌≡◌, ◌↔◌, ◌<◌, ◌∷◌, [], length, true, false, IsTrue, IfOk, IfErr, IfSome, IfNone, OnOk};
ghost use Rattle.mh_tables_core.specs.Run.{IsRunStack, Shifts, Reduces};
ghost use Rattle.mh_tables_core.specs.NextActions.{move_for};
ghost use Rattle.mh_tables_core.specs.TooDeep.{too_deep};
ghost use Rattle.mh_engine.specs.code.CanReduce.{CanReduce};
ghost use Rattle.mh_engine.specs.Phases.{next_move, phase_of, CanOffer, CanResume};
ghost use Rattle.mh_engine.specs.Branches.{Branch, HasPosition, new_branch, with_token, with_step};
ghost use Rattle.mh_engine.specs.code.Settling.{CheckpointFacts};
ghost use Rattle.mh_engine.specs.StackSymbols.{stack_symbols};
ghost use Rattle.mh_engine.specs.Steps.{initial_position, offered, refused_position, resumed};
ghost use Rattle.mh_engine.specs.declared.phase.Phase.TheVariants as phases;
ghost use Rattle.mh_engine.specs.declared.fault.ResumeFault.TheVariants as faults;

use crate::fault::ResumeFault;
use crate::phase::Phase;
use crate::stack::Stack;
use crate::symbols::symbols_between;
use mh_grammar::{Memory, Symbol, Token};
use mh_tables_core::{Halting, NextAction, choose};
use mh_tree::{Tree, can_be_children, leaf, node};
use std::alloc::Global;
use std::marker::Model;

/// A position of a run: a stack, at most one token that is offered and not shifted yet, and whether this token was
/// refused. A checkpoint never changes; each call makes a new one.
#[derive(Drop)]
pub struct Checkpoint<'t> {
    table: &'t Halting,
    stack: Stack,
    pending: Option<Token>,
    refused: bool,
}

impl<'t> Model for Checkpoint<'t> {
    ghost use Rattle.mh_engine.specs.Positions.{Position, position_with_look};

    ghost Value = { Position };

    ghost use Rattle.mh_engine.specs.code.Pairs.{pairs_code};
    ghost use Rattle.std.specs.Coded.{codes};

    ghost coded = { Prim.hlevel (codes, pairs_code) };

    ghost view = { λ c. position_with_look c.table.now c.stack c.pending c.refused };

    ghost use Rattle.mh_engine.specs.code.IsSound.{IsSound};
    ghost use Rattle.mh_tables_core.specs.Halting.{IsLook};

    ghost invariant = { λ c. IsSound (position_with_look c.table.now c.stack c.pending c.refused) × IsLook c.table.now c.pending };
}

/// Returns the checkpoint at which the run of a start begins, before any token. `start` is the number of the start,
/// from 0.
pub fn begin<'t>(table: &'t Halting, start: u16) -> Checkpoint<'t>
    requires { start < length table.now.grammar.starts }
    ensures value { result ≡ initial_position table.now start [] }
    ensures branch { HasPosition (new_branch start) result }
{
    Checkpoint {
        table,
        stack: Stack::bottom(u32::from(start)),
        pending: None,
        refused: false,
    }
}

impl<'t> Checkpoint<'t> {
    /// Does nothing; its contract states the facts that hold of every checkpoint.
    pub(crate) fn facts(&self)
        ensures { CheckpointFacts self.now }
    {
        let _table = self.table.table();
        let _pending = self.pending;
    }

    /// The number of pairs of a state and a tree on the stack.
    pub(crate) fn depth(&self) -> u32
        ensures { result ≡ length self.now.pairs.trees }
    {
        self.stack.count()
    }

    /// True if each token that was offered is shifted.
    pub(crate) fn is_shifted(&self) -> bool
        ensures { IsTrue result ↔ (self.now.left ≡ []) }
    {
        self.pending.is_none()
    }

    /// The states of the run's stack from the start state: a path of edges of the table. Fails only if memory runs out.
    pub fn states(&self, alloc: Global) -> Result<Vec<u32>, Memory>
        ensures states { IfOk result (λ states. states.items ≡ self.now.pairs.states) }
        ensures path { IfOk result (λ states. IsRunStack self.now.table states.items) }
    {
        let _table = self.table;
        self.stack.states(alloc)
    }

    /// The symbols on the run's stack, the lowest first. Fails only if memory runs out.
    pub fn symbols(&self, alloc: Global) -> Result<Vec<Symbol>, Memory>
        ensures { IfOk result (λ symbols. symbols.items ≡ stack_symbols self.now) }
    {
        let states = self.states(alloc)?;
        symbols_between(alloc, self.table.table(), states.as_slice())
    }

    /// The next move of the run.
    fn choice(&self) -> NextAction
        ensures { move_for result ≡ next_move self.now }
    {
        choose(self.table.table(), self.stack.top(), self.pending)
    }

    /// Returns what the run does next.
    #[tactic(auto, unfolding(crate::specs::Phases::phase_of))]
    pub fn phase(&self) -> Phase
        ensures { result ≡ phase_of self.now }
    {
        if self.refused {
            return Phase::Rejected;
        }
        let state = self.stack.top();
        match self.choice() {
            NextAction::Accept => Phase::Accepted,
            NextAction::Ask => Phase::InputNeeded { state },
            NextAction::Refuse => Phase::HandlingError { state },
            NextAction::Shift(_) => match self.pending {
                Some(token) => Phase::Shifting { state, token },
                None => unreachable!(),
            },
            NextAction::Reduce(production) => Phase::AboutToReduce { state, production },
        }
    }

    /// Returns an equal checkpoint. Fails only if memory runs out.
    pub fn fork(&self) -> Result<Checkpoint<'t>, Memory>
        ensures { IfOk result (λ c. c ≡ self.now) }
    {
        Ok(Checkpoint {
            table: self.table,
            stack: self.stack.share()?,
            pending: self.pending,
            refused: self.refused,
        })
    }

    /// Returns the tree of the start symbol if the run accepts, else nothing.
    pub fn tree(&self) -> Option<&Tree>
        ensures some { IfSome result (λ tree. self.now.pairs.trees ≡ tree.now ∷ []) }
        ensures accepted { IfSome result (λ tree. phase_of self.now ≡ phases.Accepted) }
        ensures none { IfNone result (phase_of self.now ≡ phases.Accepted → ⊥) }
    {
        let _rows = self.table.table();
        match self.phase() {
            Phase::Accepted => match self.stack.tree() {
                Some(tree) => Some(tree),
                None => unreachable!(),
            },
            _ => None,
        }
    }

    /// Returns the checkpoint with this token offered; the token stays offered until it is shifted. Fails only if
    /// memory runs out.
    pub fn offer(&self, token: Token) -> Result<Checkpoint<'t>, Memory>
        requires can_offer { CanOffer (phase_of self.now) }
        requires token { token < self.now.table.grammar.tokens }
        ensures value { IfOk result (λ c. c ≡ offered self.now token) }
        ensures branch { IfOk result (λ c. (b : Branch) → HasPosition b self.now → HasPosition (with_token b token) c) }
    {
        Ok(Checkpoint {
            table: self.table,
            stack: self.stack.share()?,
            pending: Some(token),
            refused: self.refused,
        })
    }

    /// The same position with the offered token refused.
    fn refuse(&self) -> Result<Checkpoint<'t>, Memory>
        ensures { IfOk result (λ c. c ≡ refused_position self.now) }
    {
        Ok(Checkpoint {
            table: self.table,
            stack: self.stack.share()?,
            pending: self.pending,
            refused: true,
        })
    }

    /// The checkpoint after the offered token is shifted to the state `target`.
    fn shift(&self, alloc: Global, target: u32) -> Result<Checkpoint<'t>, ResumeFault>
        requires { next_move self.now ≡ Shifts target }
        ensures value { IfOk result (λ c. c ≡ resumed self.now) }
        ensures fits { OnOk result (too_deep (resumed self.now).pairs.trees ≡ false) }
        ensures deep { IfErr result (λ fault. fault ≡ faults.TooDeep → too_deep (resumed self.now).pairs.trees ≡ true) }
    {
        let _rows = self.table.table();
        let Some(token) = self.pending else {
            unreachable!();
        };
        if !self.stack.has_room() {
            return Err(ResumeFault::TooDeep);
        }
        let tree = leaf(alloc, token)?;
        Ok(Checkpoint {
            table: self.table,
            stack: self.stack.share()?.push(alloc, target, tree)?,
            pending: None,
            refused: false,
        })
    }

    /// The checkpoint after a reduction of the production.
    fn reduce(&self, alloc: Global, production: u32) -> Result<Checkpoint<'t>, ResumeFault>
        requires next { next_move self.now ≡ Reduces production }
        requires can_reduce { CanReduce self.now production }
        ensures value { IfOk result (λ c. c ≡ resumed self.now) }
        ensures fits { OnOk result (too_deep (resumed self.now).pairs.trees ≡ false) }
        ensures deep { IfErr result (λ fault. fault ≡ faults.TooDeep → too_deep (resumed self.now).pairs.trees ≡ true) }
    {
        let table = self.table.table();
        let length = table.length_of(production) as usize;
        let (kept, children) = self.stack.split(alloc, length)?;
        if !kept.has_room() || !can_be_children(children.as_slice()) {
            return Err(ResumeFault::TooDeep);
        }
        let Some(target) = table.goto(kept.top(), table.lhs_of(production)) else {
            unreachable!();
        };
        let tree = node(alloc, production, children)?;
        Ok(Checkpoint {
            table: self.table,
            stack: kept.push(alloc, target, tree)?,
            pending: self.pending,
            refused: false,
        })
    }

    /// Returns the checkpoint after the next step of the run; a refusal is a step. Fails with `TooDeep` exactly if the
    /// step would make more than 4,000 pairs of a state and a tree, or a tree higher than 4,000.
    pub fn resume(&self, alloc: Global) -> Result<Checkpoint<'t>, ResumeFault>
        requires { CanResume (phase_of self.now) }
        ensures value { IfOk result (λ c. c ≡ resumed self.now) }
        ensures branch { IfOk result (λ c. (b : Branch) → HasPosition b self.now → HasPosition (with_step b) c) }
        ensures fits { OnOk result (too_deep (resumed self.now).pairs.trees ≡ false) }
        ensures deep { IfErr result (λ fault. fault ≡ faults.TooDeep → too_deep (resumed self.now).pairs.trees ≡ true) }
    {
        let _rows = self.table.table();
        match self.choice() {
            NextAction::Shift(target) => self.shift(alloc, target),
            NextAction::Reduce(production) => self.reduce(alloc, production),
            NextAction::Refuse => match self.refuse() {
                Ok(refused) => Ok(refused),
                Err(_) => Err(ResumeFault::Memory),
            },
            NextAction::Accept => unreachable!(),
            NextAction::Ask => unreachable!(),
        }
    }
}
