//! Moves of many kernels of one grammar.
ghost use Rattle.std.specs.Prelude.{◌≡◌, IfOk};
ghost use Rattle.mh_grammar.specs.Plain.{plain_of};
ghost use Rattle.mh_items_kernels.specs.Kernels.{IsItemList};
ghost use Rattle.mh_items.specs.Fitting.{FitsSets};
ghost use Rattle.mh_items.specs.code.AllMoves.{AreMovesOf};
ghost use Rattle.mh_items.specs.code.MoveBuilder.{IsMoveBuilder};

use crate::all_moves::{Move, moves};
use crate::closure_builder::ClosureBuilder;
use crate::rows::SymbolRows;
use mh_grammar::{Grammar, Memory};
use mh_items_kernels::Kernel;
use std::alloc::Global;

/// The sets of a grammar from which moves of kernels are computed, with scratch space that is used again for each
/// kernel.
pub struct MoveBuilder<const W: usize> {
    /// Computes the closures of the kernels.
    pub(crate) closer: ClosureBuilder<W>,
    /// Scratch space, empty between two kernels.
    pub(crate) rows: SymbolRows<W>,
}

// The exit of a function drops this value by one call. With the derived destructor it would drop each field.
impl<const W: usize> Drop for MoveBuilder<W> {
    fn drop(self) {
        let MoveBuilder { closer, rows } = self;
        drop(closer);
        drop(rows);
    }
}

impl<const W: usize> MoveBuilder<W> {
    /// Prepares moves of kernels of a grammar. It fails only if there is no memory.
    pub fn new(alloc: Global, grammar: &Grammar) -> Result<MoveBuilder<W>, Memory>
        requires fits { FitsSets W grammar.now }
        ensures { IfOk result (IsMoveBuilder (plain_of grammar.now)) }
    {
        Ok(MoveBuilder {
            closer: ClosureBuilder::new(alloc, grammar)?,
            rows: SymbolRows::new(alloc, grammar)?,
        })
    }

    /// Returns the moves of a kernel's closure, on tokens rising and then on nonterminals rising (Knuth 1965). It fails
    /// only if there is no memory.
    pub fn moves(
        &mut self,
        alloc: Global,
        grammar: &Grammar,
        kernel: &Kernel<W>,
    ) -> Result<Vec<Move<W>>, Memory>
        requires fits { FitsSets W grammar.now }
        requires mover { IsMoveBuilder (plain_of grammar.now) self.old }
        requires kernel { IsItemList (plain_of grammar.now) kernel.now }
        ensures moves { IfOk result (λ v. AreMovesOf (plain_of grammar.now) kernel.now v.items) }
        ensures mover { IfOk result (λ _. IsMoveBuilder (plain_of grammar.now) self.new) }
    {
        let closed = self.closer.close(alloc, grammar, kernel)?;
        moves(alloc, grammar, &closed, &mut self.rows)
    }
}
