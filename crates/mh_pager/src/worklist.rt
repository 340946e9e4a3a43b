//! The states during the construction, and the placing of a move.
ghost use Rattle.std.specs.Prelude.{◌≡◌, ◌<◌, ◌≤◌, ◌^◌, ◌++◌, ◌∷◌, [], ℕ, length, set, Err, IfOk, OnOk, IsTrue, MatchOption, ◌↔◌};
ghost use Rattle.mh_grammar.specs.Plain.{plain_of};
ghost use Rattle.mh_items_kernels.specs.Kernels.{IsItemList};
ghost use Rattle.mh_items_kernels.specs.KernelTypes.{Kernel as KernelOf};
ghost use Rattle.mh_pager.specs.code.Worklist.{merge_state_of, IsConsistentWorklist, HasGroupNumberIn, JoinsMoveAt, AppendsMove, HasSameCoreAt};
ghost use Rattle.mh_pager.specs.code.StateTests.{HasCoreAndPasses};
ghost use Rattle.mh_pager.specs.FirstState.{IsFirst, HasNoneWith};
ghost use Rattle.mh_pager.specs.code.ReachedByMerging.{IsWellFormed};
ghost use Rattle.mh_pager.specs.MergeSteps.{MergeState, ContainsMove, PlacesMove};
ghost use Rattle.mh_items.specs.Fitting.{FitsSets};
ghost use Rattle.mh_canon.specs.Limits.{max_states};

use crate::finding::{StateTest, first_fitting};
use crate::index::CoreIndex;
use crate::queue::Queue;
use crate::unions::joined;
use mh_canon::number;
use mh_grammar::{Edge, Grammar, Memory, Sequence};
use mh_items_kernels::{Kernel, StatesFault};
use std::alloc::Global;

/// The states during the construction, with the queue of those that need edges.
pub struct Worklist<const W: usize> {
    /// The kernels of the states.
    pub kernels: Vec<Kernel<W>>,
    /// The edges that each state got last; empty before its first step.
    pub rows: Vec<Sequence<Edge>>,
    /// The states that need edges.
    pub queue: Queue,
    /// The states by core.
    pub(crate) index: CoreIndex,
}

// The exit of a function drops this value by one call. With the derived destructor it would drop each field.
impl<const W: usize> Drop for Worklist<W> {
    fn drop(self) {
        let Worklist {
            kernels,
            rows,
            queue,
            index,
        } = self;
        drop(kernels);
        drop(rows);
        drop(queue);
        drop(index);
    }
}

impl<const W: usize> Worklist<W> {
    /// Returns a worklist without states. It takes no memory.
    pub fn new(alloc: Global) -> Worklist<W>
        requires { W ≤ 8 }
        ensures work { merge_state_of result ≡ record { kernels = []; rows = []; queue = [] } }
        ensures kept { IsConsistentWorklist result }
    {
        Worklist {
            kernels: Vec::new(alloc),
            rows: Vec::new(alloc),
            queue: Queue::new(alloc),
            index: CoreIndex::new(alloc),
        }
    }

    /// Places a move and returns the number of its target: the first state that contains it, else the first state that
    /// is weakly compatible with it, else a new state (Pager 1977). It fails with `TooManyStates` exactly if the new
    /// state exceeds `MAX_STATES`.
    pub fn put(
        &mut self,
        alloc: Global,
        grammar: &Grammar,
        kernel: Kernel<W>,
    ) -> Result<u32, StatesFault>
        requires fits { FitsSets W grammar.now }
        requires kernel { IsItemList (plain_of grammar.now) kernel }
        requires ready { IsWellFormed (plain_of grammar.now) (merge_state_of self.old) }
        requires few { length self.old.kernels.items ≤ max_states }
        requires kept { IsConsistentWorklist self.old }
        ensures ok { IfOk result (λ n. PlacesMove (plain_of grammar.now) kernel.entry (merge_state_of self.old) (merge_state_of self.new) n) }
        ensures few { OnOk result (length self.new.kernels.items ≤ max_states) }
        ensures kept { OnOk result (IsConsistentWorklist self.new) }
        ensures exceeds { result ≡ Err StatesFault.TooManyStates → (n : ℕ) × (new : MergeState) × PlacesMove (plain_of grammar.now) kernel.entry (merge_state_of self.old) new n × (max_states < length new.kernels) }
    {
        let core = self.index.place(alloc, &kernel)?;
        match self.fitting(grammar, core, &kernel, StateTest::Covering) {
            Some(n) => Ok(n),
            None => self.put_unkept(alloc, grammar, core, kernel),
        }
    }

    /// Places a move that no state contains.
    fn put_unkept(
        &mut self,
        alloc: Global,
        grammar: &Grammar,
        core: usize,
        kernel: Kernel<W>,
    ) -> Result<u32, StatesFault>
        requires fits { FitsSets W grammar.now }
        requires kernel { IsItemList (plain_of grammar.now) kernel }
        requires ready { IsWellFormed (plain_of grammar.now) (merge_state_of self.old) }
        requires few { length self.old.kernels.items ≤ max_states }
        requires kept { IsConsistentWorklist self.old }
        requires group { HasGroupNumberIn self.old kernel core }
        requires unkept { HasNoneWith (ContainsMove kernel) self.old.kernels.items }
        ensures ok { IfOk result (λ n. PlacesMove (plain_of grammar.now) kernel.entry (merge_state_of self.old) (merge_state_of self.new) n) }
        ensures few { OnOk result (length self.new.kernels.items ≤ max_states) }
        ensures kept { OnOk result (IsConsistentWorklist self.new) }
        ensures exceeds { result ≡ Err StatesFault.TooManyStates → (n : ℕ) × (new : MergeState) × PlacesMove (plain_of grammar.now) kernel.entry (merge_state_of self.old) new n × (max_states < length new.kernels) }
    {
        match self.fitting(grammar, core, &kernel, StateTest::Compatible) {
            Some(n) => {
                self.take(alloc, grammar, n, &kernel)?;
                Ok(n)
            }
            None => self.append(alloc, core, kernel),
        }
    }

    /// Returns the first state that passes the test for a move whose core has the given group number.
    fn fitting(
        &self,
        grammar: &Grammar,
        core: usize,
        kernel: &Kernel<W>,
        fit: StateTest,
    ) -> Option<u32>
        requires small { W ≤ 8 }
        requires kernel { IsItemList (plain_of grammar.now) kernel.now }
        requires ready { IsWellFormed (plain_of grammar.now) (merge_state_of self.now) }
        requires kept { IsConsistentWorklist self.now }
        requires group { HasGroupNumberIn self.now kernel.now core }
        ensures { MatchOption result (HasNoneWith (HasCoreAndPasses fit kernel.now) self.now.kernels.items) (λ n. (k : KernelOf) × IsFirst (HasCoreAndPasses fit kernel.now) self.now.kernels.items n k) }
    {
        first_fitting(
            grammar,
            self.kernels.as_slice(),
            self.index.states[core].as_slice(),
            kernel,
            fit,
        )
    }

    /// Joins a move into a state, and queues the state.
    fn take(
        &mut self,
        alloc: Global,
        grammar: &Grammar,
        state: u32,
        kernel: &Kernel<W>,
    ) -> Result<(), Memory>
        requires fits { FitsSets W grammar.now }
        requires kernel { IsItemList (plain_of grammar.now) kernel.now }
        requires ready { IsWellFormed (plain_of grammar.now) (merge_state_of self.old) }
        requires within { state < length self.old.kernels.items }
        requires core { HasSameCoreAt kernel.now self.old.kernels.items state }
        requires kept { IsConsistentWorklist self.old }
        ensures work { OnOk result (JoinsMoveAt (plain_of grammar.now) kernel.now (merge_state_of self.old) (merge_state_of self.new) state) }
        ensures kept { OnOk result (IsConsistentWorklist self.new) }
    {
        let joined = joined(alloc, grammar, &self.kernels[state as usize], kernel)?;
        self.queue.add_again(state)?;
        self.kernels[state as usize] = joined;
        Ok(())
    }

    /// Appends a move as a new state, and queues it.
    fn append(&mut self, alloc: Global, core: usize, kernel: Kernel<W>) -> Result<u32, StatesFault>
        requires small { W ≤ 8 }
        requires few { length self.old.kernels.items ≤ max_states }
        requires kept { IsConsistentWorklist self.old }
        requires group { HasGroupNumberIn self.old kernel core }
        ensures ok { IfOk result (λ n. AppendsMove kernel.entry (merge_state_of self.old) (merge_state_of self.new) n) }
        ensures few { OnOk result (length self.new.kernels.items ≤ max_states) }
        ensures kept { OnOk result (IsConsistentWorklist self.new) }
        ensures exceeds { result ≡ Err StatesFault.TooManyStates → length self.old.kernels.items ≡ max_states }
    {
        match number(self.kernels.len()) {
            Ok(n) => {
                self.push(alloc, core, kernel)?;
                Ok(n)
            }
            Err(fault) => Err(fault),
        }
    }

    /// Appends a kernel as a new state without edges, and queues it.
    fn push(&mut self, alloc: Global, core: usize, kernel: Kernel<W>) -> Result<(), Memory>
        requires small { W ≤ 8 }
        requires few { length self.old.kernels.items < 2 ^ 32 }
        requires kept { IsConsistentWorklist self.old }
        requires group { HasGroupNumberIn self.old kernel core }
        ensures ok { OnOk result (AppendsMove kernel.entry (merge_state_of self.old) (merge_state_of self.new) (length self.old.kernels.items)) }
        ensures kept { OnOk result (IsConsistentWorklist self.new) }
    {
        let count = self.kernels.len();
        let state = count as u32;
        // The kernel is pushed first, so that no later error exit has to drop it.
        self.kernels.push(kernel)?;
        self.index.states[core].push(state)?;
        self.queue.add()?;
        self.rows.push(Sequence::new(alloc))?;
        Ok(())
    }

    /// Appends a start kernel as a new state without edges, and queues it. It fails only if there is no memory.
    pub fn push_start(&mut self, alloc: Global, kernel: Kernel<W>) -> Result<(), Memory>
        requires small { W ≤ 8 }
        requires few { length self.old.kernels.items < 2 ^ 32 }
        requires kept { IsConsistentWorklist self.old }
        ensures ok { OnOk result (AppendsMove kernel.entry (merge_state_of self.old) (merge_state_of self.new) (length self.old.kernels.items)) }
        ensures kept { OnOk result (IsConsistentWorklist self.new) }
    {
        let core = self.index.place(alloc, &kernel)?;
        self.push(alloc, core, kernel)
    }
}
