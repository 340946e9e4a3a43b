//! The queue of states that need edges.
ghost use Rattle.std.specs.Prelude.{◌≡◌, ◌<◌, ◌+◌, ◌^◌, ◌++◌, ◌∷◌, [], length, OnOk, MatchOption};
ghost use Rattle.mh_pager.specs.MergeSteps.{Enqueues};
ghost use Rattle.mh_pager.specs.code.QueueFlags.{AreFlagged};

use std::alloc::{AllocError, AllocFailed, Global};
use std::collections::VecDeque;

/// The states that need edges, the oldest first, with a flag for each state.
#[derive(Drop)]
pub struct Queue {
    /// The numbers of the queued states, the oldest first.
    pub states: VecDeque<u32>,
    /// For each state, true if it is queued.
    pub waits: Vec<bool>,
}

impl Queue {
    /// Returns a queue for no states. It takes no memory.
    pub fn new(alloc: Global) -> Queue
        ensures states { result.states.items ≡ [] }
        ensures waits { result.waits.items ≡ [] }
    {
        Queue {
            states: VecDeque::new(alloc),
            waits: Vec::new(alloc),
        }
    }

    /// Removes the oldest state from the queue and returns it.
    pub fn take_oldest(&mut self) -> Option<u32>
        requires { AreFlagged self.old.states.items self.old.waits.items }
        ensures oldest { MatchOption result ((self.old.states.items ≡ []) × (self.new.states.items ≡ [])) (λ n. self.old.states.items ≡ n ∷ self.new.states.items) }
        ensures flagged { AreFlagged self.new.states.items self.new.waits.items }
        ensures len { length self.new.waits.items ≡ length self.old.waits.items }
    {
        match self.states.pop_front() {
            Some(state) => {
                self.waits[state as usize] = false;
                Some(state)
            }
            None => None,
        }
    }

    /// Queues a new state, with the next number. It fails only if there is no memory.
    pub fn add(&mut self) -> Result<(), AllocError>
        requires flagged { AreFlagged self.old.states.items self.old.waits.items }
        requires few { length self.old.waits.items < 2 ^ 32 }
        ensures states { OnOk result (self.new.states.items ≡ self.old.states.items ++ length self.old.waits.items ∷ []) }
        ensures flagged { OnOk result (AreFlagged self.new.states.items self.new.waits.items) }
        ensures len { OnOk result (length self.new.waits.items ≡ length self.old.waits.items + 1) }
    {
        self.states.push_back(self.waits.len() as u32)?;
        self.waits.push(true)?;
        Ok(())
    }

    /// Queues a state unless it is queued already. It fails only if there is no memory.
    pub fn add_again(&mut self, state: u32) -> Result<(), AllocFailed<u32>>
        requires flagged { AreFlagged self.old.states.items self.old.waits.items }
        requires known { state < length self.old.waits.items }
        ensures states { OnOk result (Enqueues self.old.states.items state self.new.states.items) }
        ensures flagged { OnOk result (AreFlagged self.new.states.items self.new.waits.items) }
        ensures len { OnOk result (length self.new.waits.items ≡ length self.old.waits.items) }
    {
        if self.waits[state as usize] {
            return Ok(());
        }
        self.states.push_back(state)?;
        self.waits[state as usize] = true;
        Ok(())
    }
}
