//! A queue of items by cost.
ghost use Rattle.std.specs.Prelude.{◌≡◌, [], OnOk};
ghost use Rattle.mh_facts.specs.code.Queues.{QueueGains, IsSameQueueEntry, TakesFromQueue};

use mh_grammar::Memory;
use std::alloc::Global;

/// A queue with a bucket for each cost up to the highest cost in use.
#[derive(Drop)]
pub struct Queue<T> {
    pub buckets: Vec<Vec<T>>,
}

/// The empty queue.
pub fn empty_queue<T>(alloc: Global) -> Queue<T>
    ensures { result.buckets.items ≡ [] }
{
    Queue {
        buckets: Vec::new(alloc),
    }
}

/// Adds an item with its cost. Fails only if memory runs out.
pub fn push<T: Drop>(alloc: Global, queue: &mut Queue<T>, cost: u32, item: T) -> Result<(), Memory>
    ensures { OnOk result (QueueGains (IsSameQueueEntry cost item) queue.old.buckets.items queue.new.buckets.items) }
{
    'buckets: while queue.buckets.len() <= cost as usize {
        queue.buckets.push(Vec::new(alloc))?;
    }
    queue.buckets[cost as usize].push(item)?;
    Ok(())
}

/// Removes and returns an item of the given cost, if there is one.
pub fn take<T>(queue: &mut Queue<T>, cost: u32) -> Option<T>
    ensures { TakesFromQueue queue.old.buckets.items queue.new.buckets.items cost result }
{
    if cost as usize >= queue.buckets.len() {
        return None;
    }
    queue.buckets[cost as usize].pop()
}
