//! The states that the automaton keeps: first the start states, then others in the order in which they are added.
ghost use Rattle.std.specs.Prelude.{◌≡◌, ◌≤◌, IfOk};
ghost use Rattle.std.specs.List.{range_with_len};
ghost use Rattle.mh_grammar.specs.Placed.{Placed};
ghost use Rattle.mh_canon.specs.Limits.{max_states};

use indexmap::IndexSet;
use mh_grammar::Memory;
use std::alloc::{AllocFailed, Global};

/// The numbers of the start states.
pub(crate) fn kept_first(alloc: Global, starts: usize) -> Result<IndexSet<u32>, Memory>
    requires { starts ≤ max_states }
    ensures { IfOk result (λ s. s.keys ≡ range_with_len 0 starts) }
{
    let mut states = IndexSet::new(alloc);
    for start in 0..starts {
        place_state(&mut states, start as u32)?;
    }
    Ok(states)
}

/// Returns the index of a state among those that are kept; a new state is appended.
pub(crate) fn place_state(states: &mut IndexSet<u32>, state: u32) -> Result<usize, AllocFailed<u32>>
    ensures { IfOk result (Placed states.old.keys states.new.keys state) }
{
    let (at, _) = states.insert_full(state)?;
    Ok(at)
}
