//! The upper bound of the number of states.
ghost use Rattle.std.specs.Prelude.{◌≡◌, ◌<◌, ◌≤◌, Err, IfOk};
ghost use Rattle.mh_canon.specs.Limits.{max_states};

use mh_items_kernels::StatesFault;

/// The greatest number of states that an automaton may have.
pub const MAX_STATES: usize = 200_000;

/// Returns the index of a state as its number, or `TooManyStates` if the index is at least `MAX_STATES`.
pub fn number(at: usize) -> Result<u32, StatesFault>
    ensures ok { IfOk result (λ n. (n ≡ at) × (n < max_states)) }
    ensures exceeds { result ≡ Err StatesFault.TooManyStates → max_states ≤ at }
{
    if at >= MAX_STATES {
        return Err(StatesFault::TooManyStates);
    }
    Ok(at as u32)
}
