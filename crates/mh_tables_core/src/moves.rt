//! The next move of a state: by its default, else by the cell of the next token.
ghost use Rattle.std.specs.Prelude.{◌≡◌, ◌<◌, length};
ghost use Rattle.mh_tables_core.specs.Run.{run_move_of};
ghost use Rattle.mh_tables_core.specs.Halting.{IsLook, look_list};
ghost use Rattle.mh_tables_core.specs.NextActions.{move_for};

use crate::parts::{Action, Fallback};
use crate::table::Table;
use mh_grammar::Token;

/// The next move of a state.
#[derive(Clone, Copy)]
pub enum NextAction {
    /// Accept, by the default.
    Accept,
    /// Ask for the next token: the state has no default, and no token is given.
    Ask,
    /// Refuse the next token.
    Refuse,
    /// Shift the next token and go to this state.
    Shift(u32),
    /// Reduce this production, by the default or on the next token.
    Reduce(u32),
}

/// Returns the next move of a state, given the next token or none.
#[tactic(auto, unfolding(crate::specs::Run::run_move_of))]
pub fn choose(table: &Table, state: u32, look: Option<Token>) -> NextAction
    requires state { state < length table.now.states }
    requires look { IsLook table.now look }
    ensures { move_for result ≡ run_move_of table.now state (look_list look) }
{
    match table.fallback(state) {
        Some(Fallback::Accept) => NextAction::Accept,
        Some(Fallback::Reduce(production)) => NextAction::Reduce(production),
        None => match look {
            None => NextAction::Ask,
            Some(token) => match table.action(state, token) {
                Action::Shift(target) => NextAction::Shift(target),
                Action::Reduce(production) => NextAction::Reduce(production),
                Action::Refuse => NextAction::Refuse,
            },
        },
    }
}
