//! The law that the rules of the search give exactly the sentences that come to a state.
ghost use Rattle.std.specs.Prelude.{ℕ, List, ◌↔◌, ◌<◌, length};
ghost use Rattle.mh_facts.specs.Search.{ReachesState};
ghost use Rattle.mh_reach.specs.Coming.{Comes};

use mh_tables_core::Table;

/// A sentence comes to a state with a token next if and only if the rules of the search reach the state with it. The
/// call does nothing: its contract is the law.
pub fn comings_are_reached(table: &Table)
    ensures { (start : ℕ) (w : List ℕ) (s z : ℕ) → start < length table.now.grammar.starts → z < table.now.grammar.tokens → Comes table.now start w s z ↔ ReachesState table.now start s z w }
{
    table.facts();
}
