//! The law that the sentences that the search's rules refuse are the failing sentences.
ghost use Rattle.std.specs.Prelude.{ℕ, List, ◌↔◌};
ghost use Rattle.mh_facts.specs.Search.{IsRefusedSentence};
ghost use Rattle.mh_tables_core.specs.Failing.{Fails};

use mh_tables_core::Table;

/// A sentence fails in a state if and only if the rules of the search refuse it there. The call does nothing: its
/// contract is the law.
pub fn failures_are_reached(table: &Table)
    ensures { (start : ℕ) (w : List ℕ) (s : ℕ) → Fails table.now start w s ↔ IsRefusedSentence table.now start w s }
{
    table.facts();
}
