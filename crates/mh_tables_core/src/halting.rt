//! A table on which every run ends.
ghost use Rattle.std.specs.Prelude.{◌≡◌, ◌<◌, List, ℕ, length};
ghost use Rattle.std.specs.List.{AllByRecursion};
ghost use Rattle.mh_tables_core.specs.Halting.{HaltingFacts, AlwaysHalts};
ghost use Rattle.mh_tables_core.specs.Run.{VerdictOf, Ending};

use crate::table::Table;
use std::marker::Model;

/// The greatest number of reductions that a relative run may make (this project's own limit). A relative run has one
/// next token or none. It begins with a start state alone, or with a state above a state with an edge to it, and makes
/// reductions as long as they do not remove the lowest state.
pub const MAX_REDUCTIONS: u32 = 10_000;

/// A table on which no relative run (see `MAX_REDUCTIONS`) makes more than `MAX_REDUCTIONS` reductions. So every run on
/// the table ends.
#[derive(Drop)]
pub struct Halting {
    table: Table,
}

impl Model for Halting {
    ghost use Rattle.mh_tables_core.specs.Table.{TableData};
    ghost use Rattle.mh_tables_core.specs.Halting.{HaltingFacts};

    ghost Value = { TableData };

    ghost view = { λ h. h.table };

    ghost invariant = { λ h. HaltingFacts h.table };
}

/// Returns the table as one that passed the halting test, which its precondition states. It takes no memory.
pub fn halting_of(table: Table) -> Halting
    requires { AlwaysHalts table }
    ensures { result ≡ table }
{
    table.facts();
    Halting { table }
}

impl Halting {
    /// The table.
    pub fn table(&self) -> &Table
        ensures table { result.now ≡ self.now }
        ensures facts { HaltingFacts self.now }
    {
        &self.table
    }

    /// Law: each start has a verdict on each sentence. The body is empty; only the contract matters.
    pub fn run_ends(&self)
        ensures { (start : ℕ) (w : List ℕ) → start < length self.now.grammar.starts → AllByRecursion (λ z. z < self.now.grammar.tokens) w → (how : Ending) × VerdictOf self.now start w how }
    {
        let _table = &self.table;
    }
}
