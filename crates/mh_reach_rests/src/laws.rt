//! Laws on the rules for rests of paths, each the contract of an empty function.
ghost use Rattle.mh_reach_rests.specs.Rests.{AreCompletePaths};
ghost use Rattle.mh_reach_rests.specs.code.ClosedRests.{FindLeastGotos};

use mh_tables_core::Table;

/// Law: the rests that begin with a right side are the complete paths.
pub fn rests_are_paths(table: &Table)
    ensures { AreCompletePaths table.now }
{
    table.facts();
}

/// Law: words of rests and of goto facts that are closed under the rules have, for each complete path that is reduced,
/// a word of its goto fact that comes no later.
pub fn gotos_are_found(table: &Table)
    ensures { FindLeastGotos table.now }
{
    table.facts();
}
