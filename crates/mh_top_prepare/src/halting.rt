//! Makes the table of an automaton with its conflicts. A table with a relative run that makes more than 10,000
//! reductions is refused, so that every run on the table ends.
ghost use Rattle.mh_grammar.specs.Costs.{HaveCosts};
ghost use Rattle.mh_grammar.specs.Plain.{plain_of};
ghost use Rattle.mh_items_kernels.specs.Automaton.{IsAutomaton};
ghost use Rattle.mh_top_prepare.specs.ResolvedStage.{IsResolvedStage};
ghost use Rattle.mh_top_drive.specs.code.StageCalls.{StageGives};
ghost use Rattle.mh_resolve_cells.specs.States.{IsTableOf};
ghost use Rattle.mh_resolve_cells.specs.Conflicts.{AreConflicts};
ghost use Rattle.mh_items.specs.Fitting.{FitsSets};

use crate::looping::loops;
use mh_grammar::{Grammar, Sequence};
use mh_items_kernels::Automaton;
use mh_resolve::resolve;
use mh_resolve_cells::{Conflict, Mode};
use mh_tables::{HaltFault, check_halts};
use mh_tables_core::Table;
use mh_top_drive::{Stop, TabledAutomaton, TabledAutomatonWith};
use std::alloc::Global;

/// The automaton with this table, if no relative run (see `MAX_REDUCTIONS`) makes more than 10,000 reductions, so that
/// every run ends; otherwise the refusal of the table.
pub(crate) fn where_halting<const W: usize>(
    alloc: Global,
    grammar: &Grammar,
    automaton: Automaton<W>,
    table: Table,
    conflicts: Vec<Conflict>,
    mode: Mode,
) -> Result<TabledAutomaton<W>, Stop>
    requires fits { FitsSets W grammar.now }
    requires table { IsTableOf grammar.now automaton mode table }
    requires conflicts { AreConflicts grammar.now automaton conflicts.items }
    ensures { StageGives (IsResolvedStage mode grammar.now automaton.entry) result }
{
    match check_halts(alloc, table) {
        Ok(halting) => Ok(TabledAutomatonWith {
            automaton,
            halting,
            conflicts: Sequence::from_vec(conflicts),
            mode,
        }),
        Err(
            HaltFault::Loops {
                below,
                state,
                token,
            },
        ) => Err(loops(alloc, grammar, below, state, token)),
        Err(HaltFault::Memory) => Err(Stop::OutOfMemory),
    }
}

/// Resolves the conflicts of the automaton, and gives the automaton with its table, or refuses the table as
/// `where_halting` does.
pub(crate) fn with_table<const W: usize>(
    alloc: Global,
    grammar: &Grammar,
    automaton: Automaton<W>,
    mode: Mode,
) -> Result<TabledAutomaton<W>, Stop>
    requires fits { FitsSets W grammar.now }
    requires costs { HaveCosts grammar.now.tokens }
    requires automaton { IsAutomaton (plain_of grammar.now) automaton }
    ensures { StageGives (IsResolvedStage mode grammar.now automaton.entry) result }
{
    let (table, conflicts) = resolve(alloc, grammar, &automaton, mode)?;
    where_halting(alloc, grammar, automaton, table, conflicts, mode)
}
