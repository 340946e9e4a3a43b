//! Automata and tables, with the contracts that other calls require.
ghost use Rattle.std.specs.Prelude.{◌≤◌, length, IfOk, IsTrue};
ghost use Rattle.mh_grammar.specs.Costs.{HaveCosts};
ghost use Rattle.mh_grammar.specs.Plain.{plain_of, IsInRange};
ghost use Rattle.mh_items_kernels.specs.Automaton.{IsAutomaton};
ghost use Rattle.mh_resolve_cells.specs.States.{IsTableOf};
ghost use Rattle.mh_resolve_cells.specs.declared.kinds.Mode.TheVariants.{Canonical};
ghost use Rattle.mh_items.specs.Fitting.{FitsSets};

use mh_canon::canonical;
use mh_grammar::{Grammar, has_costs_in_range, is_in_range};
use mh_items_kernels::Automaton;
use mh_resolve::resolve;
use mh_resolve_cells::Mode;
use mh_tables::check_halts;
use mh_tables_core::Halting;
use std::alloc::Global;
use std::test::Fail;

/// Returns true if a grammar has at most 64 tokens and all its numbers and costs are in range.
pub fn is_small(grammar: &Grammar) -> bool
    ensures width { IsTrue result → length grammar.now.tokens ≤ 64 }
    ensures range { IsTrue result → IsInRange (plain_of grammar.now) }
    ensures costs { IsTrue result → HaveCosts grammar.now.tokens }
{
    is_in_range(grammar) && has_costs_in_range(grammar) && grammar.tokens.len() <= 64
}

/// The canonical automaton of a grammar.
pub fn automaton_of(alloc: Global, grammar: &Grammar) -> Result<Automaton<1>, Fail>
    requires fits { FitsSets 1 grammar.now }
    ensures { IfOk result (IsAutomaton (plain_of grammar.now)) }
{
    match canonical::<1>(alloc, grammar) {
        Ok(automaton) => Ok(automaton),
        Err(_) => Err(Fail::from("no automaton")),
    }
}

/// The table of an automaton, if every run on the table ends.
pub fn table_of(alloc: Global, grammar: &Grammar, automaton: &Automaton<1>) -> Result<Halting, Fail>
    requires fits { FitsSets 1 grammar.now }
    requires costs { HaveCosts grammar.now.tokens }
    requires automaton { IsAutomaton (plain_of grammar.now) automaton.now }
    ensures { IfOk result (IsTableOf grammar.now automaton.now Canonical) }
{
    let (table, conflicts) = resolve(alloc, grammar, automaton, Mode::Canonical)?;
    drop(conflicts);
    match check_halts(alloc, table) {
        Ok(halting) => Ok(halting),
        Err(_) => Err(Fail::from("a run does not end")),
    }
}
