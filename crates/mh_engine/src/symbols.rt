//! The symbols on the stack of a run.
ghost use Rattle.std.specs.Prelude.{◌≡◌, List, map, IfOk};
ghost use Rattle.mh_grammar.specs.Trees.{SyntaxTree};
ghost use Rattle.mh_tables_core.specs.Run.{IsRunStack};
ghost use Rattle.mh_tables_core.specs.RunTrees.{TreesMatchStack};
ghost use Rattle.mh_engine.specs.StackSymbols.{symbol_of_tree};

use mh_grammar::{Memory, Symbol};
use mh_tables_core::Table;
use std::alloc::Global;

/// The symbols of the edges between these states of a stack, which are the symbols of the trees on the stack. Fails only
/// if memory runs out.
pub(crate) fn symbols_between(
    alloc: Global,
    table: &Table,
    states: &[u32],
) -> Result<Vec<Symbol>, Memory>
    requires { IsRunStack table.now states.now }
    ensures { IfOk result (λ symbols. (trees : List SyntaxTree) → TreesMatchStack table.now states.now trees → symbols.items ≡ map (symbol_of_tree table.now.grammar) trees) }
{
    table.facts();
    let mut symbols = Vec::new(alloc);
    for place in 1..states.len() {
        let state = states[place];
        match table.symbol_to(state) {
            Some(symbol) => symbols.push(symbol)?,
            None => unreachable!(),
        }
    }
    Ok(symbols)
}
