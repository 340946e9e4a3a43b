//! The stages from the text of a grammar file to the table, each as one call: module, joined rules, instances, grammar,
//! automaton, table.
ghost use Rattle.std.specs.Prelude.{◌≤◌, ◌<◌, length, All, IfOk, IsTrue};
ghost use Rattle.mh_grammar.specs.Costs.{HaveCosts};
ghost use Rattle.mh_grammar.specs.Plain.{plain_of, IsInRange};
ghost use Rattle.mh_items_kernels.specs.Automaton.{IsAutomaton};
ghost use Rattle.mh_resolve_cells.specs.States.{IsTableOf};
ghost use Rattle.mh_resolve_cells.specs.declared.kinds.Mode.TheVariants.{Merged};
ghost use Rattle.mh_rules.specs.Ready.{AreModulesReady, IsExpandedReady, IsModuleReady, IsJoinedReady};
ghost use Rattle.mh_items.specs.Fitting.{FitsSets};

use mh_expand::{Expanded, expand};
use mh_grammar::{Grammar, Token, has_costs_in_range, is_in_range};
use mh_inline::inline_rules;
use mh_items::{Automaton, StatesFault};
use mh_join::{Joined, join};
use mh_pager::merged;
use mh_reader::{Module, read_module};
use mh_resolve::{Mode, resolve};
use mh_tables::{Halting, check_halts};
use std::alloc::Global;
use std::test::Fail;

/// The first token of the grammar.
pub const A: Token = 0;

/// The second token of the grammar.
pub const EOF: Token = 1;

/// The module that a grammar file spells: its declarations and rules, with names as they are written.
pub fn module_of(alloc: Global, text: &str) -> Result<Module, Fail>
    ensures { IfOk result IsModuleReady }
{
    if text.len() > 1_000_000 {
        return Err(Fail::from("a long file"));
    }
    match read_module(alloc, text.as_bytes()) {
        Ok(module) => Ok(module),
        Err(_) => Err(Fail::from("a file that spells no module")),
    }
}

/// A list of one module. A grammar may have several files.
pub fn modules_of(alloc: Global, text: &str) -> Result<Vec<Module>, Fail>
    ensures { IfOk result (λ modules. AreModulesReady modules.items) }
{
    let mut modules = Vec::new(alloc);
    modules.push(module_of(alloc, text)?)?;
    Ok(modules)
}

/// The joined rules of all files, in which each name is resolved. Here the prelude, with `list` and similar rules, is
/// left out.
pub fn joined_of(alloc: Global, text: &str) -> Result<Joined, Fail>
    ensures { IfOk result IsJoinedReady }
{
    let modules = modules_of(alloc, text)?;
    let joined = join(alloc, modules.as_slice(), false);
    drop(modules);
    Ok(joined?)
}

/// The instances of the rules: each rule with the actuals with which it is used.
pub fn expanded_of(alloc: Global, text: &str) -> Result<Expanded, Fail>
    ensures { IfOk result IsExpandedReady }
{
    let joined = joined_of(alloc, text)?;
    let expanded = expand(alloc, &joined);
    drop(joined);
    Ok(expanded?)
}

/// The grammar: the instances that are not `%inline`, with numbers in place of names.
pub fn grammar_of(alloc: Global, text: &str) -> Result<Grammar, Fail> {
    let expanded = expanded_of(alloc, text)?;
    let grammar = inline_rules(alloc, &expanded);
    drop(expanded);
    Ok(grammar?)
}

/// Returns true if a grammar has at most 64 tokens, so that a set of lookaheads fits in one machine word, and its
/// numbers and costs are in range.
pub fn is_small(grammar: &Grammar) -> bool
    ensures width { IsTrue result → length grammar.now.tokens ≤ 64 }
    ensures range { IsTrue result → IsInRange (plain_of grammar.now) }
    ensures costs { IsTrue result → HaveCosts grammar.now.tokens }
{
    is_in_range(grammar) && has_costs_in_range(grammar) && grammar.tokens.len() <= 64
}

/// The merged automaton, by Pager's method. Each of its sets of lookaheads has one machine word.
pub fn automaton_of(alloc: Global, grammar: &Grammar) -> Result<Automaton<1>, Fail>
    requires fits { FitsSets 1 grammar.now }
    ensures { IfOk result (IsAutomaton (plain_of grammar.now)) }
{
    match merged::<1>(alloc, grammar) {
        Ok(automaton) => Ok(automaton),
        Err(StatesFault::TooManyStates) => Err(Fail::from("too many states")),
        Err(StatesFault::Memory) => Err(Fail::from("no memory")),
    }
}

/// The table of the automaton. This grammar has no conflict, and every run on its table ends.
pub fn table_of(alloc: Global, grammar: &Grammar, automaton: &Automaton<1>) -> Result<Halting, Fail>
    requires fits { FitsSets 1 grammar.now }
    requires costs { HaveCosts grammar.now.tokens }
    requires automaton { IsAutomaton (plain_of grammar.now) automaton.now }
    ensures { IfOk result (IsTableOf grammar.now automaton.now Merged) }
{
    let (table, conflicts) = resolve(alloc, grammar, automaton, Mode::Merged)?;
    drop(conflicts);
    match check_halts(alloc, table) {
        Ok(halting) => Ok(halting),
        Err(_) => Err(Fail::from("a run does not end")),
    }
}

/// Returns true if the sentence can be run from the first start symbol: its tokens are tokens of the table.
pub(crate) fn can_run(table: &Halting, sentence: &[Token]) -> bool
    ensures start { IsTrue result → 0 < length table.now.grammar.starts }
    ensures tokens { IsTrue result → All (λ z. z < table.now.grammar.tokens) sentence.now }
    ensures few { IsTrue result → length sentence.now < 2000000 }
{
    let table = table.table();
    let tokens = table.tokens();
    0 < table.starts() && sentence.len() < 2_000_000 && sentence.iter().all(|token| *token < tokens)
}
