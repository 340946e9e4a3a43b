//! The explanation of a conflict: a sentence that runs into it, the actions of the state, and the action taken.
ghost use Rattle.mh_grammar.specs.Costs.{HaveCosts};
ghost use Rattle.mh_grammar.specs.Plain.{plain_of};
ghost use Rattle.mh_items.specs.Fitting.{FitsSets};
ghost use Rattle.mh_items_kernels.specs.Automaton.{IsAutomaton};

use crate::texts::check_written;
use mh_explain::explanation_text;
use mh_grammar::Grammar;
use mh_items::Automaton;
use mh_resolve::{Mode, resolve};
use mh_surface::{automaton_of, grammar_of, is_small};
use mh_tables::check_halts;
use std::alloc::Global;
use std::process::Abort;
use std::test::Fail;

/// A sum of three numbers can be grouped in two ways.
const SUMS: &str = "%token INT PLUS EOF
%start s
%%
s: e EOF {}
e: e PLUS e {} | INT {}
";

const EXPLANATION: &str = "conflict in state 6 on PLUS
  s: INT PLUS INT . PLUS
  shift 4: e -> e . PLUS e
  reduce: e -> e PLUS e .
  taken: shift 4

";

fn check_text(
    rt: &impl Abort,
    alloc: Global,
    grammar: &Grammar,
    automaton: &Automaton<1>,
) -> Result<(), Fail>
    requires fits { FitsSets 1 grammar.now }
    requires costs { HaveCosts grammar.now.tokens }
    requires automaton { IsAutomaton (plain_of grammar.now) automaton.now }
{
    let (table, conflicts) = resolve(alloc, grammar, automaton, Mode::Merged)?;
    let halting = match check_halts(alloc, table) {
        Ok(halting) => halting,
        Err(_) => {
            drop(conflicts);
            return Err(Fail::from("a run does not end"));
        }
    };
    let text = explanation_text(alloc, grammar, automaton, &halting, conflicts.as_slice());
    drop(halting);
    drop(conflicts);
    let text = text?;
    check_written(rt, text, EXPLANATION);
    Ok(())
}

fn check_grammar(rt: &impl Abort, alloc: Global, grammar: &Grammar) -> Result<(), Fail> {
    if !is_small(grammar) {
        return Err(Fail::from("a large grammar"));
    }
    let automaton = automaton_of(alloc, grammar)?;
    let result = check_text(rt, alloc, grammar, &automaton);
    drop(automaton);
    result
}

#[test]
fn an_explanation(rt: HostRuntime) -> Result<(), Fail> {
    let grammar = grammar_of(rt.alloc(), SUMS)?;
    let result = check_grammar(&rt, rt.alloc(), &grammar);
    drop(grammar);
    result
}
