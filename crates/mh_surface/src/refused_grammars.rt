//! Refused grammars: each stage has faults of its own, and the first fault in the order of the stages is reported.
ghost use Rattle.mh_grammar.specs.Costs.{HaveCosts};
ghost use Rattle.mh_grammar.specs.Plain.{plain_of};
ghost use Rattle.mh_items_kernels.specs.Automaton.{IsAutomaton};
ghost use Rattle.mh_rules.specs.Ready.{IsExpandedReady, IsJoinedReady};
ghost use Rattle.mh_items.specs.Fitting.{FitsSets};

use crate::making::{automaton_of, grammar_of, is_small, modules_of};
use mh_expand::{ExpandFault, Expanded, expand};
use mh_grammar::Grammar;
use mh_inline::{InlineFault, inline_rules};
use mh_items::Automaton;
use mh_join::{JoinFault, Joined, join};
use mh_reader::{SyntaxFault, read_module};
use mh_resolve::{Mode, resolve};
use mh_tables::{HaltFault, check_halts};
use std::alloc::Global;
use std::process::Abort;
use std::test::Fail;

/// The faults of names and declarations.
fn join_fault(fault: &JoinFault) -> &'static str {
    match fault {
        JoinFault::Undefined { name: _ } => "undefined",
        JoinFault::Duplicate { name: _ } => "duplicate",
        JoinFault::NoStart => "no start",
        JoinFault::ErrorToken => "error token",
        JoinFault::UnknownLevel { name: _ } => "unknown level",
        JoinFault::TooManyTokens { count: _ } => "too many tokens",
        JoinFault::Memory => "no memory",
    }
}

/// The faults of rules with parameters.
fn expand_fault(fault: &ExpandFault) -> &'static str {
    match fault {
        ExpandFault::Arity { instance: _ } => "arity",
        ExpandFault::Expansion { name: _ } => "expansion",
        ExpandFault::Memory => "no memory",
    }
}

/// The faults of the grammar itself or of its `%inline` rules.
fn inline_fault(fault: &InlineFault) -> &'static str {
    match fault {
        InlineFault::InlineCycle { instance: _ } => "inline cycle",
        InlineFault::InlineStart { name: _ } => "inline start",
        InlineFault::TooManyProductions => "too many productions",
        InlineFault::EmptyLanguage { name: _ } => "empty language",
        InlineFault::Memory => "no memory",
    }
}

fn fault_of_expanded(alloc: Global, expanded: &Expanded) -> &'static str
    requires { IsExpandedReady expanded.now }
{
    match inline_rules(alloc, expanded) {
        Ok(grammar) => {
            drop(grammar);
            "none"
        }
        Err(fault) => {
            let text = inline_fault(&fault);
            drop(fault);
            text
        }
    }
}

fn fault_of_joined(alloc: Global, joined: &Joined) -> &'static str
    requires { IsJoinedReady joined.now }
{
    match expand(alloc, joined) {
        Ok(expanded) => {
            let text = fault_of_expanded(alloc, &expanded);
            drop(expanded);
            text
        }
        Err(fault) => {
            let text = expand_fault(&fault);
            drop(fault);
            text
        }
    }
}

/// The first fault of a file that spells a module.
fn fault_of(alloc: Global, text: &str) -> Result<&'static str, Fail> {
    let modules = modules_of(alloc, text)?;
    let joined = join(alloc, modules.as_slice(), false);
    drop(modules);
    match joined {
        Ok(joined) => {
            let text = fault_of_joined(alloc, &joined);
            drop(joined);
            Ok(text)
        }
        Err(fault) => {
            let text = join_fault(&fault);
            drop(fault);
            Ok(text)
        }
    }
}

/// Grammar files, each followed by ` = ` and its first fault.
const REFUSED: &str = "%start s %% s: A {} = undefined
%token A %start s %% s: t {} t: A {} t: A {} = duplicate
%token A %% s: A {} = no start
%start s %% s: error {} = error token
%token A %start s %% s: A %prec HIGH {} = unknown level
%token A %start s %% s: p {} p(X): X {} = arity
%token A %start s %% s: p(A) {} p(X): X {} | p(q(X)) {} q(X): X {} = expansion
%token A %start s %% s: x {} %inline x: x {} = inline cycle
%token A %start s %% %inline s: A {} = inline start
%token A %start s %% s: s A {} = empty language
%token A %start s %% s: A {} = none";

fn check_line(rt: &impl Abort, alloc: Global, line: &str) -> Result<(), Fail> {
    let (text, wanted) = line.split_once(" = ").ok_or("a line without a fault")?;
    let found = fault_of(alloc, text)?;
    assert_eq!(rt; found, wanted, "{text}");
    Ok(())
}

#[test]
fn faults(rt: HostRuntime) -> Result<(), Fail> {
    for line in REFUSED.lines() {
        check_line(&rt, rt.alloc(), line)?;
    }
    Ok(())
}

/// A file that spells no module is refused, with the line at fault.
#[test]
fn no_module(rt: HostRuntime) -> Result<(), Fail> {
    let read = read_module(rt.alloc(), b"%token A\n%%\ns A\n");
    let is_wanted = matches!(read, Err(SyntaxFault::Syntax { line: 3 }));
    drop(read);
    assert!(rt; is_wanted);
    Ok(())
}

/// Returns true if runs on the table of an automaton loop in state 0 before any token is read.
fn loops_at_once(alloc: Global, grammar: &Grammar, automaton: &Automaton<1>) -> Result<bool, Fail>
    requires fits { FitsSets 1 grammar.now }
    requires costs { HaveCosts grammar.now.tokens }
    requires automaton { IsAutomaton (plain_of grammar.now) automaton.now }
{
    let (table, conflicts) = resolve(alloc, grammar, automaton, Mode::Merged)?;
    drop(conflicts);
    let checked = check_halts(alloc, table);
    let loops = match &checked {
        Err(
            HaltFault::Loops {
                below,
                state,
                token,
            },
        ) => below.is_none() && *state == 0 && token.is_none(),
        _ => false,
    };
    drop(checked);
    Ok(loops)
}

fn check_loop(rt: &impl Abort, alloc: Global, grammar: &Grammar) -> Result<(), Fail> {
    if !is_small(grammar) {
        return Err(Fail::from("a large grammar"));
    }
    let automaton = automaton_of(alloc, grammar)?;
    let loops = loops_at_once(alloc, grammar, &automaton);
    drop(automaton);
    assert!(rt; loops?);
    Ok(())
}

/// Levels may leave a table on which a run reduces without end: here the empty rule `b` is reduced again and again.
const LOOPING: &str =
    "%token A %nonassoc A %nonassoc HIGH %start s %% s: b s A {} | A {} b: %prec HIGH {}";

#[test]
fn a_looping_table(rt: HostRuntime) -> Result<(), Fail> {
    let grammar = grammar_of(rt.alloc(), LOOPING)?;
    let result = check_loop(&rt, rt.alloc(), &grammar);
    drop(grammar);
    result
}
