//! The lines that report what is wrong with an automaton and its table.
ghost use Rattle.std.specs.Prelude.{◌≡◌, ◌<◌, ◌++◌, ◌∷◌, [], ℕ, length, codes, decimal, IfOk, OnOk};
ghost use Rattle.std.specs.List.{All, flat_map};
ghost use Rattle.mh_grammar.specs.Plain.{plain_of, production_count, IsInRange};
ghost use Rattle.mh_grammar_texts.specs.Productions.{production_text};
ghost use Rattle.mh_items.specs.Fitting.{FitsSets};
ghost use Rattle.mh_items.specs.code.ClosureBuilder.{IsClosureBuilder};
ghost use Rattle.mh_items_kernels.specs.Automaton.{IsAutomaton};
ghost use Rattle.mh_resolve_cells.specs.Conflicts.{AreConflicts, IsConflictOf};
ghost use Rattle.mh_resolve_cells.specs.Names.{look_name};
ghost use Rattle.mh_tables_core.specs.Table.{TableData};
ghost use Rattle.mh_lint_findings.specs.Lines.{line, lines_of};
ghost use Rattle.mh_lint_findings.specs.LinesInOrder.{AreInOrder};
ghost use Rattle.mh_lint_findings.specs.code.AppendedLines.{AppendsLines};
ghost use Rattle.mh_lint_findings.specs.declared.findings.Position.TheVariants as positions;
ghost use Rattle.mh_lint_states.specs.AutomatonLines.{AreAutomatonLines, AreConflictLines, ordinary};
ghost use Rattle.mh_lint_states.specs.Reductions.{IsReduced};
ghost use Rattle.mh_lint_states.specs.code.ClosedStates.{IsClosedState};
ghost use Rattle.mh_lint_states.specs.code.Marks.{AreMarked};
ghost use Rattle.mh_lint_states.specs.code.UnreducedLines.{unreduced_line};

use crate::conflicts::kind_of;
use crate::states::{ClosedState, close_state};
use mh_grammar::{Grammar, Memory};
use mh_grammar_texts::{write_between, write_production};
use mh_items::ClosureBuilder;
use mh_items_kernels::Automaton;
use mh_lint_findings::{Finding, FindingText, Position};
use mh_report_notation::look_name;
use mh_resolve_cells::{Conflict, ConflictKind};
use std::alloc::Global;

/// Appends a finding without a place.
fn put_line(findings: &mut Vec<Finding<'_>>, text: Vec<u8>) -> Result<(), Memory>
    ensures { OnOk result (lines_of findings.new.items ≡ lines_of findings.old.items ++ line positions.OfAutomaton text.items ∷ []) }
{
    findings.push(Finding {
        at: Position::OfAutomaton,
        text: FindingText::from_vec(text),
    })?;
    Ok(())
}

/// The text for a production that no state reduces.
fn unreduced_text(alloc: Global, grammar: &Grammar, production: u32) -> Result<Vec<u8>, Memory>
    ensures { IfOk result (λ text. text.items ≡ codes "never reduced: " ++ production_text grammar.now production) }
{
    let mut text = Vec::new(alloc);
    text.extend_from_slice(b"never reduced: ")?;
    write_production(&mut text, grammar, production)?;
    Ok(text)
}

/// Appends the line for a production, if no state reduces the production.
fn put_production(
    alloc: Global,
    grammar: &Grammar,
    reduced: &[bool],
    production: u32,
    findings: &mut Vec<Finding<'_>>,
) -> Result<(), Memory>
    requires { production < length reduced.now }
    ensures { OnOk result (lines_of findings.new.items ≡ lines_of findings.old.items ++ unreduced_line grammar.now reduced.now production) }
{
    if reduced[production as usize] {
        return Ok(());
    }
    put_line(findings, unreduced_text(alloc, grammar, production)?)
}

/// Appends the lines for the ordinary productions that no state reduces.
fn put_productions(
    alloc: Global,
    grammar: &Grammar,
    reduced: &[bool],
    findings: &mut Vec<Finding<'_>>,
) -> Result<(), Memory>
    requires range { IsInRange (plain_of grammar.now) }
    requires flags { length reduced.now ≡ production_count (plain_of grammar.now) }
    ensures { OnOk result (lines_of findings.new.items ≡ lines_of findings.old.items ++ flat_map (unreduced_line grammar.now reduced.now) (ordinary grammar.now)) }
{
    let starts = grammar.starts.len() as u32;
    for place in 0..grammar.productions.len() as u32 {
        put_production(alloc, grammar, reduced, starts + place, findings)?;
    }
    Ok(())
}

/// The text of an end-of-stream conflict.
fn stream_text(alloc: Global, state: u32) -> Result<Vec<u8>, Memory>
    ensures { IfOk result (λ text. text.items ≡ codes "end-of-stream conflict in state " ++ decimal state) }
{
    let mut text = Vec::new(alloc);
    write_between(&mut text, b"end-of-stream conflict in state ", state, b"")?;
    Ok(text)
}

/// The text of a conflict that levels did not decide.
fn unsolved_text(alloc: Global, kind: &[u8], state: u32, look: &[u8]) -> Result<Vec<u8>, Memory>
    ensures { IfOk result (λ text. text.items ≡ kind.now ++ codes " conflict in state " ++ decimal state ++ codes " on " ++ look.now) }
{
    let mut text = Vec::new(alloc);
    text.extend_from_slice(kind)?;
    write_between(&mut text, b" conflict in state ", state, b" on ")?;
    text.extend_from_slice(look)?;
    Ok(text)
}

/// The state with this number: the state at hand, if it has this number.
fn at_state<const W: usize>(
    alloc: Global,
    grammar: &Grammar,
    closer: &mut ClosureBuilder<W>,
    automaton: &Automaton<W>,
    state: ClosedState<W>,
    number: u32,
) -> Result<ClosedState<W>, Memory>
    requires fits { FitsSets W grammar.now }
    requires closer { IsClosureBuilder (plain_of grammar.now) closer.old }
    requires automaton { IsAutomaton (plain_of grammar.now) automaton.now }
    requires here { IsClosedState grammar.now automaton.now state.number state.closed }
    requires state { number < length automaton.now.kernels }
    ensures state { IfOk result (λ state. IsClosedState grammar.now automaton.now state.number state.closed) }
    ensures number { IfOk result (λ state. state.number ≡ number) }
    ensures closer { IfOk result (λ _. IsClosureBuilder (plain_of grammar.now) closer.new) }
{
    if state.number == number {
        return Ok(state);
    }
    drop(state);
    close_state(alloc, grammar, closer, automaton, number)
}

/// Appends the line of a conflict in its state, if the conflict has a line.
fn put_conflict<const W: usize>(
    alloc: Global,
    grammar: &Grammar,
    automaton: &Automaton<W>,
    state: &ClosedState<W>,
    conflict: &Conflict,
    findings: &mut Vec<Finding<'_>>,
) -> Result<(), Memory>
    requires fits { FitsSets W grammar.now }
    requires automaton { IsAutomaton (plain_of grammar.now) automaton.now }
    requires state { IsClosedState grammar.now automaton.now state.now.number state.now.closed }
    requires number { state.now.number ≡ conflict.now.state }
    requires conflict { IsConflictOf grammar.now automaton.now conflict.now }
    ensures { OnOk result (AppendsLines (AreConflictLines grammar.now automaton.now conflict.now) findings.old.items findings.new.items) }
{
    match conflict.kind {
        ConflictKind::Solved => Ok(()),
        ConflictKind::Stream => put_line(findings, stream_text(alloc, conflict.state)?),
        ConflictKind::Unsolved => {
            let kind = kind_of(grammar, automaton, state, conflict.look);
            let look = look_name(grammar, conflict.look);
            put_line(findings, unsolved_text(alloc, kind, conflict.state, look)?)
        }
    }
}

/// Appends the lines of conflicts, of which the first is in this state.
fn put_conflicts<const W: usize>(
    alloc: Global,
    grammar: &Grammar,
    closer: &mut ClosureBuilder<W>,
    automaton: &Automaton<W>,
    conflicts: &[Conflict],
    findings: &mut Vec<Finding<'_>>,
) -> Result<(), Memory>
    requires fits { FitsSets W grammar.now }
    requires automaton { IsAutomaton (plain_of grammar.now) automaton.now }
    requires closer { IsClosureBuilder (plain_of grammar.now) closer.old }
    requires conflicts { All (IsConflictOf grammar.now automaton.now) conflicts.now }
    ensures { OnOk result (AppendsLines (AreInOrder (AreConflictLines grammar.now automaton.now) conflicts.now) findings.old.items findings.new.items) }
{
    let Some(first) = conflicts.first() else {
        return Ok(());
    };
    let mut state = close_state(alloc, grammar, closer, automaton, first.state)?;
    for conflict in conflicts {
        state = at_state(alloc, grammar, closer, automaton, state, conflict.state)?;
        put_conflict(alloc, grammar, automaton, &state, conflict, findings)?;
    }
    Ok(())
}

/// Appends the lines that report what is wrong with an automaton and its table: the ordinary productions that no state
/// reduces, and the conflicts. Fails only if memory runs out.
pub fn automaton_findings<const W: usize>(
    alloc: Global,
    grammar: &Grammar,
    automaton: &Automaton<W>,
    conflicts: &[Conflict],
    reduced: &[bool],
    findings: &mut Vec<Finding<'_>>,
) -> Result<(), Memory>
    requires fits { FitsSets W grammar.now }
    requires automaton { IsAutomaton (plain_of grammar.now) automaton.now }
    requires conflicts { AreConflicts grammar.now automaton.now conflicts.now }
    requires flags { length reduced.now ≡ production_count (plain_of grammar.now) }
    ensures { (table : TableData) → AreMarked (IsReduced table) reduced.now → OnOk result (AppendsLines (AreAutomatonLines grammar.now automaton.now table conflicts.now) findings.old.items findings.new.items) }
{
    put_productions(alloc, grammar, reduced, findings)?;
    let mut closer = ClosureBuilder::new(alloc, grammar)?;
    put_conflicts(alloc, grammar, &mut closer, automaton, conflicts, findings)
}
