//! The test of relative runs: tries them one after another, except those that end by their bounds.
ghost use Rattle.std.specs.Prelude.{◌≡◌, ◌<◌, ◌≤◌, length, All, IfOk, OnOk, Some, None, false};
ghost use Rattle.std.specs.Option.{ForSome};
ghost use Rattle.std.specs.List.Sorted.{IsPermutation};
ghost use Rattle.mh_grammar.specs.Plain.{production_count, rhs_of};
ghost use Rattle.mh_tables_core.specs.Table.{TableData, state_at, cell_of, edge_of};
ghost use Rattle.mh_tables_core.specs.Run.{top_of as top};
ghost use Rattle.mh_tables_core.specs.Halting.{IsLook, look_list, IsBeginning, beginning};
ghost use Rattle.mh_tables.specs.code.Relative.{IsReduceOnceResult, ReducesNext, StackReduced, IsReducedWithinResult, LoopsOrStops, LoopsOrNot, StopsWithoutDefault, LookFound, TokenFound, StateFound, AddsTarget, AreTargets, IsTestResult};
ghost use Rattle.mh_tables.specs.code.Passages.{symbol_count, BoundsProveHalting};
ghost use Rattle.mh_tables_core.specs.Limits.{max_reductions};

use crate::bounds::{MAX_BOUND, bounds_of, place_of};
use mh_grammar::{Edge, Token};
use mh_tables_core::{Action, MAX_REDUCTIONS, NextAction, Table, choose};
use std::alloc::{AllocError, Global};

/// A relative run: reductions with this next token or none, which begin in a state alone or above another state, and
/// end before one removes the lowest state.
#[derive(Clone, Copy)]
pub(crate) struct RelativeRun {
    /// The lower state, if there is one.
    pub below: Option<u32>,
    /// The state above the lower state, or a start state alone.
    pub state: u32,
    /// The next token, if there is one.
    pub token: Option<Token>,
}

/// The top of a stack.
fn top_of(stack: &[u32]) -> u32
    requires { 0 < length stack.now }
    ensures { result ≡ top stack.now }
{
    stack[stack.len() - 1]
}

/// The production that is reduced next, if the next move is a reduction.
pub(crate) fn next_reduction(table: &Table, stack: &[u32], look: Option<Token>) -> Option<u32>
    requires begun { 0 < length stack.now }
    requires known { All (λ s. s < length table.now.states) stack.now }
    requires look { IsLook table.now look }
    ensures { ReducesNext table.now (look_list look) stack.now result }
{
    table.facts();
    match choose(table, top_of(stack), look) {
        NextAction::Reduce(production) => Some(production),
        _ => None,
    }
}

/// The number of states that a reduction keeps, and the state that it pushes; `None` if the stack is too short or has
/// no goto.
fn stack_reduced(table: &Table, stack: &[u32], production: u32) -> Option<(usize, u32)>
    requires known { All (λ s. s < length table.now.states) stack.now }
    requires ordinary { length table.now.grammar.starts ≤ production }
    requires production { production < production_count table.now.grammar }
    ensures { StackReduced table.now production stack.now result }
{
    table.facts();
    let taken = table.length_of(production) as usize;
    if stack.len() <= taken {
        return None;
    }
    let kept = stack.len() - taken;
    match table.goto(stack[kept - 1], table.lhs_of(production)) {
        Some(target) => Some((kept, target)),
        None => None,
    }
}

/// Makes the next reduction and returns true, or returns false if there is none.
fn reduce_once(table: &Table, stack: &mut Vec<u32>, look: Option<Token>) -> Result<bool, AllocError>
    requires begun { 0 < length stack.old.items }
    requires known { All (λ s. s < length table.now.states) stack.old.items }
    requires look { IsLook table.now look }
    ensures ok { IfOk result (λ made. IsReduceOnceResult table.now (look_list look) stack.old.items stack.new.items made) }
    ensures begun { OnOk result (0 < length stack.new.items) }
    ensures known { OnOk result (All (λ s. s < length table.now.states) stack.new.items) }
{
    match next_reduction(table, stack, look) {
        None => Ok(false),
        Some(production) => match stack_reduced(table, stack, production) {
            None => Ok(false),
            Some((kept, target)) => {
                stack.truncate(kept);
                stack.push(target)?;
                Ok(true)
            }
        },
    }
}

/// Replaces the stack by that at the beginning of a relative run.
fn begin(
    table: &Table,
    stack: &mut Vec<u32>,
    below: Option<u32>,
    state: u32,
) -> Result<(), AllocError>
    requires below { ForSome below (λ r. r < length table.now.states) }
    requires state { state < length table.now.states }
    ensures stack { OnOk result (stack.new.items ≡ beginning below state) }
    ensures begun { OnOk result (0 < length stack.new.items) }
    ensures known { OnOk result (All (λ s. s < length table.now.states) stack.new.items) }
{
    stack.clear();
    if let Some(below) = below {
        stack.push(below)?;
    }
    stack.push(state)?;
    Ok(())
}

/// Makes the reductions of a relative run and returns their number, or `None` if there are more than `most`; `stack` is
/// then the resulting stack.
pub(crate) fn reduced_within(
    table: &Table,
    stack: &mut Vec<u32>,
    below: Option<u32>,
    state: u32,
    look: Option<Token>,
    most: u32,
) -> Result<Option<u32>, AllocError>
    requires look { IsLook table.now look }
    requires below { ForSome below (λ r. r < length table.now.states) }
    requires state { state < length table.now.states }
    requires most { most ≤ max_reductions }
    ensures value { IfOk result (λ count. IsReducedWithinResult table.now below state look most stack.new.items count) }
    ensures begun { OnOk result (0 < length stack.new.items) }
    ensures known { OnOk result (All (λ s. s < length table.now.states) stack.new.items) }
{
    begin(table, stack, below, state)?;
    'tries: for count in 0..most + 1 {
        if !reduce_once(table, stack, look)? {
            return Ok(Some(count));
        }
    }
    Ok(None)
}

/// True if the relative run makes more than `MAX_REDUCTIONS` reductions; otherwise `stack` is the resulting stack.
fn loops(
    table: &Table,
    stack: &mut Vec<u32>,
    below: Option<u32>,
    state: u32,
    look: Option<Token>,
) -> Result<bool, AllocError>
    requires look { IsLook table.now look }
    requires below { ForSome below (λ r. r < length table.now.states) }
    requires state { state < length table.now.states }
    ensures loops { IfOk result (λ found. LoopsOrNot table.now below state look found) }
    ensures tried { IfOk result (λ found. LoopsOrStops table.now below state look stack.new.items found) }
    ensures begun { OnOk result (0 < length stack.new.items) }
    ensures known { OnOk result (All (λ s. s < length table.now.states) stack.new.items) }
{
    let stopped = reduced_within(table, stack, below, state, look, MAX_REDUCTIONS)?;
    Ok(stopped.is_none())
}

/// True if the relative run makes more than `MAX_REDUCTIONS` reductions with this token, given that without a token it
/// stops in `top`, which has no default. If the cell is not a reduction, the run ends there.
fn loops_on(
    table: &Table,
    stack: &mut Vec<u32>,
    below: Option<u32>,
    state: u32,
    top: u32,
    token: Token,
) -> Result<bool, AllocError>
    requires token { token < table.now.grammar.tokens }
    requires below { ForSome below (λ r. r < length table.now.states) }
    requires state { state < length table.now.states }
    requires top { top < length table.now.states }
    requires no_default { StopsWithoutDefault table.now below state top }
    ensures { IfOk result (λ found. LoopsOrNot table.now below state (Some token) found) }
{
    match table.action(top, token) {
        Action::Reduce(_) => loops(table, stack, below, state, Some(token)),
        Action::Shift(_) | Action::Refuse => Ok(false),
    }
}

/// The first token with which the relative run makes more than `MAX_REDUCTIONS` reductions, given that without a token
/// it stops in `top`, which has no default.
fn first_token(
    table: &Table,
    stack: &mut Vec<u32>,
    below: Option<u32>,
    state: u32,
    top: u32,
) -> Result<Option<Token>, AllocError>
    requires below { ForSome below (λ r. r < length table.now.states) }
    requires state { state < length table.now.states }
    requires top { top < length table.now.states }
    requires no_default { StopsWithoutDefault table.now below state top }
    ensures { IfOk result (λ found. TokenFound table.now below state found) }
{
    'tokens: for token in 0..table.tokens() {
        if loops_on(table, stack, below, state, top, token)? {
            return Ok(Some(token));
        }
    }
    Ok(None)
}

/// The first look, in order, with which the relative run makes more than `MAX_REDUCTIONS` reductions. The reductions
/// without a token are made with every token too. If they stop in a state with a default, this state accepts, or its
/// reduction needs more states than there are; no token changes that.
fn first_look(
    table: &Table,
    stack: &mut Vec<u32>,
    below: Option<u32>,
    state: u32,
) -> Result<Option<Option<Token>>, AllocError>
    requires below { ForSome below (λ r. r < length table.now.states) }
    requires state { state < length table.now.states }
    ensures { IfOk result (λ found. LookFound table.now below state found) }
{
    if loops(table, stack, below, state, None)? {
        return Ok(Some(None));
    }
    let top = top_of(stack);
    match table.fallback(top) {
        Some(_) => Ok(None),
        None => match first_token(table, stack, below, state, top)? {
            Some(token) => Ok(Some(Some(token))),
            None => Ok(None),
        },
    }
}

/// The first relative run from a start state alone that makes more than `MAX_REDUCTIONS` reductions.
fn first_start(table: &Table, stack: &mut Vec<u32>) -> Result<Option<RelativeRun>, AllocError>
    ensures { IfOk result (λ found. StateFound table.now None found) }
{
    table.facts();
    'states: for state in 0..u32::from(table.starts()) {
        if let Some(token) = first_look(table, stack, None, state)? {
            return Ok(Some(RelativeRun {
                below: None,
                state,
                token,
            }));
        }
    }
    Ok(None)
}

/// Appends the target of an edge of state `from`, unless the bound of the edge's symbol shows that no relative run that
/// begins with the target above `from` makes more than `MAX_REDUCTIONS` reductions.
fn add_target(
    table: &Table,
    bounds: &[u32],
    from: u32,
    edge: &Edge,
    targets: &mut Vec<u32>,
) -> Result<(), AllocError>
    requires bounds { length bounds.now ≡ symbol_count table.now }
    requires settled { BoundsProveHalting table.now bounds.now }
    requires edge { edge_of table.now from edge.now.symbol ≡ Some edge.now.target }
    ensures { OnOk result (AddsTarget table.now from edge.now.target targets.old.items targets.new.items) }
{
    table.facts();
    if bounds[place_of(table, edge.symbol) as usize] <= MAX_BOUND {
        return Ok(());
    }
    targets.push(edge.target)?;
    Ok(())
}

/// The targets of edges of a state with which relative runs above the state have to be tried, in the order of states.
fn targets_of(
    alloc: Global,
    table: &Table,
    bounds: &[u32],
    from: u32,
) -> Result<Vec<u32>, AllocError>
    requires bounds { length bounds.now ≡ symbol_count table.now }
    requires settled { BoundsProveHalting table.now bounds.now }
    requires from { from < length table.now.states }
    ensures { IfOk result (λ targets. AreTargets table.now from targets.items) }
{
    table.facts();
    let mut targets = Vec::new(alloc);
    for edge in table.edges(from) {
        add_target(table, bounds, from, edge, &mut targets)?;
    }
    targets.sort_unstable();
    Ok(targets)
}

/// The first relative run above the state `below`, in one of the given targets, that makes more than `MAX_REDUCTIONS`
/// reductions.
fn first_among(
    table: &Table,
    stack: &mut Vec<u32>,
    below: u32,
    targets: &[u32],
) -> Result<Option<RelativeRun>, AllocError>
    requires below { below < length table.now.states }
    requires targets { AreTargets table.now below targets.now }
    ensures { IfOk result (λ found. StateFound table.now (Some below) found) }
{
    table.facts();
    'targets: for target in targets {
        if let Some(token) = first_look(table, stack, Some(below), *target)? {
            return Ok(Some(RelativeRun {
                below: Some(below),
                state: *target,
                token,
            }));
        }
    }
    Ok(None)
}

/// The first relative run above a state that makes more than `MAX_REDUCTIONS` reductions.
fn first_above(
    alloc: Global,
    table: &Table,
    stack: &mut Vec<u32>,
    bounds: &[u32],
    below: u32,
) -> Result<Option<RelativeRun>, AllocError>
    requires bounds { length bounds.now ≡ symbol_count table.now }
    requires settled { BoundsProveHalting table.now bounds.now }
    requires below { below < length table.now.states }
    ensures { IfOk result (λ found. StateFound table.now (Some below) found) }
{
    let targets = targets_of(alloc, table, bounds, below)?;
    first_among(table, stack, below, &targets)
}

/// The first relative run, in order, that makes more than `MAX_REDUCTIONS` reductions; bounds show which need not be
/// tried.
fn first_by(
    alloc: Global,
    table: &Table,
    stack: &mut Vec<u32>,
    bounds: &[u32],
) -> Result<Option<RelativeRun>, AllocError>
    requires bounds { length bounds.now ≡ symbol_count table.now }
    requires settled { BoundsProveHalting table.now bounds.now }
    ensures { IfOk result (λ found. IsTestResult table.now found) }
{
    table.facts();
    if let Some(found) = first_start(table, stack)? {
        return Ok(Some(found));
    }
    'lower: for below in 0..table.states() {
        if let Some(found) = first_above(alloc, table, stack, bounds, below)? {
            return Ok(Some(found));
        }
    }
    Ok(None)
}

/// The first relative run, in order, that makes more than `MAX_REDUCTIONS` reductions.
pub(crate) fn first_loop(alloc: Global, table: &Table) -> Result<Option<RelativeRun>, AllocError>
    ensures { IfOk result (λ found. IsTestResult table.now found) }
{
    let mut stack = Vec::new(alloc);
    let bounds = bounds_of(alloc, table, &mut stack)?;
    first_by(alloc, table, &mut stack, &bounds)
}
