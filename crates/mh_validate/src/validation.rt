//! Validates a table file for a grammar.
ghost use Rattle.std.specs.Prelude.{◌≡◌, ◌<◌, ◌^◌, ◌⊎◌, ◌↔◌, ℕ, [], Option, Some, Err, length, IfOk, IsTrue, OnOk, is_ok};
ghost use Rattle.mh_grammar.specs.Costs.{HaveCosts};
ghost use Rattle.mh_grammar.specs.Plain.{plain_of};
ghost use Rattle.mh_items.specs.Fitting.{FitsSets};
ghost use Rattle.mh_items.specs.code.ClosureBuilder.{IsClosureBuilder};
ghost use Rattle.mh_items_kernels.specs.Automaton.{IsAutomaton};
ghost use Rattle.mh_resolve_cells.specs.States.{IsTableOf};
ghost use Rattle.mh_resolve_cells.specs.Conflicts.{AreConflicts};
ghost use Rattle.mh_validate_valid.specs.declared.reason.Reason.{Reason as ReasonOf};
ghost use Rattle.mh_validate_valid.specs.Valid.{AreKernels, HasHeader, HasStates, IsInvalidAt, IsValid, IsValidFor, reason_of, raw_state};
ghost use Rattle.mh_tabfile_form.specs.TableContent.{raw_cells};
ghost use Rattle.mh_validate.specs.code.FirstRows.{AreFirstRows, AreRows, AreResolvedRows};
ghost use Rattle.mh_validate.specs.CanBeValidated.{CanBeValidated};
ghost use Rattle.mh_validate.specs.Outcome.{IsFault, IsOutcome};

use crate::fault::ValidFault;
use crate::kernels::first_kernels;
use crate::rows::first_rows;
use mh_grammar::{Edge, Grammar, Memory, Sequence};
use mh_items::ClosureBuilder;
use mh_items_kernels::{Automaton, Kernel};
use mh_resolve::{Resolution, resolve_one, resolve_states};
use mh_resolve_cells::{Conflict, Mode};
use mh_tabfile_form::RawTable;
use mh_tables_core::{StateParts, Table, table_of};
use mh_validate_valid::{Reason, cells_at, count_right, has_header, wrong_lines};
use std::alloc::Global;

/// The content of a valid table file: the automaton that the file names, its table and conflicts, and the mode.
#[derive(Drop)]
pub struct Valid<const W: usize> {
    pub automaton: Automaton<W>,
    pub table: Table,
    pub conflicts: Vec<Conflict>,
    pub mode: Mode,
}

/// A file, its kernels, and the edges of its first states.
#[derive(Clone, Copy)]
struct FileRows<'a, const W: usize> {
    raw: &'a RawTable,
    kernels: &'a [Kernel<W>],
    rows: &'a [Sequence<Edge>],
}

/// Appends the actions of the first states, as far as their edges are known.
fn fill_parts<const W: usize>(
    alloc: Global,
    grammar: &Grammar,
    closer: &mut ClosureBuilder<W>,
    stated: &FileRows<'_, W>,
    states: &mut Vec<StateParts>,
) -> Result<(), Memory>
    requires fits { FitsSets W grammar.now }
    requires closer { IsClosureBuilder (plain_of grammar.now) closer.old }
    requires kernels { AreKernels grammar.now stated.now.raw.now stated.now.kernels.now }
    requires rows { AreFirstRows grammar.now stated.now.raw.now stated.now.kernels.now stated.now.rows.now }
    requires fresh { states.old.items ≡ [] }
    ensures { OnOk result (AreResolvedRows grammar.now stated.now.raw.now stated.now.kernels.now stated.now.rows.now states.new.items) }
{
    let FileRows { raw, kernels, rows } = *stated;
    for state in 0..rows.len() {
        let edges = rows[state].as_slice();
        let parts = resolve_one(alloc, grammar, closer, &kernels[state], edges, raw.mode)?;
        states.push(parts)?;
    }
    Ok(())
}

/// Appends the actions of all states, with a closure builder of its own. The builder is dropped in one place, on
/// success and on failure.
fn close_rows<const W: usize>(
    alloc: Global,
    grammar: &Grammar,
    stated: &FileRows<'_, W>,
    states: &mut Vec<StateParts>,
) -> Result<(), Memory>
    requires fits { FitsSets W grammar.now }
    requires kernels { AreKernels grammar.now stated.now.raw.now stated.now.kernels.now }
    requires rows { AreFirstRows grammar.now stated.now.raw.now stated.now.kernels.now stated.now.rows.now }
    requires fresh { states.old.items ≡ [] }
    ensures { OnOk result (AreResolvedRows grammar.now stated.now.raw.now stated.now.kernels.now stated.now.rows.now states.new.items) }
{
    let mut closer = ClosureBuilder::new(alloc, grammar)?;
    let filled = fill_parts(alloc, grammar, &mut closer, stated, states);
    // The closure builder is dropped only here, because the proof that drops its many fields takes long.
    drop(closer);
    filled
}

/// The actions of the first states, as far as their edges are known.
fn resolve_rows<const W: usize>(
    alloc: Global,
    grammar: &Grammar,
    stated: &FileRows<'_, W>,
) -> Result<Vec<StateParts>, Memory>
    requires fits { FitsSets W grammar.now }
    requires kernels { AreKernels grammar.now stated.now.raw.now stated.now.kernels.now }
    requires rows { AreFirstRows grammar.now stated.now.raw.now stated.now.kernels.now stated.now.rows.now }
    ensures { IfOk result (λ v. AreResolvedRows grammar.now stated.now.raw.now stated.now.kernels.now stated.now.rows.now v.items) }
{
    let mut states = Vec::with_capacity(alloc, stated.rows.len())?;
    close_rows(alloc, grammar, stated, &mut states)?;
    Ok(states)
}

/// The fault of a file whose kernels are right: at the first state whose cells are wrong, else at the first state whose
/// edges are wrong.
fn fault_within<const W: usize>(
    alloc: Global,
    grammar: &Grammar,
    stated: &FileRows<'_, W>,
) -> ValidFault
    requires fits { FitsSets W grammar.now }
    requires header { HasHeader grammar.now stated.now.raw.now }
    requires states { HasStates grammar.now stated.now.raw.now }
    requires small { length stated.now.raw.now.states < 2 ^ 32 }
    requires kernels { AreKernels grammar.now stated.now.raw.now stated.now.kernels.now }
    requires rows { AreFirstRows grammar.now stated.now.raw.now stated.now.kernels.now stated.now.rows.now }
    requires short { length stated.now.rows.now < length stated.now.raw.now.states }
    ensures { IsFault grammar.now stated.now.raw.now result }
{
    let Ok(parts) = resolve_rows(alloc, grammar, stated) else {
        return ValidFault::Memory;
    };
    let right = count_right(grammar, stated.raw, parts.as_slice());
    if right < stated.rows.len() {
        return wrong_at(grammar, stated.raw, right, &parts[right]);
    }
    ValidFault::Invalid {
        state: Some(right as u32),
        reason: Reason::Edge,
    }
}

/// The fault of a state whose cells or default action are wrong.
fn wrong_at(grammar: &Grammar, raw: &RawTable, state: usize, parts: &StateParts) -> ValidFault
    requires state { state < length raw.now.states }
    requires small { length raw.now.states < 2 ^ 32 }
    ensures { result ≡ ValidFault.Invalid (Some state) (reason_of (raw_cells grammar.now parts.now) (raw_state raw.now state).cells) }
{
    ValidFault::Invalid {
        state: Some(state as u32),
        reason: wrong_lines(grammar, cells_at(raw, state), parts),
    }
}

/// Returns an automaton whose kernels and edges are right, with its table, if all cells and default actions are right
/// too.
fn with_table<const W: usize>(
    alloc: Global,
    grammar: &Grammar,
    raw: &RawTable,
    automaton: Automaton<W>,
) -> Result<Valid<W>, ValidFault>
    requires fits { FitsSets W grammar.now }
    requires costs { HaveCosts grammar.now.tokens }
    requires header { HasHeader grammar.now raw.now }
    requires states { HasStates grammar.now raw.now }
    requires small { length raw.now.states < 2 ^ 32 }
    requires kernels { AreKernels grammar.now raw.now automaton.kernels }
    requires rows { AreRows grammar.now raw.now automaton.kernels automaton.edges }
    ensures { IsOutcome grammar.now raw.now result }
{
    let Ok(found) = resolve_states(alloc, grammar, &automaton, raw.mode) else {
        return Err(ValidFault::Memory);
    };
    let Resolution { states, conflicts } = found;
    let right = count_right(grammar, raw, states.as_slice());
    if right < states.len() {
        return Err(wrong_at(grammar, raw, right, &states[right]));
    }
    let Ok(table) = table_of(alloc, grammar, states) else {
        return Err(ValidFault::Memory);
    };
    Ok(Valid {
        automaton,
        table,
        conflicts,
        mode: raw.mode,
    })
}

/// Validates a file whose header, number of states and kernels are right.
fn with_kernels<const W: usize>(
    alloc: Global,
    grammar: &Grammar,
    raw: &RawTable,
    kernels: Vec<Kernel<W>>,
) -> Result<Valid<W>, ValidFault>
    requires fits { FitsSets W grammar.now }
    requires costs { HaveCosts grammar.now.tokens }
    requires header { HasHeader grammar.now raw.now }
    requires states { HasStates grammar.now raw.now }
    requires small { length raw.now.states < 2 ^ 32 }
    requires kernels { AreKernels grammar.now raw.now kernels.items }
    ensures { IsOutcome grammar.now raw.now result }
{
    let Ok(rows) = first_rows(alloc, grammar, raw, kernels.as_slice()) else {
        return Err(ValidFault::Memory);
    };
    if rows.len() < raw.states.len() {
        let stated = FileRows {
            raw,
            kernels: kernels.as_slice(),
            rows: rows.as_slice(),
        };
        return Err(fault_within(alloc, grammar, &stated));
    }
    with_table(
        alloc,
        grammar,
        raw,
        Automaton {
            kernels: Sequence::from_vec(kernels),
            edges: Sequence::from_vec(rows),
        },
    )
}

/// Returns the result unchanged. The contract is that of `validate`, in one clause.
fn validation_of<const W: usize>(
    alloc: Global,
    grammar: &Grammar,
    raw: &RawTable,
) -> Result<Valid<W>, ValidFault>
    requires fits { FitsSets W grammar.now }
    requires input { CanBeValidated grammar.now raw.now }
    ensures { IsOutcome grammar.now raw.now result }
{
    if !has_header(grammar, raw) {
        return Err(ValidFault::Invalid {
            state: None,
            reason: Reason::Header,
        });
    }
    if raw.states.len() < grammar.starts.len() {
        return Err(ValidFault::Invalid {
            state: None,
            reason: Reason::States,
        });
    }
    let Ok(kernels) = first_kernels(alloc, grammar, raw) else {
        return Err(ValidFault::Memory);
    };
    let found = kernels.len();
    if found < raw.states.len() {
        return Err(ValidFault::Invalid {
            state: Some(found as u32),
            reason: Reason::Kernel,
        });
    }
    with_kernels(alloc, grammar, raw, kernels)
}

/// Validates a table file for a grammar. Returns the automaton of the file, its table and its conflicts if the file is
/// valid; else fails with the first failing test, or if memory runs out.
pub fn validate<const W: usize>(
    alloc: Global,
    grammar: &Grammar,
    raw: &RawTable,
) -> Result<Valid<W>, ValidFault>
    requires fits { FitsSets W grammar.now }
    requires input { CanBeValidated grammar.now raw.now }
    ensures exact { (result ≡ Err ValidFault.Memory) ⊎ (IsTrue (is_ok result) ↔ IsValid grammar.now raw.now) }
    ensures valid { IfOk result (λ v. IsValidFor grammar.now raw.now v.automaton v.table.states) }
    ensures automaton { IfOk result (λ v. IsAutomaton (plain_of grammar.now) v.automaton) }
    ensures table { IfOk result (λ v. IsTableOf grammar.now v.automaton raw.now.mode v.table) }
    ensures conflicts { IfOk result (λ v. AreConflicts grammar.now v.automaton v.conflicts.items) }
    ensures mode { IfOk result (λ v. v.mode ≡ raw.now.mode) }
    ensures invalid { (state : Option ℕ) (reason : ReasonOf) → result ≡ Err (ValidFault.Invalid state reason) → IsInvalidAt grammar.now raw.now state reason }
{
    validation_of(alloc, grammar, raw)
}
