//! Makes the automaton of a grammar, or takes it from a table file, and makes its table and its conflicts.
ghost use Rattle.std.specs.Prelude.{◌≡◌, Err, IfOk};
ghost use Rattle.mh_grammar.specs.Costs.{HaveCosts};
ghost use Rattle.mh_grammar.specs.Plain.{plain_of};
ghost use Rattle.mh_items_kernels.specs.Automaton.{IsAutomaton};
ghost use Rattle.mh_top_prepare.specs.code.BuiltSource.{source_in};
ghost use Rattle.mh_top_prepare.specs.code.FaultStops.{IsValidated, IsStopForStatesFault};
ghost use Rattle.mh_top_prepare.specs.TableStage.{IsAutomatonStage, IsTableStage};
ghost use Rattle.mh_top_prepare.specs.TableTexts.{too_many_states as too_many_states_line};
ghost use Rattle.mh_top_prepare.specs.ResolvedStage.{IsResolvedStage};
ghost use Rattle.mh_top_drive.specs.StageResults.{Go, Halt};
ghost use Rattle.mh_top_drive.specs.code.StageCalls.{StageGives};
ghost use Rattle.mh_top_drive.specs.declared.stop.Cause.TheVariants.{Refused};
ghost use Rattle.mh_top_prepare.specs.declared.sources.AutomatonSource.TheVariants.{File};
ghost use Rattle.mh_top_prepare.specs.code.SourceFacts.{HasNumberedStates};
ghost use Rattle.mh_resolve_cells.specs.States.{IsTableOf};
ghost use Rattle.mh_resolve_cells.specs.Conflicts.{AreConflicts};
ghost use Rattle.mh_validate_valid.specs.Valid.{AreTokenNamesDistinct};
ghost use Rattle.mh_validate.specs.CanBeValidated.{CanBeValidated};
ghost use Rattle.mh_items.specs.Fitting.{FitsSets};

use crate::halting::{where_halting, with_table};
use crate::invalid_file::not_valid;
use crate::refusing::too_many_states;
use crate::sources::AutomatonSource;
use mh_canon::canonical;
use mh_grammar::Grammar;
use mh_items_kernels::{Automaton, StatesFault};
use mh_pager::merged;
use mh_resolve_cells::Mode;
use mh_tabfile_form::RawTable;
use mh_top_drive::{Stop, TabledAutomaton};
use mh_validate::{Valid, validate};
use std::alloc::Global;

/// The stop for an automaton that cannot be built: the refusal for too many states, or lack of memory.
fn no_automaton(alloc: Global, fault: StatesFault) -> Stop
    ensures { IsStopForStatesFault fault result }
{
    match fault {
        StatesFault::TooManyStates => too_many_states(alloc),
        StatesFault::Memory => Stop::OutOfMemory,
    }
}

/// Builds the automaton of a grammar in a mode: merged (Pager 1977), or canonical (Knuth 1965).
fn automaton_in<const W: usize>(
    alloc: Global,
    grammar: &Grammar,
    mode: Mode,
) -> Result<Automaton<W>, StatesFault>
    requires fits { FitsSets W grammar.now }
    ensures value { IfOk result (λ automaton. IsAutomatonStage (source_in mode) grammar.now (Go automaton)) }
    ensures exceeds { result ≡ Err StatesFault.TooManyStates → IsAutomatonStage (source_in mode) grammar.now (Halt (Refused too_many_states_line)) }
    ensures automaton { IfOk result (λ automaton. IsAutomaton (plain_of grammar.now) automaton) }
{
    match mode {
        Mode::Merged => merged(alloc, grammar),
        Mode::Canonical => canonical(alloc, grammar),
    }
}

/// Builds the automaton of a grammar in a mode, with its table.
fn built_table<const W: usize>(
    alloc: Global,
    grammar: &Grammar,
    mode: Mode,
) -> Result<TabledAutomaton<W>, Stop>
    requires fits { FitsSets W grammar.now }
    requires costs { HaveCosts grammar.now.tokens }
    ensures stage { StageGives (IsTableStage (source_in mode) grammar.now) result }
    ensures automaton { IfOk result (λ tabled. IsAutomaton (plain_of grammar.now) tabled.automaton) }
{
    match automaton_in(alloc, grammar, mode) {
        Ok(automaton) => with_table(alloc, grammar, automaton, mode),
        Err(fault) => Err(no_automaton(alloc, fault)),
    }
}

/// The automaton of a valid table file, with its table.
fn with_valid<const W: usize>(
    alloc: Global,
    grammar: &Grammar,
    valid: Valid<W>,
) -> Result<TabledAutomaton<W>, Stop>
    requires fits { FitsSets W grammar.now }
    requires table { IsTableOf grammar.now valid.automaton valid.mode valid.table }
    requires conflicts { AreConflicts grammar.now valid.automaton valid.conflicts.items }
    ensures { StageGives (IsResolvedStage valid.entry.mode grammar.now valid.entry.automaton) result }
{
    let Valid {
        automaton,
        table,
        conflicts,
        mode,
    } = valid;
    where_halting(alloc, grammar, automaton, table, conflicts, mode)
}

/// The automaton, table and conflicts of a table file that is valid for the grammar, or its refusal.
fn validated<const W: usize>(
    alloc: Global,
    grammar: &Grammar,
    name: &[u8],
    raw: &RawTable,
) -> Result<Valid<W>, Stop>
    requires fits { FitsSets W grammar.now }
    requires input { CanBeValidated grammar.now raw.now }
    ensures stage { IsValidated name.now raw.now grammar.now result }
    ensures automaton { IfOk result (λ valid. IsAutomaton (plain_of grammar.now) valid.automaton) }
{
    match validate(alloc, grammar, raw) {
        Ok(valid) => Ok(valid),
        Err(fault) => Err(not_valid(alloc, name, fault)),
    }
}

/// The automaton of a table file with its table, if the file is valid for the grammar. No automaton is built.
fn table_in<const W: usize>(
    alloc: Global,
    grammar: &Grammar,
    name: &[u8],
    raw: &RawTable,
) -> Result<TabledAutomaton<W>, Stop>
    requires fits { FitsSets W grammar.now }
    requires input { CanBeValidated grammar.now raw.now }
    ensures stage { StageGives (IsTableStage (File name.now raw.now) grammar.now) result }
    ensures automaton { IfOk result (λ tabled. IsAutomaton (plain_of grammar.now) tabled.automaton) }
{
    match validated(alloc, grammar, name, raw) {
        Ok(valid) => with_valid(alloc, grammar, valid),
        Err(stop) => Err(stop),
    }
}

/// The automaton from the given source with its table and its conflicts. The work stops if the automaton has too many
/// states or its file is not valid for the grammar, and then if some relative run on the table makes more than 10,000
/// reductions (`MAX_REDUCTIONS` of `mh_tables_core` defines relative runs).
pub(crate) fn table_of<const W: usize>(
    alloc: Global,
    source: &AutomatonSource,
    grammar: &Grammar,
) -> Result<TabledAutomaton<W>, Stop>
    requires fits { FitsSets W grammar.now }
    requires costs { HaveCosts grammar.now.tokens }
    requires distinct_names { AreTokenNamesDistinct grammar.now }
    requires numbered { HasNumberedStates source.now }
    ensures stage { StageGives (IsTableStage source.now grammar.now) result }
    ensures automaton { IfOk result (λ tabled. IsAutomaton (plain_of grammar.now) tabled.automaton) }
{
    match source {
        AutomatonSource::Merged => built_table(alloc, grammar, Mode::Merged),
        AutomatonSource::Canonical => built_table(alloc, grammar, Mode::Canonical),
        AutomatonSource::File { name, raw } => table_in(alloc, grammar, name.as_slice(), raw),
    }
}
