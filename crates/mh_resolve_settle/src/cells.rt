//! The computation of one cell.
ghost use Rattle.std.specs.Prelude.{◌≡◌};
ghost use Rattle.mh_resolve_cells.specs.Precedence.{comparison_on};
ghost use Rattle.mh_resolve_cells.specs.code.Tallies.{lower_production, empty_tally, is_another_production, tally_with, comparison_with_shift, cell_from};

use crate::levels::compare_on;
use mh_grammar::{Grammar, Look};
use mh_resolve_cells::{Cell, Comparison, ConflictKind, Tally};
use mh_tables_core::Action;

/// The tally of no reductions.
pub fn new_tally() -> Tally
    ensures { result ≡ empty_tally }
{
    Tally {
        lowest: None,
        some: false,
        two: false,
        shifts: true,
        unknown: false,
    }
}

/// The lower of a production and the lowest one so far.
fn lower_of(lowest: Option<u32>, production: u32) -> u32
    ensures { result ≡ lower_production lowest production }
{
    match lowest {
        None => production,
        Some(lowest) => {
            if production < lowest {
                production
            } else {
                lowest
            }
        }
    }
}

/// True if there is a lowest production and it is not this one.
fn is_another(lowest: Option<u32>, production: u32) -> bool
    ensures { result ≡ is_another_production lowest production }
{
    match lowest {
        None => false,
        Some(lowest) => production < lowest || lowest < production,
    }
}

/// The tally with one more reduction, which has this comparison with the shift.
fn count(tally: Tally, production: u32, comparison: Comparison) -> Tally
    ensures { result ≡ tally_with tally production comparison }
{
    let tally = Tally {
        some: true,
        ..tally
    };
    match comparison {
        Comparison::Reduces => Tally {
            lowest: Some(lower_of(tally.lowest, production)),
            two: is_another(tally.lowest, production) || tally.two,
            shifts: false,
            ..tally
        },
        Comparison::Shifts => tally,
        Comparison::Neither => Tally {
            shifts: false,
            ..tally
        },
        Comparison::Unknown => Tally {
            unknown: true,
            ..tally
        },
    }
}

/// The comparison of a reduction with the shift on a look; without a shift the reduction remains.
fn weigh(grammar: &Grammar, look: Look, shift: Option<u32>, production: u32) -> Comparison
    ensures { result ≡ comparison_with_shift (comparison_on grammar.now look) shift production }
{
    match shift {
        None => Comparison::Reduces,
        Some(_) => compare_on(grammar, look, production),
    }
}

/// The tally with one more reduction on a look; `shift` is the state's shift on this look, if the state has one.
pub fn add_reduction(
    tally: Tally,
    grammar: &Grammar,
    look: Look,
    shift: Option<u32>,
    production: u32,
) -> Tally
    ensures { result ≡ tally_with tally production (comparison_with_shift (comparison_on grammar.now look) shift production) }
{
    count(tally, production, weigh(grammar, look, shift, production))
}

/// The cell of a tally and a shift.
pub fn cell_of(tally: Tally, shift: Option<u32>) -> Cell
    ensures { result ≡ cell_from tally shift }
{
    let action = match (tally.lowest, shift) {
        (Some(production), _) => Action::Reduce(production),
        (None, Some(target)) => {
            if tally.shifts {
                Action::Shift(target)
            } else {
                Action::Refuse
            }
        }
        (None, None) => Action::Refuse,
    };
    let kind = if tally.two || tally.unknown {
        Some(ConflictKind::Unsolved)
    } else if tally.some && shift.is_some() {
        Some(ConflictKind::Solved)
    } else {
        None
    };
    Cell {
        action,
        raw: tally.some || shift.is_some(),
        kind,
    }
}
