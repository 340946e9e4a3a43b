//! Tables that were worked out by hand, and whether every run on them ends.
use crate::table_cases::check_cases;
use mh_grammar::Grammar;
use mh_resolve_cells::Mode;
use mh_tables::check_halts;
use mh_worked_grammars::resolved;
use std::alloc::Global;
use std::fmt::Write;
use std::test::Fail;

/// Appends the number of states of a table if every run on the table ends, else the run that loops.
pub fn put_halting(alloc: Global, text: &mut String, grammar: &Grammar) -> Result<(), Fail> {
    let (table, conflicts) = resolved(alloc, grammar, Mode::Canonical)?;
    drop(conflicts);
    match check_halts(alloc, table) {
        Ok(halting) => {
            let _ = write!(text, "{} states", halting.table().states());
            drop(halting);
        }
        Err(fault) => {
            let _ = write!(text, "{fault:?}");
        }
    }
    Ok(())
}

/// In the second grammar, on A an empty `b` is reduced again and again, before each `s` that begins with `b`.
const TABLES: &str = "A EOF; s; s: A EOF
counts = 4 states, 2 tokens, 1 starts, 2 productions
cell 1 1 = Shift(3)
cell 1 0 = Refuse
default 0 = None
default 2 = Some(Accept)
default 3 = Some(Reduce(1))
goto 0 0 = Some(2)
goto 1 0 = None
left 1 = 0
right 0 = N(0)
right 1 = T(0), T(1)
halting = 4 states

A; s b c; s: b s A; s: c; b:; c:
halting = Loops { below: None, state: 0, token: Some(0) }";

#[test]
fn tables(rt: HostRuntime) -> Result<(), Fail> {
    check_cases(rt.alloc(), TABLES)
}
