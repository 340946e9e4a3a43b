//! The productions of a table by their left sides.
ghost use Rattle.std.specs.Prelude.{◌≡◌, ◌<◌, IfOk, length};
ghost use Rattle.mh_facts.specs.code.ByLeftSide.{IsByLeftSide, IsByLeftSideBelow, productions_at};

use mh_grammar::Memory;
use mh_tables_core::Table;
use std::alloc::Global;

/// The numbers of the ordinary productions, by their left sides.
#[derive(Drop)]
pub struct ByLeftSide {
    pub rows: Vec<Vec<u32>>,
}

/// Returns an empty row for each nonterminal.
fn empty_rows(alloc: Global, table: &Table) -> Result<ByLeftSide, Memory>
    ensures { IfOk result (IsByLeftSideBelow table.now (length table.now.grammar.starts)) }
{
    let mut rows = Vec::new(alloc);
    for _ in 0..table.nonterminals() {
        rows.push(Vec::new(alloc))?;
    }
    Ok(ByLeftSide { rows })
}

/// Files the ordinary productions of a table by their left sides. Fails only if memory runs out.
pub fn by_left_side(alloc: Global, table: &Table) -> Result<ByLeftSide, Memory>
    ensures { IfOk result (IsByLeftSide table.now) }
{
    table.facts();
    let mut left = empty_rows(alloc, table)?;
    for production in table.starts() as u32..table.productions() {
        left.rows[table.lhs_of(production) as usize].push(production)?;
    }
    Ok(left)
}

/// Returns the numbers of a nonterminal's productions.
pub fn productions_of(left: &ByLeftSide, nonterminal: u16) -> &[u32]
    requires { nonterminal < length left.now.rows.items }
    ensures { result.now ≡ productions_at left.now nonterminal }
{
    left.rows[nonterminal as usize].as_slice()
}
