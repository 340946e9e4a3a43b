//! Lists of empty rows, which the two searches fill.
ghost use Rattle.std.specs.Prelude.{◌≡◌, ℕ, [], IfOk, length};
ghost use Rattle.mh_facts.specs.code.Queues.{row_of};

use mh_grammar::Memory;
use std::alloc::Global;

/// Returns the given number of empty rows. Fails only if memory runs out.
pub fn empty_rows<X: Drop>(alloc: Global, places: u32) -> Result<Vec<Vec<X>>, Memory>
    ensures rows { IfOk result (λ rows. length rows.items ≡ places) }
    ensures none { IfOk result (λ rows. (n : ℕ) → row_of rows.items n ≡ []) }
{
    let mut rows = Vec::new(alloc);
    for _ in 0..places {
        rows.push(Vec::new(alloc))?;
    }
    Ok(rows)
}
