//! The warnings on conflicts.
ghost use Rattle.std.specs.Prelude.{◌≡◌, IfOk};
ghost use Rattle.mh_report.specs.Warnings.{warning_lines};

use mh_grammar::{Grammar, Memory};
use mh_report_notation::write_warning;
use mh_resolve_cells::Conflict;
use std::alloc::Global;

/// Returns one line for each conflict that precedence levels do not solve, in the order of the list. The tokens must be
/// those of the grammar. Fails only if memory runs out.
pub fn warning_text(
    alloc: Global,
    grammar: &Grammar,
    conflicts: &[Conflict],
) -> Result<Vec<u8>, Memory>
    ensures { IfOk result (λ text. text.items ≡ warning_lines grammar.now conflicts.now) }
{
    let mut text = Vec::new(alloc);
    for conflict in conflicts {
        write_warning(
            &mut text,
            grammar,
            conflict.state,
            conflict.look,
            conflict.kind,
        )?;
    }
    Ok(text)
}
