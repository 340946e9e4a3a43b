//! The printed names of rules.
ghost use Rattle.std.specs.Prelude.{◌≡◌, IfOk};
ghost use Rattle.mh_join_names.specs.Joining as spec;
ghost use Rattle.mh_join_names.specs.Joining.{printed_name};
ghost use Rattle.mh_join_names.specs.code.SymbolTables.{elsewhere_in};

use mh_grammar::{Memory, Name, from_bytes};
use mh_join_names::{Outline, SymbolTables};
use std::alloc::Global;

/// The name followed by `@` and the number of a file.
fn with_file(alloc: Global, name: &Name, file: u64) -> Result<Name, Memory>
    ensures { IfOk result (λ n. n ≡ spec.with_file name.now file) }
{
    let number = format!(in alloc; "{file}")?;
    let mut text = Vec::from_slice(alloc, name.as_slice())?;
    text.push(b'@')?;
    text.extend_from_slice(number.as_bytes())?;
    from_bytes(alloc, text.as_slice())
}

/// The printed name of a rule.
pub(crate) fn printed(
    alloc: Global,
    names: &SymbolTables,
    outline: &Outline,
) -> Result<Name, Memory>
    ensures { IfOk result (λ n. n ≡ printed_name (elsewhere_in names.now) outline.now.name outline.now.owner) }
{
    if let Some(file) = outline.owner {
        if names.is_elsewhere(file, &outline.name) {
            return with_file(alloc, &outline.name, file);
        }
    }
    Ok(outline.name.clone()?)
}
