//! Builds the tables of the names of several files.
ghost use Rattle.std.specs.Prelude.{◌≡◌, IfOk, OnOk};
ghost use Rattle.mh_join_names.specs.Prelude.{prelude_rules};
ghost use Rattle.mh_join_names.specs.code.SymbolTables.{HasMeanings};
ghost use Rattle.mh_join_parts.specs.code.EmptyTables.{HasNoNames};

use crate::aliases::put_aliases;
use crate::costs::put_costs;
use crate::definers::put_definers;
use crate::kinds::put_kinds;
use crate::levels::put_levels;
use crate::numbering::{no_rules, put_rules};
use crate::tokens::{put_starts, put_tokens};
use mh_grammar::{Memory, lost};
use mh_join_names::{NameList, SymbolTables};
use mh_rules::{Module, Rule};
use std::alloc::Global;
use std::collections::HashMap;

/// Tables without any names.
fn no_names(alloc: Global) -> SymbolTables
    ensures { HasNoNames result }
{
    SymbolTables {
        tokens: NameList::new(alloc),
        starts: NameList::new(alloc),
        aliases: HashMap::new(alloc),
        levels: HashMap::new(alloc),
        costs: HashMap::new(alloc),
        kinds: HashMap::new(alloc),
        definers: HashMap::new(alloc),
        numbering: no_rules(alloc),
    }
}

/// Fills the tables with the names of these files and of this prelude. The maps are filled in place: a value that a
/// function owns must be proved to be dropped at each of its early returns.
fn fill(
    names: &mut SymbolTables,
    alloc: Global,
    files: &[Module],
    prelude: bool,
    from_prelude: &[Rule],
) -> Result<(), Memory>
    requires empty { HasNoNames names.old }
    requires from_prelude { from_prelude.now ≡ prelude_rules prelude }
    ensures { OnOk result (HasMeanings prelude files.now names.new) }
{
    put_tokens(&mut names.tokens, files)?;
    put_starts(&mut names.starts, files)?;
    put_aliases(&mut names.aliases, files)?;
    put_levels(&mut names.levels, &names.aliases, files)?;
    put_costs(&mut names.costs, files)?;
    put_kinds(&mut names.kinds, files)?;
    put_definers(&mut names.definers, files)?;
    put_rules(
        &mut names.numbering,
        alloc,
        &names.starts,
        files,
        from_prelude,
    )?;
    Ok(())
}

/// The tables of the names of these files, with this prelude. Fails only if memory runs out.
pub fn names_of(
    alloc: Global,
    files: &[Module],
    prelude: bool,
    from_prelude: &[Rule],
) -> Result<SymbolTables, Memory>
    requires { from_prelude.now ≡ prelude_rules prelude }
    ensures { IfOk result (HasMeanings prelude files.now) }
{
    let mut names = no_names(alloc);
    match fill(&mut names, alloc, files, prelude, from_prelude) {
        Ok(()) => Ok(names),
        Err(_) => Err(lost(names)),
    }
}
