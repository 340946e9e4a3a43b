//! The precedence levels of names.
ghost use Rattle.std.specs.Prelude.{◌≡◌, OnOk};
ghost use Rattle.std.specs.List.{flat_map, enumerate_from};
ghost use Rattle.std.specs.Map.{lookup};
ghost use Rattle.std.specs.HashMap.{get, IsEmpty};
ghost use Rattle.mh_join_names.specs.Names as spec;
ghost use Rattle.mh_grammar.specs.Text.{Text};
ghost use Rattle.mh_join_names.specs.Names.{same, with_level, levels_by, levels_in};
ghost use Rattle.mh_join_names.specs.code.Insertions.{InsertsNew};

use mh_grammar::{Level, Memory};
use mh_join_names::{Aliases, Levels, name_by, put_first};
use mh_rules::{LevelDecl, Module, Ref};

fn add_level(
    levels: &mut Levels,
    aliases: &Aliases,
    level: Level,
    reference: &Ref,
) -> Result<(), Memory>
    ensures { OnOk result (InsertsNew levels.old
        (with_level level (spec.name_by (λ a. get same aliases.now a) reference.now)) levels.new) }
{
    if let Some(name) = name_by(aliases, reference) {
        put_first(levels, name, level)?;
    }
    Ok(())
}

fn add_declaration(
    levels: &mut Levels,
    aliases: &Aliases,
    file: u64,
    rank: u64,
    declared: &LevelDecl,
) -> Result<(), Memory>
    ensures { OnOk result
        (InsertsNew levels.old (levels_by (λ a. get same aliases.now a) file (rank, declared.now)) levels.new) }
{
    let assoc = declared.assoc;
    let level = Level { file, rank, assoc };
    for reference in declared.names.as_slice() {
        add_level(levels, aliases, level, reference)?;
    }
    Ok(())
}

fn add_declarations(
    levels: &mut Levels,
    aliases: &Aliases,
    file: u64,
    declared: &[LevelDecl],
) -> Result<(), Memory>
    ensures { OnOk result (InsertsNew levels.old
        (flat_map (levels_by (λ a. get same aliases.now a) file) (enumerate_from 0 declared.now))
        levels.new) }
{
    for (rank, declaration) in declared.iter().enumerate() {
        add_declaration(levels, aliases, file, rank as u64, declaration)?;
    }
    Ok(())
}

pub(crate) fn put_levels(
    levels: &mut Levels,
    aliases: &Aliases,
    files: &[Module],
) -> Result<(), Memory>
    requires { IsEmpty levels.old }
    ensures { OnOk result ((x : Text) →
        get same levels.new x
        ≡ lookup (same x) (flat_map (levels_in (λ a. get same aliases.now a)) (spec.files files.now))) }
{
    for (at, file) in files.iter().enumerate() {
        add_declarations(levels, aliases, at as u64 + 1, file.levels.as_slice())?;
    }
    Ok(())
}
