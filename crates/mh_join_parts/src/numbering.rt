//! Numbers the rules of all files and of the prelude, in order of their first definitions.
ghost use Rattle.std.specs.Prelude.{◌≡◌, ◌∷◌, [], ◌+◌, length, map, OnOk};
ghost use Rattle.std.specs.List.{All};
ghost use Rattle.std.specs.HashMap.{IsEmpty};
ghost use Rattle.std.specs.HashSet.{contains};
ghost use Rattle.mh_grammar.specs.Text.{Text};
ghost use Rattle.mh_join_names.specs.Names.{same, marks_public};
ghost use Rattle.mh_join_names.specs.code.Numbering.{outline_by, outline_in, outlines_of, IsNumbered, IsOwner, AddsNumber, InsertsRules};
ghost use Rattle.mh_join_parts.specs.code.EmptyTables.{HasNoRules};

use mh_grammar::{Memory, Name};
use mh_join_names::{NameList, Numbering, Outline, marked_public, owner_in, put_first};
use mh_rules::{Module, Rule};
use std::alloc::Global;
use std::collections::{HashMap, HashSet};

/// Appends `count` empty maps, and one more for the prelude.
fn put_maps(maps: &mut Vec<HashMap<Name, u64>>, alloc: Global, count: usize) -> Result<(), Memory>
    requires { maps.old.items ≡ [] }
    ensures len { OnOk result (length maps.new.items ≡ count + 1) }
    ensures empty { OnOk result (All IsEmpty maps.new.items) }
{
    for _at in 0..count {
        maps.push(HashMap::new(alloc))?;
    }
    maps.push(HashMap::new(alloc))?;
    Ok(())
}

/// A numbering without rules.
pub(crate) fn no_rules(alloc: Global) -> Numbering
    ensures { HasNoRules result }
{
    Numbering {
        public: HashMap::new(alloc),
        own: Vec::new(alloc),
        rules: Vec::new(alloc),
    }
}

fn rule_count(numbering: &Numbering) -> u64
    ensures { result ≡ length numbering.now.rules.items }
{
    numbering.rules.len() as u64
}

fn add_public(numbering: &mut Numbering, name: &Name, number: u64) -> Result<(), Memory>
    ensures { OnOk result (AddsNumber numbering.old None name.now number numbering.new) }
{
    put_first(&mut numbering.public, name, number)?;
    Ok(())
}

fn add_own(numbering: &mut Numbering, file: u64, name: &Name, number: u64) -> Result<(), Memory>
    requires { IsOwner numbering.old (Some file) }
    ensures { OnOk result (AddsNumber numbering.old (Some file) name.now number numbering.new) }
{
    put_first(&mut numbering.own[file as usize], name, number)?;
    Ok(())
}

/// Records the number of a rule.
fn add_number(
    numbering: &mut Numbering,
    owner: Option<u64>,
    name: &Name,
    number: u64,
) -> Result<(), Memory>
    requires { IsOwner numbering.old owner }
    ensures { OnOk result (AddsNumber numbering.old owner name.now number numbering.new) }
{
    match owner {
        None => add_public(numbering, name, number),
        Some(file) => add_own(numbering, file, name, number),
    }
}

/// Appends the outline of a definition, if its rule is new.
fn add_rule(numbering: &mut Numbering, owner: Option<u64>, rule: &Rule) -> Result<(), Memory>
    requires numbered { IsNumbered numbering.old }
    requires owner { IsOwner numbering.old owner }
    ensures { OnOk result (InsertsRules numbering.old numbering.new (outline_by owner rule.now ∷ [])) }
{
    if numbering.number_of(owner, &rule.name).is_none() {
        let number = rule_count(numbering);
        add_number(numbering, owner, &rule.name, number)?;
        numbering.rules.push(Outline {
            name: rule.name.clone()?,
            owner,
            inlined: rule.inlined,
            formals: rule.formals.len() as u64,
        })?;
    }
    Ok(())
}

/// Inserts the rules of a file in which `marked` are the names marked `%public`.
fn add_each(
    numbering: &mut Numbering,
    starts: &NameList,
    marked: &HashSet<Name>,
    file: u64,
    rules: &[Rule],
) -> Result<(), Memory>
    requires numbered { IsNumbered numbering.old }
    requires owner { IsOwner numbering.old (Some file) }
    requires marked { (x : Text) → contains same marked.now x ≡ marks_public rules.now x }
    ensures { OnOk result (InsertsRules numbering.old numbering.new (map (outline_in starts.now.keys file rules.now) rules.now)) }
{
    for rule in rules {
        add_rule(numbering, owner_in(starts, marked, file, &rule.name), rule)?;
    }
    Ok(())
}

/// Inserts the rules of a file.
fn add_rules(
    numbering: &mut Numbering,
    alloc: Global,
    starts: &NameList,
    file: u64,
    rules: &[Rule],
) -> Result<(), Memory>
    requires numbered { IsNumbered numbering.old }
    requires owner { IsOwner numbering.old (Some file) }
    ensures { OnOk result (InsertsRules numbering.old numbering.new (map (outline_in starts.now.keys file rules.now) rules.now)) }
{
    let marked = marked_public(alloc, rules)?;
    let added = add_each(numbering, starts, &marked, file, rules);
    drop(marked);
    added
}

/// Inserts the rules of the prelude as private rules of file 0, so that none of them is joined with a rule of a file.
fn add_prelude(numbering: &mut Numbering, rules: &[Rule]) -> Result<(), Memory>
    requires numbered { IsNumbered numbering.old }
    requires owner { IsOwner numbering.old (Some 0) }
    ensures { OnOk result (InsertsRules numbering.old numbering.new (map (outline_by (Some 0)) rules.now)) }
{
    for rule in rules {
        add_rule(numbering, Some(0), rule)?;
    }
    Ok(())
}

/// Inserts the rules of these files, and then those of the prelude.
pub(crate) fn put_rules(
    numbering: &mut Numbering,
    alloc: Global,
    starts: &NameList,
    files: &[Module],
    prelude: &[Rule],
) -> Result<(), Memory>
    requires { HasNoRules numbering.old }
    ensures numbered { OnOk result (IsNumbered numbering.new) }
    ensures rules { OnOk result (numbering.new.rules.items ≡ outlines_of starts.now.keys files.now prelude.now) }
{
    put_maps(&mut numbering.own, alloc, files.len())?;
    for (at, file) in files.iter().enumerate() {
        add_rules(
            numbering,
            alloc,
            starts,
            at as u64 + 1,
            file.rules.as_slice(),
        )?;
    }
    add_prelude(numbering, prelude)?;
    Ok(())
}
