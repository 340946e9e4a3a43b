//! The public rules of a file.
ghost use Rattle.std.specs.Prelude.{◌≡◌, ◌||◌, ◌&&◌, if◌then◌else◌, IfOk, OnOk};
ghost use Rattle.std.specs.List.{list_any};
ghost use Rattle.std.specs.HashSet.{contains};
ghost use Rattle.mh_grammar.specs.Text.{Text};
ghost use Rattle.mh_join_names.specs.Names.{same, marks_public};

use crate::maps::put_name;
use crate::name_list::NameList;
use mh_grammar::{Memory, Name};
use mh_rules::Rule;
use std::alloc::Global;
use std::collections::HashSet;

fn mark_public(marked: &mut HashSet<Name>, rule: &Rule) -> Result<(), Memory>
    ensures { OnOk result ((x : Text) →
        contains same marked.new x
        ≡ (contains same marked.old x || (rule.now.public && same x rule.now.name))) }
{
    if !rule.public {
        return Ok(());
    }
    put_name(marked, &rule.name)?;
    Ok(())
}

/// The names of the rules that are marked `%public` in a file. Fails only if memory runs out.
pub fn marked_public(alloc: Global, rules: &[Rule]) -> Result<HashSet<Name>, Memory>
    ensures { IfOk result (λ marked. (x : Text) → contains same marked x ≡ marks_public rules.now x) }
{
    let mut marked = HashSet::new(alloc);
    for rule in rules {
        mark_public(&mut marked, rule)?;
    }
    Ok(marked)
}

/// Whether the rules of this name are public in a file in which `marked` are the names marked `%public`: the name is
/// marked or is a start symbol.
pub fn is_public(starts: &NameList, marked: &HashSet<Name>, name: &Name) -> bool
    ensures { result ≡ (list_any (same name.now) starts.now.keys || contains same marked.now name.now) }
{
    starts.contains(name) || marked.contains(name)
}

/// The owner of the rules of this name in a file: `None` if they are public, else the file.
pub fn owner_in(starts: &NameList, marked: &HashSet<Name>, file: u64, name: &Name) -> Option<u64>
    ensures { result
        ≡ (if list_any (same name.now) starts.now.keys || contains same marked.now name.now then None else
        Some file) }
{
    if is_public(starts, marked, name) {
        None
    } else {
        Some(file)
    }
}
