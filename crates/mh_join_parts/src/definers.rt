//! The files that define the rules of each name.
ghost use Rattle.std.specs.Prelude.{◌≡◌, ◌==◌, ◌&&◌, ◌||◌, ℕ, not, OnOk};
ghost use Rattle.std.specs.List.{list_any};
ghost use Rattle.std.specs.HashMap.{get, IsEmpty};
ghost use Rattle.mh_grammar.specs.Text.{Text};
ghost use Rattle.mh_join_names.specs.Names.{same, is_elsewhere};
ghost use Rattle.mh_join_names.specs.code.DefiningFiles.{elsewhere_by, AddsDefiningFile};

use mh_grammar::{Memory, Name};
use mh_join_names::{DefiningFiles, DefiningFilesOf};
use mh_rules::{Module, Rule};

/// The given files and one more.
fn with_definer(others: Option<DefiningFiles>, file: u64) -> DefiningFiles
    ensures { (k : ℕ) → elsewhere_by (Some result) k ≡ (elsewhere_by others k || not (file == k)) }
{
    match others {
        None => DefiningFiles::One(file),
        Some(DefiningFiles::One(first)) => {
            if first == file {
                DefiningFiles::One(file)
            } else {
                DefiningFiles::Several
            }
        }
        Some(DefiningFiles::Several) => DefiningFiles::Several,
    }
}

/// Records that a file defines a rule of this name.
fn add_definer(definers: &mut DefiningFilesOf, file: u64, name: &Name) -> Result<(), Memory>
    ensures { OnOk result (AddsDefiningFile file (λ x. same x name.now) definers.old definers.new) }
{
    let more = with_definer(definers.get(name).copied(), file);
    definers.insert(name.clone()?, more)?;
    Ok(())
}

fn add_definers(definers: &mut DefiningFilesOf, file: u64, rules: &[Rule]) -> Result<(), Memory>
    ensures { OnOk result (AddsDefiningFile file (λ x. list_any (λ r. same x r.name) rules.now) definers.old definers.new) }
{
    for rule in rules {
        add_definer(definers, file, &rule.name)?;
    }
    Ok(())
}

pub(crate) fn put_definers(definers: &mut DefiningFilesOf, files: &[Module]) -> Result<(), Memory>
    requires { IsEmpty definers.old }
    ensures { OnOk result ((k : ℕ) (x : Text) → elsewhere_by (get same definers.new x) k ≡ is_elsewhere files.now k x) }
{
    for (at, file) in files.iter().enumerate() {
        add_definers(definers, at as u64 + 1, file.rules.as_slice())?;
    }
    Ok(())
}
