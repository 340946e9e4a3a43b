//! The kind of each name at its first definition.
ghost use Rattle.std.specs.Prelude.{◌≡◌, ◌∷◌, [], OnOk};
ghost use Rattle.std.specs.List.{flat_map};
ghost use Rattle.std.specs.HashMap.{get, IsEmpty};
ghost use Rattle.mh_grammar.specs.Text.{Text};
ghost use Rattle.mh_join_names.specs.Names.{same};
ghost use Rattle.mh_join_names.specs.Faults.{kinds_in, kind_of};
ghost use Rattle.mh_join_names.specs.code.Insertions.{InsertsNew};

use mh_grammar::Memory;
use mh_join_names::{NameKind, NameKinds, put_first};
use mh_rules::{Module, Rule, TokenDecl};

fn add_token_kinds(kinds: &mut NameKinds, tokens: &[TokenDecl]) -> Result<(), Memory>
    ensures { OnOk result (InsertsNew kinds.old (flat_map (λ t. (t.name, NameKind.Token) ∷ []) tokens.now) kinds.new) }
{
    for token in tokens {
        put_first(kinds, &token.name, NameKind::Token)?;
    }
    Ok(())
}

fn add_rule_kinds(kinds: &mut NameKinds, rules: &[Rule]) -> Result<(), Memory>
    ensures { OnOk result (InsertsNew kinds.old (flat_map (λ r. (r.name, NameKind.Rule) ∷ []) rules.now) kinds.new) }
{
    for rule in rules {
        put_first(kinds, &rule.name, NameKind::Rule)?;
    }
    Ok(())
}

fn add_kinds(kinds: &mut NameKinds, file: &Module) -> Result<(), Memory>
    ensures { OnOk result (InsertsNew kinds.old (kinds_in file.now) kinds.new) }
{
    add_token_kinds(kinds, file.tokens.as_slice())?;
    add_rule_kinds(kinds, file.rules.as_slice())?;
    Ok(())
}

pub(crate) fn put_kinds(kinds: &mut NameKinds, files: &[Module]) -> Result<(), Memory>
    requires { IsEmpty kinds.old }
    ensures { OnOk result ((x : Text) → get same kinds.new x ≡ kind_of files.now x) }
{
    for file in files {
        add_kinds(kinds, file)?;
    }
    Ok(())
}
