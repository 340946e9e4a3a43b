//! The aliases of all files.
ghost use Rattle.std.specs.Prelude.{◌≡◌, OnOk};
ghost use Rattle.std.specs.List.{flat_map};
ghost use Rattle.std.specs.HashMap.{get, IsEmpty};
ghost use Rattle.mh_grammar.specs.Text.{Text};
ghost use Rattle.mh_join_names.specs.Names.{same, alias_of, aliased};
ghost use Rattle.mh_join_names.specs.code.Insertions.{InsertsNew};

use mh_grammar::Memory;
use mh_join_names::{Aliases, put_first};
use mh_rules::{Module, TokenDecl};

fn add_alias(aliases: &mut Aliases, token: &TokenDecl) -> Result<(), Memory>
    ensures { OnOk result (InsertsNew aliases.old (alias_of token.now) aliases.new) }
{
    if let Some(alias) = &token.alias {
        put_first(aliases, alias, token.name.clone()?)?;
    }
    Ok(())
}

fn add_aliases(aliases: &mut Aliases, tokens: &[TokenDecl]) -> Result<(), Memory>
    ensures { OnOk result (InsertsNew aliases.old (flat_map alias_of tokens.now) aliases.new) }
{
    for token in tokens {
        add_alias(aliases, token)?;
    }
    Ok(())
}

pub(crate) fn put_aliases(aliases: &mut Aliases, files: &[Module]) -> Result<(), Memory>
    requires { IsEmpty aliases.old }
    ensures { OnOk result ((a : Text) → get same aliases.new a ≡ aliased files.now a) }
{
    for file in files {
        add_aliases(aliases, file.tokens.as_slice())?;
    }
    Ok(())
}
