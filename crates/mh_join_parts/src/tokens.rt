//! The names of the tokens and of the start symbols of all files.
ghost use Rattle.std.specs.Prelude.{◌≡◌, [], map, OnOk};
ghost use Rattle.mh_join_names.specs.Names as spec;
ghost use Rattle.mh_join_names.specs.Names.{same, insert_all};

use mh_grammar::{Memory, Name};
use mh_join_names::NameList;
use mh_rules::{Module, TokenDecl};

fn add_tokens(names: &mut NameList, tokens: &[TokenDecl]) -> Result<(), Memory>
    ensures { OnOk result (names.new.keys ≡ insert_all same names.old.keys (map (λ t. t.name) tokens.now)) }
{
    for token in tokens {
        names.put(&token.name)?;
    }
    Ok(())
}

/// Inserts the names of the tokens, in order of first declaration.
pub(crate) fn put_tokens(names: &mut NameList, files: &[Module]) -> Result<(), Memory>
    requires { names.old.keys ≡ [] }
    ensures { OnOk result (names.new.keys ≡ spec.token_names files.now) }
{
    for file in files {
        add_tokens(names, file.tokens.as_slice())?;
    }
    Ok(())
}

fn add_names(names: &mut NameList, more: &[Name]) -> Result<(), Memory>
    ensures { OnOk result (names.new.keys ≡ insert_all same names.old.keys more.now) }
{
    for name in more {
        names.put(name)?;
    }
    Ok(())
}

/// Inserts the names of the start symbols, in order of first declaration.
pub(crate) fn put_starts(names: &mut NameList, files: &[Module]) -> Result<(), Memory>
    requires { names.old.keys ≡ [] }
    ensures { OnOk result (names.new.keys ≡ spec.start_names files.now) }
{
    for file in files {
        add_names(names, file.starts.as_slice())?;
    }
    Ok(())
}
