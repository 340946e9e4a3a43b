//! Builds the joined value of files without a fault.
ghost use Rattle.std.specs.Prelude.{◌≡◌, ◌≤◌, [], None, Some, length, map, IfOk, OnOk};
ghost use Rattle.std.specs.List.{flat_map};
ghost use Rattle.mh_join_names.specs.Faults.{undefined_start};
ghost use Rattle.mh_join_names.specs.Joining.{IsJoinedBy, on_error_in, token_info};
ghost use Rattle.mh_join_names.specs.Names.{files};
ghost use Rattle.mh_join_names.specs.code.SymbolTables.{meanings_in, elsewhere_in};
ghost use Rattle.mh_join_parts.specs.code.CanJoin.{CanJoin, definitions_by, unresolved_on_error};
ghost use Rattle.mh_rules.specs.Limits.{max_tokens};

use crate::building::{joined_rules, put_on_error, put_starts, put_tokens};
use mh_grammar::{Memory, Sequence, lost};
use mh_join_names::SymbolTables;
use mh_rules::{Joined, Module, Rule};
use std::alloc::Global;

/// Appends the tokens, the start symbols and the on-error declarations.
fn put_names(
    alloc: Global,
    names: &SymbolTables,
    modules: &[Module],
    joined: &mut Joined,
) -> Result<(), Memory>
    requires few { length names.now.tokens.keys ≤ max_tokens }
    requires starts { flat_map (undefined_start (meanings_in names.now)) (meanings_in names.now).starts ≡ [] }
    requires on_error { flat_map (unresolved_on_error (meanings_in names.now)) (files modules.now) ≡ [] }
    requires no_tokens { joined.old.tokens ≡ [] }
    requires no_starts { joined.old.starts ≡ [] }
    requires no_on_error { joined.old.on_error ≡ [] }
    ensures tokens { OnOk result
        (joined.new.tokens ≡ map (token_info (meanings_in names.now)) (meanings_in names.now).tokens) }
    ensures starts { OnOk result
        (map Some joined.new.starts
        ≡ map ((meanings_in names.now).numbers.rule None) (meanings_in names.now).starts) }
    ensures on_error { OnOk result
        (map Some joined.new.on_error
        ≡ flat_map (on_error_in (meanings_in names.now)) (files modules.now)) }
    ensures rules { joined.new.rules ≡ joined.old.rules }
{
    put_tokens(names, &mut joined.tokens)?;
    put_starts(names, &mut joined.starts)?;
    put_on_error(alloc, names, modules, &mut joined.on_error)?;
    Ok(())
}

/// The joined files, provided that they have no fault. Fails only if memory runs out.
pub fn joined(
    alloc: Global,
    names: &SymbolTables,
    modules: &[Module],
    from_prelude: &[Rule],
) -> Result<Joined, Memory>
    requires { CanJoin names.now modules.now from_prelude.now }
    ensures { IfOk result
        (IsJoinedBy (meanings_in names.now) (elsewhere_in names.now) names.now.numbering.rules.items
        (definitions_by names.now modules.now from_prelude.now) modules.now) }
{
    let rules = joined_rules(alloc, names, modules, from_prelude)?;
    let mut joined = Joined {
        tokens: Sequence::new(alloc),
        starts: Sequence::new(alloc),
        on_error: Sequence::new(alloc),
        rules,
    };
    match put_names(alloc, names, modules, &mut joined) {
        Ok(()) => Ok(joined),
        Err(_) => Err(lost(joined)),
    }
}
