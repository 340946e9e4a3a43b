//! Joins several files into one list of rules.
ghost use Rattle.std.specs.Prelude.{◌≡◌, IfOk};
ghost use Rattle.mh_join_names.specs.Joining.{Joins};
ghost use Rattle.mh_join_names.specs.code.SymbolTables.{HasMeanings};
ghost use Rattle.mh_join_names.specs.Prelude as spec;
ghost use Rattle.mh_rules.specs.Ready.{AreModulesReady, IsJoinedReady};

use crate::checking::check;
use mh_join_names::{JoinFault, SymbolTables};
use mh_join_parts::{joined, names_of, prelude_rules};
use mh_rules::{Joined, Module, Rule};
use std::alloc::Global;

/// Joins files, as `join` does, if the tables of their names and the rules of the prelude are there already.
pub fn join_named(
    alloc: Global,
    names: &SymbolTables,
    modules: &[Module],
    prelude: bool,
    from_prelude: &[Rule],
) -> Result<Joined, JoinFault>
    requires named { HasMeanings prelude modules.now names.now }
    requires ready { AreModulesReady modules.now }
    requires from_prelude { from_prelude.now ≡ spec.prelude_rules prelude }
    ensures joins { Joins prelude modules.now result }
    ensures ready { IfOk result IsJoinedReady }
{
    match check(alloc, names, modules) {
        Ok(()) => match joined(alloc, names, modules, from_prelude) {
            Ok(joined) => Ok(joined),
            Err(_) => Err(JoinFault::Memory),
        },
        Err(fault) => Err(fault),
    }
}

/// Joins files with the given prelude.
fn join_with(
    alloc: Global,
    modules: &[Module],
    prelude: bool,
    from_prelude: &[Rule],
) -> Result<Joined, JoinFault>
    requires ready { AreModulesReady modules.now }
    requires from_prelude { from_prelude.now ≡ spec.prelude_rules prelude }
    ensures { Joins prelude modules.now result }
{
    match names_of(alloc, modules, prelude, from_prelude) {
        Ok(names) => join_named(alloc, &names, modules, prelude, from_prelude),
        Err(_) => Err(JoinFault::Memory),
    }
}

/// Joins the files of a grammar. The tokens of all files are shared and numbered in order of first declaration. A rule
/// is public if it is marked `%public`, or its name is a start symbol of any file, or another definition of its name in
/// the file is public. Public definitions of one name are joined to one rule; all other rules are private to their
/// files. A name in a file means a formal, else a token, else a private rule of the file, else a public rule, else a
/// rule of the prelude; a name in the prelude means a rule of the prelude. The rules come in the order of their first
/// definitions, those of the prelude last; the start symbols in order of first declaration. A private rule whose name
/// another file defines too is printed with `@` and the number of its file, and a rule of the prelude whose name a file
/// defines with `@0`. If `prelude` is false there is no prelude.
///
/// Returns the first fault, if there is one. The faults are searched in this order: undefined names and strings; names
/// and strings with two meanings; no start symbol; the token `error` in a rule; a `%prec` whose name is no token and
/// has no level; more than 512 tokens. Returns `Memory` only if memory runs out. The recursion over actuals is at most
/// `MAX_DEPTH` deep. (Menhir manual, grammars split into files, of which this project supports a
/// part.)
pub fn join(alloc: Global, modules: &[Module], prelude: bool) -> Result<Joined, JoinFault>
    requires { AreModulesReady modules.now }
    ensures joins { Joins prelude modules.now result }
    ensures ready { IfOk result IsJoinedReady }
{
    match prelude_rules(alloc, prelude) {
        Ok(from_prelude) => join_with(alloc, modules, prelude, from_prelude.as_slice()),
        Err(_) => Err(JoinFault::Memory),
    }
}
