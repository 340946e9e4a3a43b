//! The search for the first fault in several files.
ghost use Rattle.mh_rules.specs.Ready.{AreModulesReady};
ghost use Rattle.mh_join_names.specs.Faults.{ReportsFirst, faults_by};
ghost use Rattle.mh_join_names.specs.code.SymbolTables.{meanings_in};

use mh_join_faults::{check_duplicates, check_others, check_undefined};
use mh_join_names::{JoinFault, SymbolTables};
use mh_rules::Module;
use std::alloc::Global;

/// Reports the first fault in the files, if there is one, or that memory ran out.
pub fn check(alloc: Global, names: &SymbolTables, modules: &[Module]) -> Result<(), JoinFault>
    requires { AreModulesReady modules.now }
    ensures { ReportsFirst (faults_by (meanings_in names.now) modules.now) result }
{
    if let Err(fault) = check_undefined(alloc, names, modules) {
        return Err(fault);
    }
    if let Err(fault) = check_duplicates(alloc, names, modules) {
        return Err(fault);
    }
    check_others(names, modules)
}
