//! Laws of the definition of joining. Each is the contract of an empty function.
ghost use Rattle.std.specs.Prelude.{◌≡◌, ◌≢◌, Err, Ok};
ghost use Rattle.mh_join_names.specs.Joining.{Joins};

use mh_join_names::JoinFault;
use mh_rules::{Joined, Module};

/// Law: two joined values of the same files are equal.
pub fn is_one_joined(prelude: bool, modules: &[Module], left: &Joined, right: &Joined)
    requires left { Joins prelude modules.now (Ok left.now) }
    requires right { Joins prelude modules.now (Ok right.now) }
    ensures { left.now ≡ right.now }
{
    let _prelude = prelude;
    let _modules = modules;
    let _left = left;
    let _right = right;
}

/// Law: if files can be joined, then the only fault that joining may report is that memory ran out.
pub fn joined_excludes_fault(prelude: bool, modules: &[Module], joined: &Joined, fault: &JoinFault)
    requires joined { Joins prelude modules.now (Ok joined.now) }
    requires fault { Joins prelude modules.now (Err fault.now) }
    ensures { fault.now ≡ JoinFault.Memory }
{
    let _prelude = prelude;
    let _modules = modules;
    let _joined = joined;
    let _fault = fault;
}

/// Law: two faults of the same files are equal, unless one of them reports that memory ran out.
pub fn is_one_fault(prelude: bool, modules: &[Module], left: &JoinFault, right: &JoinFault)
    requires left { Joins prelude modules.now (Err left.now) }
    requires right { Joins prelude modules.now (Err right.now) }
    ensures { left.now ≢ JoinFault.Memory → right.now ≢ JoinFault.Memory → left.now ≡ right.now }
{
    let _prelude = prelude;
    let _modules = modules;
    let _left = left;
    let _right = right;
}
