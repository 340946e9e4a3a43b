//! Laws of the definition: joined rules have at most one expansion and at most one first fault.
ghost use Rattle.std.specs.Prelude.{◌≡◌};
ghost use Rattle.mh_expand.specs.Expansion.{IsExpanded, IsFirstFault};

use crate::fault::ExpandFault;
use mh_rules::{Expanded, Joined};

/// Law: two expansions of the same rules are equal, with equal numbers of instances and equal order of productions.
pub fn is_one_expansion(joined: &Joined, left: &Expanded, right: &Expanded)
    requires left { IsExpanded joined.now left.now }
    requires right { IsExpanded joined.now right.now }
    ensures { left.now ≡ right.now }
{
    let _joined = joined;
    let _left = left;
    let _right = right;
}

/// Law: two first faults of the same rules are equal.
pub fn is_one_fault(joined: &Joined, left: &ExpandFault, right: &ExpandFault)
    requires left { IsFirstFault joined.now left.now }
    requires right { IsFirstFault joined.now right.now }
    ensures { left.now ≡ right.now }
{
    let _joined = joined;
    let _left = left;
    let _right = right;
}
