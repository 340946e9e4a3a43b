//! Whether a later definition or level agrees with the first one of its name.
ghost use Rattle.std.specs.Prelude.{◌≡◌};
ghost use Rattle.mh_join_names.specs.Faults as spec;

use mh_grammar::Level;
use mh_join_names::Outline;
use mh_rules::Rule;

/// Whether a definition has the `%inline` and the number of formals of its rule's first definition.
pub(crate) fn same_shape(first: &Outline, rule: &Rule) -> bool
    ensures { result ≡ spec.same_shape first.now rule.now }
{
    first.inlined == rule.inlined && first.formals == rule.formals.len() as u64
}

/// Whether two levels come from the same declaration.
pub(crate) fn same_level(first: &Level, level: Level) -> bool
    ensures { result ≡ spec.same_level first.now level }
{
    first.file == level.file && first.rank == level.rank
}
