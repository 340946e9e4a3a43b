//! Aliases: the strings by which grammar files may write tokens.
ghost use Rattle.std.specs.Prelude.{◌≡◌};
ghost use Rattle.std.specs.Option.{option_copied};
ghost use Rattle.std.specs.HashMap.{get};
ghost use Rattle.mh_join_names.specs.Names as spec;
ghost use Rattle.mh_join_names.specs.Names.{same};

use mh_grammar::Name;
use mh_rules::Ref;
use std::collections::HashMap;

/// The name of the first token declared with each alias.
pub type Aliases = HashMap<Name, Name>;

/// The name that a reference means: a plain name itself, an alias the name of its token. `None` if no token has the
/// alias.
pub fn name_by<'a>(aliases: &'a Aliases, reference: &'a Ref) -> Option<&'a Name>
    ensures { option_copied result ≡ spec.name_by (λ a. get same aliases.now a) reference.now }
{
    match reference {
        Ref::Plain(name) => Some(name),
        Ref::Alias(alias) => aliases.get(alias),
    }
}
