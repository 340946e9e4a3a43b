//! Compares names with bytes.
ghost use Rattle.std.specs.Prelude.{◌≡◌, ◌↔◌, IsTrue};

use mh_grammar::Name;

/// Returns true if the name consists of these bytes.
pub fn is_named(name: &Name, bytes: &[u8]) -> bool
    ensures { IsTrue result ↔ (name.now ≡ bytes.now) }
{
    name.as_slice() == bytes
}
