//! Tests for inline producers.
ghost use Rattle.std.specs.Prelude.{◌≡◌};
ghost use Rattle.mh_inline_unfold.specs.Instances.{inline_number, is_inlined};

use mh_rules::{Expanded, Part};

/// Whether an instance is inline.
pub fn is_inline(expanded: &Expanded, number: usize) -> bool
    ensures { result ≡ is_inlined expanded.now.instances number }
{
    match expanded.instances.get(number) {
        Some(instance) => instance.inlined,
        None => false,
    }
}

/// The number of the instance of a producer, if the producer is inline.
pub fn inline_part(expanded: &Expanded, part: Part) -> Option<usize>
    ensures { result ≡ inline_number expanded.now.instances part }
{
    match part {
        Part::Token(_) => None,
        Part::Instance(number) => inline_instance(expanded, number as usize),
    }
}

fn inline_instance(expanded: &Expanded, number: usize) -> Option<usize>
    ensures { result ≡ inline_number expanded.now.instances (Part.Instance number) }
{
    if is_inline(expanded, number) {
        Some(number)
    } else {
        None
    }
}
