//! The last uses of inline instances.
ghost use Rattle.std.specs.Prelude.{◌≡◌, ◌<◌, length, IfOk, OnOk};
ghost use Rattle.std.specs.List.{All, Contains};
ghost use Rattle.mh_inline_unfold.specs.code.UsedInstances.{UsesInline};
ghost use Rattle.mh_inline.specs.code.LastUses.{AreLastUses, DropsUnneeded, NoninlineUses, RaisesLastUse};

use mh_grammar::{Memory, Sequence};
use mh_inline_unfold::{Unfolding, inlined_in, is_inline};
use mh_rules::Expanded;
use std::alloc::Global;

/// Raises the last use of these instances to this position, if it is smaller.
fn put_off(last: &mut Vec<usize>, numbers: &[usize], place: usize)
    requires { All (λ m. m < length last.old.items) numbers.now }
    ensures { RaisesLastUse (Contains numbers.now) place last.old.items last.new.items }
{
    for number in numbers {
        last[*number] = last[*number].max(place);
    }
}

/// Raises the last use of the inline instances that an instance uses.
fn put_off_inlined(
    alloc: Global,
    expanded: &Expanded,
    number: usize,
    place: usize,
    last: &mut Vec<usize>,
) -> Result<(), Memory>
    requires number { number < length expanded.now.instances }
    requires last { length last.old.items ≡ length expanded.now.instances }
    ensures { OnOk result (RaisesLastUse (UsesInline expanded.now.instances number) place last.old.items last.new.items) }
{
    let numbers = inlined_in(alloc, expanded, number)?;
    put_off(last, numbers.as_slice(), place);
    Ok(())
}

/// Raises the last use of the inline instances that an instance that is not inline uses; for an inline instance it
/// changes nothing.
fn put_off_kept(
    alloc: Global,
    expanded: &Expanded,
    number: usize,
    place: usize,
    last: &mut Vec<usize>,
) -> Result<(), Memory>
    requires number { number < length expanded.now.instances }
    requires last { length last.old.items ≡ length expanded.now.instances }
    ensures { OnOk result (RaisesLastUse (NoninlineUses expanded.now.instances number) place last.old.items last.new.items) }
{
    if is_inline(expanded, number) {
        return Ok(());
    }
    put_off_inlined(alloc, expanded, number, place, last)
}

/// For each instance, the last position of the order at which an inline instance uses it, or the length of the order if
/// an instance that is not inline uses it.
pub(crate) fn last_uses(
    alloc: Global,
    expanded: &Expanded,
    order: &[u32],
) -> Result<Vec<usize>, Memory>
    requires { All (λ n. n < length expanded.now.instances) order.now }
    ensures { IfOk result (λ last. AreLastUses expanded.now.instances order.now last.items) }
{
    let mut last = vec![in alloc; 0; expanded.instances.len()]?;
    for (place, number) in order.iter().enumerate() {
        put_off_inlined(alloc, expanded, *number as usize, place, &mut last)?;
    }
    for number in 0..expanded.instances.len() {
        put_off_kept(alloc, expanded, number, order.len(), &mut last)?;
    }
    Ok(last)
}

/// Drops the unfoldings of each of these instances that is not used after this position.
fn forget(
    alloc: Global,
    known: &mut Vec<Sequence<Unfolding>>,
    last: &[usize],
    numbers: &[usize],
    place: usize,
)
    requires known { All (λ m. m < length known.old.items) numbers.now }
    requires last { length last.now ≡ length known.old.items }
    ensures { DropsUnneeded last.now place known.old.items known.new.items }
{
    for number in numbers {
        if last[*number] <= place {
            known[*number] = Sequence::new(alloc);
        }
    }
}

/// Drops the unfoldings of those inline instances used by this instance that are not used after this position.
pub(crate) fn forget_inlined(
    alloc: Global,
    expanded: &Expanded,
    last: &[usize],
    known: &mut Vec<Sequence<Unfolding>>,
    number: usize,
    place: usize,
) -> Result<(), Memory>
    requires number { number < length expanded.now.instances }
    requires known { length known.old.items ≡ length expanded.now.instances }
    requires last { length last.now ≡ length expanded.now.instances }
    ensures { OnOk result (DropsUnneeded last.now place known.old.items known.new.items) }
{
    let numbers = inlined_in(alloc, expanded, number)?;
    forget(alloc, known, last, numbers.as_slice(), place);
    Ok(())
}
