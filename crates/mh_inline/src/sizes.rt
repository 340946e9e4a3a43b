//! Computes the number of unfoldings and their greatest length without making them, because there may be exponentially
//! many.
ghost use Rattle.std.specs.Prelude.{◌≡◌, ◌+◌, ◌*◌, ◌<◌, ◌↔◌, [], ◌∷◌, false, min, length, IfOk, OnOk, OnSome, IsTrue, MatchOption};
ghost use Rattle.std.specs.List.{All};
ghost use Rattle.mh_rules.specs.Ready.{IsExpandedReady};
ghost use Rattle.mh_inline_unfold.specs.code.Sizes.{AreEachSized, IsSizeFixedPoint, AreSized, AreSizes, HasUnsizedProducer, HasUnsizedAlternative, IsEachSize, IsPartSize, IsFixedAt, IsSideSize, IsSizeTable, unsized_count};
ghost use Rattle.mh_inline_unfold.specs.Limits.{max_productions, max_symbols};

use mh_grammar::Memory;
use mh_inline_unfold::{
    MAX_PRODUCTIONS, MAX_SYMBOLS, Size, SizeTable, inline_part, is_inline, plus,
};
use mh_rules::{Expanded, InstanceProduction, Part};
use std::alloc::Global;

fn times(left: Size, right: Size) -> Size
    ensures count { result.count ≡ min (left.count * right.count) (max_productions + 1) }
    ensures longest { result.longest ≡ min (left.longest + right.longest) (max_symbols + 1) }
{
    Size {
        count: left
            .count
            .saturating_mul(right.count)
            .min(MAX_PRODUCTIONS + 1),
        longest: left
            .longest
            .saturating_add(right.longest)
            .min(MAX_SYMBOLS + 1),
    }
}

fn size_of_part(expanded: &Expanded, sizes: &[Option<Size>], part: Part) -> Option<Size>
    requires { AreSizes expanded.now.instances sizes.now }
    ensures size { MatchOption result (HasUnsizedProducer expanded.now.instances sizes.now (part ∷ [])) (IsPartSize expanded.now.instances part) }
    ensures sized { OnSome result (AreSized expanded.now.instances sizes.now (part ∷ [])) }
{
    match inline_part(expanded, part) {
        Some(number) => sizes[number],
        None => Some(Size {
            count: 1,
            longest: 1,
        }),
    }
}

/// The size of a list of producers, if each inline producer in the list has a size.
pub(crate) fn size_of_side(
    expanded: &Expanded,
    sizes: &[Option<Size>],
    producers: &[Part],
) -> Option<Size>
    requires { AreSizes expanded.now.instances sizes.now }
    ensures size { MatchOption result (HasUnsizedProducer expanded.now.instances sizes.now producers.now) (IsSideSize expanded.now.instances producers.now) }
    ensures sized { OnSome result (AreSized expanded.now.instances sizes.now producers.now) }
{
    let mut size = Size {
        count: 1,
        longest: 0,
    };
    for part in producers {
        let Some(next) = size_of_part(expanded, sizes, *part) else {
            return None;
        };
        size = times(size, next);
    }
    Some(size)
}

fn size_of_alternatives(
    expanded: &Expanded,
    sizes: &[Option<Size>],
    productions: &[InstanceProduction],
) -> Option<Size>
    requires { AreSizes expanded.now.instances sizes.now }
    ensures size { MatchOption result (HasUnsizedAlternative expanded.now.instances sizes.now productions.now) (IsEachSize expanded.now.instances productions.now) }
    ensures sized { OnSome result (AreEachSized expanded.now.instances sizes.now productions.now) }
{
    let mut size = Size {
        count: 0,
        longest: 0,
    };
    for production in productions {
        let Some(next) = size_of_side(expanded, sizes, production.rhs.as_slice()) else {
            return None;
        };
        size = plus(size, next);
    }
    Some(size)
}

/// Computes the size of an inline instance, if the instance has no size yet and all inline instances that it uses have
/// sizes. Returns true if it does so.
fn size_one(expanded: &Expanded, sizing: &mut SizeTable, number: usize) -> Result<bool, Memory>
    requires ready { IsExpandedReady expanded.now }
    requires sizing { IsSizeTable expanded.now.instances sizing.old }
    requires number { number < length expanded.now.instances }
    ensures sizing { OnOk result (IsSizeTable expanded.now.instances sizing.new) }
    ensures more { IfOk result (λ changed. IsTrue changed → unsized_count sizing.new < unsized_count sizing.old) }
    ensures same { IfOk result (λ changed. changed ≡ false → (sizing.new ≡ sizing.old) × IsFixedAt expanded.now.instances sizing.old.sizes.items number) }
{
    if !is_inline(expanded, number) || sizing.sizes[number].is_some() {
        return Ok(false);
    }
    let productions = expanded.instances[number].productions.as_slice();
    let Some(size) = size_of_alternatives(expanded, sizing.sizes.as_slice(), productions) else {
        return Ok(false);
    };
    sizing.order.push(number as u32)?;
    sizing.sizes[number] = Some(size);
    Ok(true)
}

/// Makes one pass over the instances, beginning with the last, because the instances that an instance uses usually have
/// larger numbers. Returns true if a size was computed.
fn size_once(expanded: &Expanded, sizing: &mut SizeTable) -> Result<bool, Memory>
    requires ready { IsExpandedReady expanded.now }
    requires sizing { IsSizeTable expanded.now.instances sizing.old }
    ensures sizing { OnOk result (IsSizeTable expanded.now.instances sizing.new) }
    ensures more { IfOk result (λ changed. IsTrue changed → unsized_count sizing.new < unsized_count sizing.old) }
    ensures same { IfOk result (λ changed. changed ≡ false → (sizing.new ≡ sizing.old) × IsSizeFixedPoint expanded.now.instances sizing.new.sizes.items) }
{
    let count = expanded.instances.len();
    let mut changed = false;
    for done in 0..count {
        changed |= size_one(expanded, sizing, count - 1 - done)?;
    }
    Ok(changed)
}

/// Goes through the instances in this order, and computes the size of each inline instance without a size if all inline
/// instances that it uses have sizes.
fn size_in_order(expanded: &Expanded, sizing: &mut SizeTable, order: &[usize]) -> Result<(), Memory>
    requires ready { IsExpandedReady expanded.now }
    requires sizing { IsSizeTable expanded.now.instances sizing.old }
    requires order { All (λ n. n < length expanded.now.instances) order.now }
    ensures { OnOk result (IsSizeTable expanded.now.instances sizing.new) }
{
    for number in order {
        size_one(expanded, sizing, *number)?;
    }
    Ok(())
}

/// Makes passes over the instances until a pass computes no size.
fn size_all(expanded: &Expanded, sizing: &mut SizeTable) -> Result<(), Memory>
    requires ready { IsExpandedReady expanded.now }
    requires sizing { IsSizeTable expanded.now.instances sizing.old }
    ensures sizing { OnOk result (IsSizeTable expanded.now.instances sizing.new) }
    ensures settled { OnOk result (IsSizeFixedPoint expanded.now.instances sizing.new.sizes.items) }
{
    let mut changed = true;
    while changed {
        changed = size_once(expanded, sizing)?;
    }
    Ok(())
}

/// The sizes of the inline instances; instances that reach a cycle have none. If the order lists each instance after
/// those that it uses, one walk along it computes all sizes, and the pass that follows computes none. Fails only if
/// memory runs out.
pub(crate) fn inline_sizes(
    alloc: Global,
    expanded: &Expanded,
    order: &[usize],
) -> Result<SizeTable, Memory>
    requires ready { IsExpandedReady expanded.now }
    requires order { All (λ n. n < length expanded.now.instances) order.now }
    ensures sizing { IfOk result (IsSizeTable expanded.now.instances) }
    ensures settled { IfOk result (λ s. IsSizeFixedPoint expanded.now.instances s.sizes.items) }
{
    let mut sizing = SizeTable {
        sizes: vec![in alloc; None; expanded.instances.len()]?,
        order: Vec::new(alloc),
    };
    size_in_order(expanded, &mut sizing, order)?;
    size_all(expanded, &mut sizing)?;
    Ok(sizing)
}
