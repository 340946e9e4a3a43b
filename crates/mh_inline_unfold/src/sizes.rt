//! The sizes of lists of unfoldings: the type, the limits, and the addition of sizes.
ghost use Rattle.std.specs.Prelude.{◌≡◌, ◌+◌, ◌↔◌, min, max, IsTrue};
ghost use Rattle.mh_inline_unfold.specs.code.Sizes.{IsSmallSize};
ghost use Rattle.mh_inline_unfold.specs.Limits.{max_productions};

/// The largest number of productions of a grammar.
pub const MAX_PRODUCTIONS: u64 = 20_000;

/// The largest number of symbols of a right side.
pub const MAX_SYMBOLS: u64 = 10_000;

/// The number of unfoldings in a list and the length of the longest, each capped at one more than its limit.
#[derive(Clone, Copy)]
pub struct Size {
    pub count: u64,
    pub longest: u64,
}

/// The sizes of those inline instances whose size has been computed, and the list of these instances, in which each
/// comes after the inline instances that it uses.
pub struct SizeTable {
    pub sizes: Vec<Option<Size>>,
    pub order: Vec<u32>,
}

// The exit of a function drops this value by one call. With the derived destructor it would drop each field.
impl Drop for SizeTable {
    fn drop(self) {
        let SizeTable { sizes, order } = self;
        drop(sizes);
        drop(order);
    }
}

/// The size of two lists of unfoldings together: the sum of their counts, capped at one more than `MAX_PRODUCTIONS`,
/// and the larger of their greatest lengths.
pub fn plus(left: Size, right: Size) -> Size
    ensures count { result.count ≡ min (left.count + right.count) (max_productions + 1) }
    ensures longest { result.longest ≡ max left.longest right.longest }
{
    Size {
        count: left
            .count
            .saturating_add(right.count)
            .min(MAX_PRODUCTIONS + 1),
        longest: left.longest.max(right.longest),
    }
}

/// Whether a size has been computed and is within the limits: at most `MAX_PRODUCTIONS` unfoldings of at most
/// `MAX_SYMBOLS` symbols each.
pub fn is_small(size: Option<Size>) -> bool
    ensures { IsTrue result ↔ IsSmallSize size }
{
    match size {
        Some(size) => size.count <= MAX_PRODUCTIONS && size.longest <= MAX_SYMBOLS,
        None => false,
    }
}
