//! Sets of numbers as the bits of words.
ghost use Rattle.std.specs.Prelude.{◌≡◌, ◌<◌, ◌≤◌, ◌+◌, ◌*◌, ◌^◌, ◌||◌, ◌==◌, ◌⊎◌, ◌↔◌, ℕ, true, false, not, length, slice_index, if◌then◌else◌, IfSome, IfNone, IsTrue};
ghost use Rattle.std.specs.List.{All};
ghost use Rattle.mh_sets.specs.BitWords.{has_token};

/// Returns whether a number is in the set.
#[inline(always)]
pub(crate) fn has_bit(words: &[u64], a: usize) -> bool
    requires { a < 64 * length words.now }
    ensures { result ≡ has_token words.now a }
{
    (words[a / 64] >> (a % 64)) & 1 == 1
}

/// Adds a number, and returns whether it was new.
#[inline(always)]
pub(crate) fn set_bit(words: &mut [u64], a: usize) -> bool
    requires within { a < 64 * length words.old }
    requires each { All (λ w. w < 2 ^ 64) words.old }
    ensures len { length words.new ≡ length words.old }
    ensures each { All (λ w. w < 2 ^ 64) words.new }
    ensures bits { (b : ℕ) → has_token words.new b ≡ (has_token words.old b || a == b) }
    ensures fresh { result ≡ not (has_token words.old a) }
{
    let mask = 1u64 << (a % 64);
    let old = words[a / 64];
    words[a / 64] = old | mask;
    old & mask == 0
}

/// Adds the numbers of another set, and returns whether there was a new one.
#[inline(always)]
pub(crate) fn join(words: &mut [u64], other: &[u64]) -> bool
    requires len { length words.old ≡ length other.now }
    requires each { All (λ w. w < 2 ^ 64) words.old }
    requires other { All (λ w. w < 2 ^ 64) other.now }
    ensures len { length words.new ≡ length words.old }
    ensures each { All (λ w. w < 2 ^ 64) words.new }
    ensures bits { (b : ℕ) → has_token words.new b ≡ (has_token words.old b || has_token other.now b) }
    ensures same { result ≡ false → words.new ≡ words.old }
    ensures fresh { result ≡ true → words.new ≡ words.old → ⊥ }
{
    let mut fresh = false;
    'words: for k in 0..words.len() {
        let old = words[k];
        let joined = old | other[k];
        fresh |= joined != old;
        words[k] = joined;
    }
    fresh
}

/// Returns whether two sets share a number.
#[inline(always)]
pub(crate) fn share(words: &[u64], other: &[u64]) -> bool
    requires len { length words.now ≡ length other.now }
    requires each { All (λ w. w < 2 ^ 64) words.now }
    ensures { IsTrue result ↔ ((a : ℕ) × (has_token words.now a ≡ true) × (has_token other.now a ≡ true)) }
{
    'words: for k in 0..words.len() {
        if words[k] & other[k] != 0 {
            return true;
        }
    }
    false
}

/// Returns whether each number of a set is in the other set.
#[inline(always)]
pub(crate) fn are_within(words: &[u64], other: &[u64]) -> bool
    requires len { length words.now ≡ length other.now }
    requires each { All (λ w. w < 2 ^ 64) words.now }
    requires other { All (λ w. w < 2 ^ 64) other.now }
    ensures { IsTrue result ↔ ((a : ℕ) → has_token words.now a ≡ true → has_token other.now a ≡ true) }
{
    'words: for k in 0..words.len() {
        if words[k] & !other[k] != 0 {
            return false;
        }
    }
    true
}

/// Returns the least number of the set.
#[inline(always)]
pub(crate) fn least(words: &[u64]) -> Option<usize>
    requires few { length words.now ≤ 8 }
    requires each { All (λ w. w < 2 ^ 64) words.now }
    ensures some { IfSome result (λ a. (a < 64 * length words.now) × (has_token words.now a ≡ true) × ((b : ℕ) → b < a → has_token words.now b ≡ false)) }
    ensures empty { IfNone result ((b : ℕ) → has_token words.now b ≡ false) }
{
    'words: for k in 0..words.len() {
        if words[k] != 0 {
            return Some(64 * k + words[k].trailing_zeros() as usize);
        }
    }
    None
}

/// Removes a number.
#[inline(always)]
pub(crate) fn clear_bit(words: &mut [u64], a: usize)
    requires within { a < 64 * length words.old }
    requires each { All (λ w. w < 2 ^ 64) words.old }
    ensures len { length words.new ≡ length words.old }
    ensures each { All (λ w. w < 2 ^ 64) words.new }
    ensures bits { (b : ℕ) → has_token words.new b ≡ (if a == b then false else has_token words.old b) }
{
    words[a / 64] &= !(1u64 << (a % 64));
}
