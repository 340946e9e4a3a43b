//! The choice of the width of sets.
ghost use Rattle.std.specs.Prelude.{◌≡◌, ◌≢◌, ◌≤◌, ◌<◌, ◌+◌, ◌*◌};

/// Returns the least width W, from 1 to 8, such that the number of tokens is at most 64 * W; 8 if there are more than
/// 512 tokens, which are too many for every width.
pub fn width_for(tokens: usize) -> usize
    ensures holds { tokens ≤ 512 → tokens ≤ 64 * result }
    ensures least { result ≢ 1 → 64 * result < tokens + 64 }
    ensures some { 1 ≤ result }
    ensures few { result ≤ 8 }
{
    match tokens {
        0..=64 => 1,
        65..=128 => 2,
        129..=192 => 3,
        193..=256 => 4,
        257..=320 => 5,
        321..=384 => 6,
        385..=448 => 7,
        _ => 8,
    }
}

/// Calls a function with the width that `width_for` returns: `with_width!(tokens; f; types; arguments)` is `f::<types,
/// W>(arguments)`.
#[macro_export]
macro_rules! with_width {
    ($tokens:expr; $f:ident; $($types:ty),*; $($arguments:expr),*) => {
        match $crate::width_for($tokens) {
            1 => $f::<$($types,)* 1>($($arguments),*),
            2 => $f::<$($types,)* 2>($($arguments),*),
            3 => $f::<$($types,)* 3>($($arguments),*),
            4 => $f::<$($types,)* 4>($($arguments),*),
            5 => $f::<$($types,)* 5>($($arguments),*),
            6 => $f::<$($types,)* 6>($($arguments),*),
            7 => $f::<$($types,)* 7>($($arguments),*),
            _ => $f::<$($types,)* 8>($($arguments),*),
        }
    };
}
