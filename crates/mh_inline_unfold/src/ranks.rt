//! The rank of a file in the order of productions.
ghost use Rattle.std.specs.Prelude.{◌≡◌};
ghost use Rattle.mh_inline_unfold.specs.FileRanks.{rank_of};

/// The rank of a file: its number less 1, and the largest number for the prelude, which is file 0 and comes last.
pub fn rank(file: u64) -> u64
    ensures { result ≡ rank_of file }
{
    if file == 0 { u64::MAX } else { file - 1 }
}
