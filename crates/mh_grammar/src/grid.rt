//! A table of flags, stored row by row, and the calls that set flags in it.
ghost use Rattle.std.specs.Prelude.{◌≡◌, ◌<◌, ◌≤◌, ◌+◌, ◌*◌, ℕ, true, false, length, slice_set, slice_index_or};
ghost use Rattle.mh_grammar.specs.FlagTable.{flag, Grows, IsKeptOrCopied};

/// Sets a flag, and returns whether it was new.
pub(crate) fn insert(flags: &mut [bool], width: usize, row: usize, column: usize) -> bool
    requires column { column < width }
    requires row { row * width + width ≤ length flags.old }
    ensures set { flags.new ≡ slice_set flags.old (row * width + column) true }
    ensures grows { Grows flags.old flags.new result }
{
    let at = row * width + column;
    let new = !flags[at];
    flags[at] = true;
    new
}

/// Adds the flags of one row to another, and returns whether any was new.
pub(crate) fn add_row(flags: &mut [bool], width: usize, to: usize, from: usize) -> bool
    requires to { to * width + width ≤ length flags.old }
    requires from { from * width + width ≤ length flags.old }
    ensures grows { Grows flags.old flags.new result }
    ensures from { (row column : ℕ) → column < width → flag width flags.new row column ≡ true → IsKeptOrCopied width flags.old to from row column }
    ensures to { (column : ℕ) → column < width → flag width flags.old from column ≡ true → flag width flags.new to column ≡ true }
{
    let mut grown = false;
    for column in 0..width {
        if flags[from * width + column] {
            grown |= insert(flags, width, to, column);
        }
    }
    grown
}
