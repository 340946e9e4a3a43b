//! The exit statuses of the program.

/// The work is done.
pub const DONE: u8 = 0;

/// The work is refused: for the grammar, a messages file, a table file, or a conflict under `--strict`.
pub const REFUSED: u8 = 1;

/// The words of the command line are no order.
pub const MISUSED: u8 = 2;

/// A file or the input cannot be read.
pub const READ_FAULT: u8 = 3;

/// A write failed.
pub const WRITE_FAULT: u8 = 4;

/// A file or the input is over its limit.
pub const TOO_BIG: u8 = 5;

/// Memory ran out.
pub const OUT_OF_MEMORY: u8 = 6;
