//! The outside world: a shelf of files, a source of input and a sink of output, each with a count of its faults. The
//! devices in memory have contents that contracts know; the contents of real files and streams are unknown, and each of
//! their faults is counted.
#![tactic(auto)]

mod fakes;
mod file_shelf;
mod lines;
mod schedule;
mod shelf;
mod sink;
mod source;
mod std_sink;
mod std_source;

pub use fakes::{MemShelf, MemSink, MemSource};
pub use file_shelf::FileShelf;
pub use lines::{LineFault, read_line};
pub use shelf::{Shelf, ShelfFault};
pub use sink::{Sink, WriteFault, write_whole};
pub use source::{Failed, Source};
pub use std_sink::StdSink;
pub use std_source::StdSource;
