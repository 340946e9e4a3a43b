//! A shelf, a source and a sink in memory, each with a list of the calls that fail, numbered from 1.
mod mem_shelf;
mod mem_sink;
mod mem_source;

pub use mem_shelf::MemShelf;
pub use mem_sink::MemSink;
pub use mem_source::MemSource;
