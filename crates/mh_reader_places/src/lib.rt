//! Reads a grammar file: its module alone, or with the places at which the file names something.
#![tactic(auto)]

mod mentions;
mod modules;
mod reading;
mod scan;

pub use mentions::{Mention, Role};
pub use mh_lex::PlacedFault;
pub use modules::read_module;
pub use reading::{PlacedModule, read_placed};
