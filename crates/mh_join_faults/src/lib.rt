//! The search for the first fault in the files of a grammar: undefined names and strings; names and strings with two
//! meanings; and the faults reported last, which are no start symbol, the token `error`, unknown levels, and too many
//! tokens.
#![tactic(auto)]

mod agreement;
mod duplicates;
mod errors;
mod undefined;

pub use duplicates::check_duplicates;
pub use errors::check_others;
pub use undefined::check_undefined;
