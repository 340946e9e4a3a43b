//! Runs the whole tool on words, files and an input in memory, and compares its outputs with the texts of a case.
#![tactic(auto)]

mod devices;
mod runs;

pub use devices::{AcceptedSize, CountedInput, Devices, FailingCalls, Output};
pub use runs::{
    ONE_SENTENCE_FILE, Outcome, SMALL_GRAMMARS, beside, check_cases, check_cases_with, copied,
    given_files, parts_of, push_file, run_files, run_on, run_with, words_of,
};
