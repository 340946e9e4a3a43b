//! Why validating a table file fails.
use mh_validate_valid::Reason;

/// Why validating a table file fails.
#[derive(Clone, Copy)]
pub enum ValidFault {
    /// The file is not valid for the grammar: the first failing test, and the state at which it fails, if the test is
    /// one of a state.
    Invalid { state: Option<u32>, reason: Reason },
    /// Memory ran out.
    Memory,
}
