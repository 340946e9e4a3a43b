//! The verdict on a sentence.
/// The end of the run on a sentence.
#[derive(Clone, Copy, Debug, PartialEq, Eq)]
pub enum Verdict {
    /// A state accepts after `read` tokens have been shifted; more tokens may follow.
    Accept { read: u32 },
    /// This state needs another token, but the sentence is at its end.
    Overshoot { state: u32 },
    /// This state refuses the token with index `at`, from 0.
    Reject { at: u32, state: u32 },
}
