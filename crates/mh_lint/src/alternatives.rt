//! The type of alternatives of files.

/// An alternative of a file, by its index among all alternatives of the file. Files are counted from 1, and the prelude
/// is file 0.
#[derive(Clone, Copy, PartialEq, Eq, Hash, Drop)]
pub(crate) struct AlternativeOf {
    pub(crate) file: u64,
    pub(crate) index: u64,
}
