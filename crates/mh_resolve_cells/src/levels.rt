//! The type of comparisons of a reduction with a shift.
/// The result of comparing the level of a production with the level of a token.
#[derive(Clone, Copy)]
pub enum Comparison {
    /// The reduction remains.
    Reduces,
    /// The shift remains.
    Shifts,
    /// Neither remains: the levels are equal and nonassociative.
    Neither,
    /// A level is missing, or the levels are not comparable: the shift remains.
    Unknown,
}
