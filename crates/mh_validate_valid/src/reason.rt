//! The tests of a table file, as reasons why a file is not valid.

/// The test that a file fails.
#[derive(Clone, Copy, Debug, PartialEq, Eq)]
pub enum Reason {
    /// The tokens, their costs, the start symbols or the productions are not those of the grammar.
    Header,
    /// There are fewer states than start symbols.
    States,
    /// The items of a state are not a kernel that the state may have.
    Kernel,
    /// The edges of a state are not those on the symbols of its moves, or an edge leads to a state that does not hold
    /// the moved items.
    Edge,
    /// The cells of a state are not those that conflict resolution gives.
    Cell,
    /// The default action of a state is not the one that conflict resolution gives.
    Fallback,
}
