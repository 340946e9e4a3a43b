//! The reasons why lines are dropped.
use mh_grammar::Name;
use mh_run::Verdict;

/// The reason why a line of a messages file is dropped when the file is rebased onto another grammar.
#[derive(Drop)]
pub enum DropReason {
    /// The line does not have the form of a sentence line.
    Unreadable,
    /// No start symbol has the name before the colon.
    UnknownStart { name: Name },
    /// The line names no start, and the grammar has none or several.
    MissingStart,
    /// No token has this name, the first such name of the line.
    UnknownToken { name: Name },
    /// The sentence is not refused: it is accepted, or its tokens end before the parser can decide.
    NotRefused { verdict: Verdict },
    /// The sentence is refused at the token with this index, from 0, which is not its last token.
    RefusedEarly { at: u32 },
    /// The sentence fails in the state in which the sentence of this earlier line, which is kept, fails.
    SharedState { state: u32, line: u32 },
}
