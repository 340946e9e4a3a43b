//! The commands of a session.
use mh_grammar::{Name, Sequence, Token};

/// A command to a session.
#[derive(Drop)]
pub enum Command {
    /// Begins a branch with the run of a start, given by its number from 0.
    Begin { name: Name, start: u16 },
    /// Offers a token to a branch whose phase is `InputNeeded`.
    Offer { name: Name, token: Token },
    /// Makes the next step of a branch: a shift, a reduction or a refusal.
    Resume { name: Name },
    /// Offers tokens, one after another, to a branch whose phase is `InputNeeded`, and makes the shifts and reductions,
    /// up to a refusal, to the end of the run, or until the branch asks for more tokens than these.
    Feed { name: Name, tokens: Sequence<Token> },
    /// Gives the name `fresh` a branch with the history of the branch `name`.
    Fork { name: Name, fresh: Name },
    /// Asks for the phase of a branch.
    Show { name: Name },
    /// Asks for the symbols on the stack of a branch.
    Stack { name: Name },
    /// Asks for the tree of a branch that accepts.
    Tree { name: Name },
    /// Asks for the tokens that are expected at a branch that asks for a token.
    Expected { name: Name },
    /// Removes a name and its branch.
    Forget { name: Name },
}
