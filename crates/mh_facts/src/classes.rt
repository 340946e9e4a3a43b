//! Token classes: in each state, tokens that all reductions leading to the state treat alike share a class.
ghost use Rattle.std.specs.Prelude.{◌≡◌, ◌<◌, length};
ghost use Rattle.mh_facts.specs.code.TokenClasses.{IsSized, rep_of, place_of, representatives_at};

use mh_grammar::Token;
use mh_tables_core::Table;

/// The class of a token in a state.
#[derive(Clone, Copy, Drop)]
pub struct TokenClass {
    /// The token that represents the class.
    pub representative: Token,
    /// The number of the class, among the classes of all states, from 0.
    pub place: u32,
}

/// The token classes of all states.
#[derive(Drop)]
pub struct TokenClasses {
    /// The class of each token, by state and token.
    pub rows: Vec<Vec<TokenClass>>,
    /// The representatives of the classes, by state.
    pub lists: Vec<Vec<Token>>,
    /// An upper bound of the class numbers: all are below it.
    pub places: u32,
}

/// Returns the class of a token in a state.
#[tactic(auto, unfolding(crate::specs::code::TokenClasses::rep_of, crate::specs::code::TokenClasses::place_of))]
pub fn class_of(table: &Table, classes: &TokenClasses, state: u32, token: Token) -> TokenClass
    requires sized { IsSized table.now classes.now }
    requires state { state < length table.now.states }
    requires token { token < table.now.grammar.tokens }
    ensures representative { result.representative ≡ rep_of classes.now state token }
    ensures place { result.place ≡ place_of classes.now state token }
    ensures within { result.place < classes.now.places }
{
    classes.rows[state as usize][token as usize]
}

/// Returns the representatives of the token classes of a state.
pub fn representatives_of<'a>(table: &Table, classes: &'a TokenClasses, state: u32) -> &'a [Token]
    requires sized { IsSized table.now classes.now }
    requires state { state < length table.now.states }
    ensures { result.now ≡ representatives_at classes.now state }
{
    classes.lists[state as usize].as_slice()
}
