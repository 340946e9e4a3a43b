//! The least sentence that fails in each state (Pottier 2016), and the least that comes to a state with a given token
//! next.
//!
//! `reach` runs both searches of a table; `Reach` gives the least cost and the first sentence of each state, also with
//! a given token next.
//!
//! A *path* is a state with the first symbols of a production's right side. A *fact* is a path with a word, and with a
//! first and a next token: with the word and then the next token to come, a run follows the path and shifts the word.
//! The first token is the first of the tokens of the word with the next token after them. A path is *complete* if it has
//! all symbols of the right side. If the state in which it ends reduces on the next token, the fact gives a *goto fact*:
//! the run goes from the first state of the path along the goto of the production's left side. The rules are in
//! `mh_facts/specs/Search`.
//!
//! 1. `mh_reach_classes`: in each state, the tokens that all reductions leading to the state treat alike form a class.
//!    Both searches use one token of each class, its representative.
//! 2. `mh_reach_rests`: the first search settles (finds for good), for each goto fact with its first and next tokens, a
//!    word of least cost, and of these the lexicographically first. It goes from the ends of right sides to their
//!    beginnings: a rest of a path becomes longer by a shift of the symbol before it, or by a goto fact for that
//!    symbol. The queue is ordered by cost, and the words of one cost are sorted and numbered (`mh_reach_words`); so
//!    the first word that is taken is kept. All costs above 1,000,000 count as 1,000,001, and words of this cost are
//!    not compared.
//! 3. `mh_reach_spots`: the second search settles, for each state with a next token, the least sentence with which a
//!    run reaches the state. A state with a next token and this sentence is an *arrival*. The search begins in the
//!    states of the starts and continues by shifts and by the goto facts of the first search, again by cost and then by
//!    sentence. Sentences are numbered as the words are.
//! 4. `candidates`: a state that refuses a token and is reached with this token next has a candidate, which is the
//!    sentence of the arrival and the token. The least candidate of all tokens is kept.
//! 5. `sentences`: the sentence of an arrival is also the first that comes to its state with its token next. A sentence
//!    is spelled by its number.
//!
//! The result is complete because both searches are closed under the rules: for each sentence that the rules refuse in
//! a state there is a candidate that comes no later, or both cost more than 1,000,000. The law
//! `mh_facts::failures_are_reached` says that the sentences that the rules refuse in a state are exactly those that
//! fail there; `comings_are_reached` says that the sentences with which the rules reach a state are exactly
//! those that come there.
#![tactic(auto)]

mod candidates;
mod laws;
mod searches;
mod sentences;

pub use laws::comings_are_reached;
pub use searches::reach;
pub use sentences::Reach;
