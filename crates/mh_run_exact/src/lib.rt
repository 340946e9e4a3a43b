//! Laws on the verdicts of a table and the sentences of its grammar. Each is the contract of an empty function.
#![tactic(auto)]

mod exactness;

pub use exactness::{
    accepts_with_tree, overshoots_in_sentences, some_clean_table, trees_derive, verdicts_are_exact,
};
