//! A first look at the libraries, for readers: from the text of a grammar file to its table, a verdict, trees,
//! checkpoints and sessions. `mh_surface_files` goes on. Each file is one way to use the libraries, and all files use
//! one small grammar, whose only sentence is `A EOF`. Each compared value was worked out by hand. Begin with `making`
//! and `from_text_to_verdict`.
#![tactic(auto)]

#[cfg(test)]
mod automata_and_tables;
#[cfg(test)]
mod chapters;
#[cfg(test)]
mod checkpoints_and_sessions;
mod example;
#[cfg(test)]
mod from_text_to_verdict;
mod making;
#[cfg(test)]
mod refused_grammars;
#[cfg(test)]
mod run_chapters;
#[cfg(test)]
mod tables_by_hand;
#[cfg(test)]
mod trees;

pub use example::{has_counts, has_edges};
pub use making::{
    A, EOF, automaton_of, expanded_of, grammar_of, is_small, joined_of, module_of, modules_of,
    table_of,
};
