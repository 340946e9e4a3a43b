//! Worked examples of the stages after the grammar: sets, closures, automata, cells and conflicts; verdicts, trees,
//! lists of errors, words of a grammar and samples; table files, and updated messages files. Each result was worked out
//! by hand.
#![tactic(auto)]

#[cfg(test)]
mod automata;
#[cfg(test)]
mod catalogues;
#[cfg(test)]
mod closures;
#[cfg(test)]
mod resolving;
#[cfg(test)]
mod run_cases;
#[cfg(test)]
mod runs;
#[cfg(test)]
mod samples;
#[cfg(test)]
mod sentences;
#[cfg(test)]
mod sets;
#[cfg(test)]
mod table_cases;
#[cfg(test)]
mod table_files;
#[cfg(test)]
mod tables;
#[cfg(test)]
mod token_sets;
#[cfg(test)]
mod trees;
#[cfg(test)]
mod updates;
#[cfg(test)]
mod validity;
#[cfg(test)]
mod widths;
