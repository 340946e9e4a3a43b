//! Worked examples of the whole tool. Of the modes that read sentences or commands: verdicts, trees, expected tokens,
//! explanations, sessions. Of the other modes: texts of automata, table files, warnings, explanations of conflicts, words
//! of a grammar; lists of errors; messages files, compiled, compared, updated, rebased and examined; grammar files,
//! examined. And the largest grammars and inputs, refused words and grammars, devices that fail, and the calls of the
//! whole tool. Each result was worked out by hand.
#![tactic(auto)]

#[cfg(test)]
mod automata;
#[cfg(test)]
mod checked_grammars;
#[cfg(test)]
mod checking;
#[cfg(test)]
mod commented;
#[cfg(test)]
mod conflicts;
#[cfg(test)]
mod devices;
#[cfg(test)]
mod errors;
#[cfg(test)]
mod expected;
#[cfg(test)]
mod explained;
#[cfg(test)]
mod faults;
#[cfg(test)]
mod in_memory;
#[cfg(test)]
mod interpreting;
#[cfg(test)]
mod keeping;
#[cfg(test)]
mod limits;
#[cfg(test)]
mod many_tokens;
#[cfg(test)]
mod messages;
#[cfg(test)]
mod rebasing;
#[cfg(test)]
mod refused;
#[cfg(test)]
mod samples;
#[cfg(test)]
mod sentences;
#[cfg(test)]
mod sessions;
#[cfg(test)]
mod several_files;
#[cfg(test)]
mod table_files;
#[cfg(test)]
mod trees;
#[cfg(test)]
mod usage;
#[cfg(test)]
mod warnings;
