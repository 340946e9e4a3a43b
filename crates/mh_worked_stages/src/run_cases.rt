//! The cases on runs, which are sentences with their verdicts and trees, and on the sentences of a grammar: the answer
//! to each kind of question.
use crate::{catalogues, runs, samples, sentences, trees};
use mh_grammar::Grammar;
use mh_worked_grammars::{Questions, check_cases as check_all};
use std::alloc::Global;
use std::test::Fail;

#[derive(Clone, Copy)]
struct AboutRuns;

impl Questions for AboutRuns {
    fn put_answer(
        &self,
        alloc: Global,
        text: &mut String,
        grammar: &Grammar,
        kind: &str,
        rest: &str,
    ) -> Result<(), Fail> {
        match kind {
            "lengths" => catalogues::put_catalogue_of(alloc, text, grammar, false)?,
            "sentences" => catalogues::put_catalogue_of(alloc, text, grammar, true)?,
            "shortest" => sentences::put_shortest_words(alloc, text, grammar)?,
            "random" => sentences::put_random_sentence(alloc, text, grammar, rest)?,
            "accepted" => sentences::put_accepted(alloc, text, grammar, rest)?,
            "sample" => samples::put_line(alloc, text, grammar)?,
            "tree" => trees::put_built_tree(alloc, text, grammar, rest)?,
            "run" => runs::put_run(alloc, text, grammar, rest)?,
            _ => return Err(Fail::from("an unknown question")),
        }
        Ok(())
    }
}

/// Fails if some answer about some grammar is not the wanted one.
pub fn check_cases(alloc: Global, cases: &str) -> Result<(), Fail> {
    check_all(alloc, &AboutRuns, cases)
}
