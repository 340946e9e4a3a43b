//! The cases on what is computed from a grammar, from its FIRST sets to its table: the answer to each kind of question.
use crate::{automata, closures, resolving, sets, tables, widths};
use mh_grammar::Grammar;
use mh_worked_grammars::{Questions, check_cases as check_all};
use std::alloc::Global;
use std::test::Fail;

#[derive(Clone, Copy)]
struct AboutTables;

impl Questions for AboutTables {
    fn put_answer(
        &self,
        alloc: Global,
        text: &mut String,
        grammar: &Grammar,
        kind: &str,
        rest: &str,
    ) -> Result<(), Fail> {
        match kind {
            "names" => sets::put_names(text, grammar),
            "nullable" => sets::put_nullable(alloc, text, grammar)?,
            "productive" => sets::put_productive(alloc, text, grammar)?,
            "first" => sets::put_first(alloc, text, grammar)?,
            "states" => closures::put_states(alloc, text, grammar, rest)?,
            "edges" => automata::put_edges_of(alloc, text, grammar)?,
            "widths" => widths::put_states(alloc, text, grammar)?,
            "halting" => tables::put_halting(alloc, text, grammar)?,
            _ => resolving::put_part(alloc, text, grammar, kind, rest)?,
        }
        Ok(())
    }
}

/// Fails if some answer about some grammar is not the wanted one.
pub fn check_cases(alloc: Global, cases: &str) -> Result<(), Fail> {
    check_all(alloc, &AboutTables, cases)
}
