//! The goto facts of the first search by their beginnings.
ghost use Rattle.std.specs.Prelude.{◌≡◌, [], ◌∷◌, IfOk, OnOk, length};
ghost use Rattle.std.specs.List.{Contains};
ghost use Rattle.mh_reach_rests.specs.declared.waiting.SettledGoto.{SettledGoto};
ghost use Rattle.mh_facts.specs.code.TokenClasses.{AreTokenClasses};
ghost use Rattle.mh_reach_rests.specs.code.RestLevels.{IsRestsResult};
ghost use Rattle.mh_reach_rests.specs.code.RestRules.{IsGotoInRange};
ghost use Rattle.mh_reach_rests.specs.code.SettledWords.{goto_at};
ghost use Rattle.mh_reach_spots.specs.code.GotoRows.{FilesGotos, FilesRows, HasGotos, number_in, numbered_goto};

use mh_facts::{GotoFact, TokenClasses, class_of};
use mh_grammar::Memory;
use mh_reach_rests::{RestsFound, SettledGoto, SettledWords, empty_rows, word_of_goto};
use mh_reach_words::EMPTY;
use mh_tables_core::Table;
use std::alloc::Global;

/// A goto fact with its target, its cost and the number of its word.
#[derive(Clone, Copy, Drop)]
pub struct NumberedGoto {
    pub fact: GotoFact,
    pub target: u32,
    pub cost: u32,
    pub word: usize,
}

/// The number of the word of a goto fact.
fn number_of(settled: &SettledWords, fact: GotoFact) -> usize
    ensures { result ≡ number_in (goto_at settled.now.gotos fact) }
{
    match word_of_goto(settled, fact) {
        None => EMPTY,
        Some(found) => found.word,
    }
}

/// The goto fact with the number of its word.
fn numbered(settled: &SettledWords, goto: SettledGoto) -> NumberedGoto
    ensures { result ≡ numbered_goto settled.now goto }
{
    NumberedGoto {
        fact: goto.fact,
        target: goto.target,
        cost: goto.cost,
        word: number_of(settled, goto.fact),
    }
}

/// Files a goto fact in the row of its beginning.
fn file(
    table: &Table,
    classes: &TokenClasses,
    settled: &SettledWords,
    goto: SettledGoto,
    rows: &mut Vec<Vec<NumberedGoto>>,
) -> Result<(), Memory>
    requires classes { AreTokenClasses table.now classes.now }
    requires goto { IsGotoInRange table.now goto }
    requires rows { length rows.old.items ≡ classes.now.places }
    ensures { OnOk result (FilesGotos classes.now settled.now (goto ∷ []) rows.old.items rows.new.items) }
{
    let place = class_of(table, classes, goto.fact.from, goto.fact.first).place as usize;
    rows[place].push(numbered(settled, goto))?;
    Ok(())
}

/// Files goto facts in the rows of their beginnings.
fn file_each(
    table: &Table,
    classes: &TokenClasses,
    settled: &SettledWords,
    gotos: &[SettledGoto],
    rows: &mut Vec<Vec<NumberedGoto>>,
) -> Result<(), Memory>
    requires classes { AreTokenClasses table.now classes.now }
    requires gotos { (g : SettledGoto) → Contains gotos.now g → IsGotoInRange table.now g }
    requires rows { length rows.old.items ≡ classes.now.places }
    ensures { OnOk result (FilesGotos classes.now settled.now gotos.now rows.old.items rows.new.items) }
{
    for goto in gotos {
        file(table, classes, settled, *goto, rows)?;
    }
    Ok(())
}

/// Files the goto facts of all rows.
fn file_all(
    table: &Table,
    classes: &TokenClasses,
    found: &RestsFound,
    rows: &mut Vec<Vec<NumberedGoto>>,
) -> Result<(), Memory>
    requires classes { AreTokenClasses table.now classes.now }
    requires found { IsRestsResult table.now classes.now found.now }
    requires rows { length rows.old.items ≡ classes.now.places }
    ensures { OnOk result (FilesRows classes.now found.now.settled found.now.work.gotos.items rows.old.items rows.new.items) }
{
    for gotos in found.work.gotos.as_slice() {
        file_each(table, classes, &found.settled, gotos.as_slice(), rows)?;
    }
    Ok(())
}

/// The goto facts, by the class of the first token in the state where they begin. Fails only if memory runs out.
pub(crate) fn gotos_by_start(
    alloc: Global,
    table: &Table,
    classes: &TokenClasses,
    found: &RestsFound,
) -> Result<Vec<Vec<NumberedGoto>>, Memory>
    requires classes { AreTokenClasses table.now classes.now }
    requires found { IsRestsResult table.now classes.now found.now }
    ensures { IfOk result (λ rows. HasGotos table.now classes.now found.now.words.book rows.items) }
{
    table.facts();
    let mut rows = empty_rows(alloc, classes.places)?;
    file_all(table, classes, found, &mut rows)?;
    Ok(rows)
}
