//! The text of a messages file that is rebased onto another grammar.
ghost use Rattle.std.specs.Prelude.{◌≡◌, ◌∷◌, [], ℕ, List, length, Err, IfOk, OnOk};
ghost use Rattle.std.specs.List.{AllByRecursion};
ghost use Rattle.mh_grammar.specs.Plain.{plain_of, IsInRange};
ghost use Rattle.mh_report.specs.FitsStates.{FitsStates};
ghost use Rattle.mh_tables_core.specs.Failing.{Catalogue, TooLongAt};
ghost use Rattle.mh_catalogue.specs.Rows.{AreShort, rows_of};
ghost use Rattle.mh_msgfile.specs.LooseFiles.{HasShortLines, LooseSpells};
ghost use Rattle.mh_msgfile.specs.FileTexts.{HasReadableNames};
ghost use Rattle.mh_update.specs.NoLineEnds.{HasNamesWithoutLineEnds};
ghost use Rattle.mh_rebase.specs.ReadAgain.{HasNoCr, IsReadAgain};
ghost use Rattle.mh_rebase.specs.RebasedText.{IsRebased};
ghost use Rattle.mh_rebase.specs.code.Parts.{AreKeptLines, HasNothing};
ghost use Rattle.mh_rebase.specs.code.Rows.{IsFitRow, WritesRows};

use crate::entries::{Parts, Target, add_entries};
use crate::keeping::line_kept_in;
use mh_catalogue::{CatalogueFault, Row, catalogue};
use mh_grammar::{Grammar, Memory};
use mh_items_kernels::Automaton;
use mh_msgfile::{Lexicon, LooseFile};
use mh_report::Commenter;
use mh_tables_core::{Halting, Table};
use std::alloc::Global;

/// The reason why a messages file is not rebased.
#[derive(Clone, Copy, PartialEq, Eq, Drop)]
pub enum RebaseFault {
    /// The lowest state in which some sentence fails, but none that costs at most 1,000,000.
    TooLong { state: u32 },
    /// Memory ran out.
    Memory,
}

/// Appends the entry of a row, if no kept sentence fails in its state.
fn write_row<const W: usize>(
    alloc: Global,
    text: &mut Vec<u8>,
    to: &Target<'_, W>,
    kept: &[Option<u32>],
    row: &Row,
) -> Result<(), Memory>
    requires fits { FitsStates W to.now.grammar.now to.now.automaton.now to.now.table.now }
    requires row { IsFitRow to.now.table.now row.now }
    ensures { OnOk result (WritesRows to.now.expected to.now.grammar.now to.now.automaton.now to.now.table.now kept.now (row.now ∷ []) text.old.items text.new.items) }
{
    if line_kept_in(kept, row.state).is_none() {
        let commenter = Commenter {
            grammar: to.grammar,
            automaton: to.automaton,
            table: to.table,
            expected: to.expected,
        };
        let entry = commenter.entry(alloc, row.start, row.sentence.as_slice())?;
        text.extend_from_slice(entry.as_slice())?;
    }
    Ok(())
}

/// Appends the entries of the rows in whose states no kept sentence fails.
fn write_rows<const W: usize>(
    alloc: Global,
    text: &mut Vec<u8>,
    to: &Target<'_, W>,
    kept: &[Option<u32>],
    rows: &[Row],
) -> Result<(), Memory>
    requires fits { FitsStates W to.now.grammar.now to.now.automaton.now to.now.table.now }
    requires rows { AllByRecursion (IsFitRow to.now.table.now) rows.now }
    ensures { OnOk result (WritesRows to.now.expected to.now.grammar.now to.now.automaton.now to.now.table.now kept.now rows.now text.old.items text.new.items) }
{
    for row in rows {
        write_row(alloc, text, to, kept, row)?;
    }
    Ok(())
}

/// The list in which no state has a kept line.
pub fn no_lines(alloc: Global, table: &Table) -> Result<Vec<Option<u32>>, Memory>
    ensures size { IfOk result (λ lines. length lines.items ≡ length table.now.states) }
    ensures none { IfOk result (λ lines. AreKeptLines [] lines.items) }
{
    let lines = vec![in alloc; None; table.states() as usize]?;
    Ok(lines)
}

/// Appends all parts of the rebased text to `parts.kept`. `rows` are the rows of the catalogue: each row in whose state
/// no kept sentence fails becomes an entry.
fn write_parts<const W: usize>(
    alloc: Global,
    to: &Target<'_, W>,
    parts: &mut Parts,
    file: &LooseFile,
    rows: &[Row],
) -> Result<(), Memory>
    requires fits { FitsStates W to.now.grammar.now to.now.automaton.now to.now.table.now }
    requires short { HasShortLines file.now }
    requires rows { Catalogue to.now.table.now (rows_of rows.now) }
    requires few { AreShort (rows_of rows.now) }
    requires empty { HasNothing to.now.table.now parts.old }
    ensures { OnOk result (IsRebased to.now.expected to.now.grammar.now to.now.automaton.now to.now.table.now file.now parts.new.kept.items) }
{
    add_entries(alloc, to, parts, file.entries.as_slice())?;
    let covered = parts.kept_lines.as_slice();
    write_rows(alloc, &mut parts.kept, to, covered, rows)?;
    parts.kept.extend_from_slice(parts.dropped.as_slice())?;
    Ok(())
}

/// Makes the text of the rebased file. `rows` are the rows of the catalogue.
fn rebased_with<const W: usize>(
    alloc: Global,
    to: &Target<'_, W>,
    file: &LooseFile,
    rows: &[Row],
) -> Result<Vec<u8>, Memory>
    requires fits { FitsStates W to.now.grammar.now to.now.automaton.now to.now.table.now }
    requires short { HasShortLines file.now }
    requires rows { Catalogue to.now.table.now (rows_of rows.now) }
    requires few { AreShort (rows_of rows.now) }
    ensures { IfOk result (λ text. IsRebased to.now.expected to.now.grammar.now to.now.automaton.now to.now.table.now file.now text.items) }
{
    let kept_lines = no_lines(alloc, to.table.table())?;
    let mut parts = Parts {
        kept: Vec::new(alloc),
        dropped: Vec::new(alloc),
        kept_lines,
    };
    write_parts(alloc, to, &mut parts, file, rows)?;
    Ok(parts.kept)
}

/// Makes the text of the rebased file, as `rebased_with` does, but first numbers the names of the grammar, once for all
/// lines.
fn rebased_by<const W: usize>(
    alloc: Global,
    commenter: &Commenter<'_, W>,
    file: &LooseFile,
    rows: &[Row],
) -> Result<Vec<u8>, Memory>
    requires fits { FitsStates W commenter.now.grammar.now commenter.now.automaton.now commenter.now.table.now }
    requires same { commenter.now.table.now.grammar ≡ plain_of commenter.now.grammar.now }
    requires range { IsInRange (plain_of commenter.now.grammar.now) }
    requires short { HasShortLines file.now }
    requires rows { Catalogue commenter.now.table.now (rows_of rows.now) }
    requires few_tokens { AreShort (rows_of rows.now) }
    ensures { IfOk result (λ text. IsRebased commenter.now.expected commenter.now.grammar.now commenter.now.automaton.now commenter.now.table.now file.now text.items) }
{
    let lexicon = Lexicon::new(alloc, commenter.grammar)?;
    let to = Target {
        grammar: commenter.grammar,
        automaton: commenter.automaton,
        table: commenter.table,
        lexicon: &lexicon,
        expected: commenter.expected,
    };
    rebased_with(alloc, &to, file, rows)
}

/// Rebases a messages file onto the grammar of this table, and returns the new text. A sentence line is dropped for the
/// first of these reasons that applies: the line is no sentence of the grammar; the sentence is not refused; it is
/// refused before its last token; an earlier kept sentence fails in the same state. All other sentences are kept. The
/// text has three parts. The first has the entries with a kept sentence: the kept sentences, each with new comment
/// lines, and the message. The second has an entry of the list of errors for each other state in which some sentence
/// fails. The third reports each dropped line with its reason, and after the last line of an entry without a kept
/// sentence its message. If `expected` is true, each block of comment lines ends with the tokens that are expected in
/// place of the last token of its sentence.
/// Fails with `TooLong` exactly if sentences fail in some state, but each of them costs more than 1,000,000, and with
/// `Memory` only if memory runs out.
pub fn rebase<const W: usize>(
    alloc: Global,
    grammar: &Grammar,
    automaton: &Automaton<W>,
    table: &Halting,
    file: &LooseFile,
    expected: bool,
) -> Result<Vec<u8>, RebaseFault>
    requires fits { FitsStates W grammar.now automaton.now table.now }
    requires same { table.now.grammar ≡ plain_of grammar.now }
    requires short { HasShortLines file.now }
    ensures text { IfOk result (λ text. IsRebased expected grammar.now automaton.now table.now file.now text.items) }
    ensures again { HasReadableNames grammar.now → HasNamesWithoutLineEnds grammar.now → (bytes : List ℕ) → LooseSpells bytes file.now → HasNoCr file.now → IfOk result (λ text. IsReadAgain expected grammar.now automaton.now table.now file.now text.items) }
    ensures none { IfOk result (λ _. (s : ℕ) → TooLongAt table.now s → ⊥) }
    ensures long { (s : ℕ) → result ≡ Err (RebaseFault.TooLong s) → TooLongAt table.now s }
{
    table.table().facts();
    let rows = match catalogue(alloc, table) {
        Ok(rows) => rows,
        Err(CatalogueFault::TooLong { state }) => return Err(RebaseFault::TooLong { state }),
        Err(CatalogueFault::Memory) => return Err(RebaseFault::Memory),
    };
    let commenter = Commenter {
        grammar,
        automaton,
        table,
        expected,
    };
    match rebased_by(alloc, &commenter, file, rows.as_slice()) {
        Ok(text) => Ok(text),
        Err(Memory) => Err(RebaseFault::Memory),
    }
}
