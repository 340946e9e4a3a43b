//! The text of everything that is wrong with a messages file.
ghost use Rattle.std.specs.Prelude.{◌≡◌, ◌++◌, ◌∷◌, [], ℕ, Err, IfOk, OnOk, filter};
ghost use Rattle.mh_grammar.specs.Plain.{plain_of, IsInRange};
ghost use Rattle.mh_tables_core.specs.Failing.{Catalogue, TooLongAt};
ghost use Rattle.mh_catalogue.specs.Rows.{row_of, rows_of};
ghost use Rattle.mh_msgfile.specs.LooseFiles.{HasShortLines};
ghost use Rattle.mh_rebase.specs.code.Rows.{has_no_kept_line};
ghost use Rattle.mh_lint_messages.specs.code.Findings.{HasFoundNothing};
ghost use Rattle.mh_rebase.specs.ErrorLines.{missing_text, missing_texts, unpaired_text, IsErrorText};

use crate::lines::{Examined, Findings, add_entries, write_place};
use mh_catalogue::{CatalogueFault, Row, catalogue};
use mh_grammar::{Grammar, Memory};
use mh_grammar_texts::write_between;
use mh_msgfile::{Lexicon, LooseBlocks, write_sentence};
use mh_rebase::{line_kept_in, no_lines};
use mh_tables_core::Halting;
use std::alloc::Global;

/// The reason why it is not known what is wrong with a messages file.
#[derive(Clone, Copy, PartialEq, Eq, Drop)]
pub enum ErrorsFault {
    /// The lowest state in which some sentence fails, but none that costs at most 1,000,000.
    TooLong { state: u32 },
    /// Memory ran out.
    Memory,
}

/// Appends the line on the state of a row, which has no entry.
fn write_missing_state(text: &mut Vec<u8>, grammar: &Grammar, row: &Row) -> Result<(), Memory>
    ensures { OnOk result (text.new.items ≡ text.old.items ++ missing_text grammar.now (row_of row.now)) }
{
    write_between(text, b"state ", row.state, b" has no entry: ")?;
    write_sentence(text, grammar, row.start, row.sentence.as_slice())?;
    text.push(b'\n')?;
    Ok(())
}

/// Appends the line on the state of a row, if no kept sentence fails in this state. For each state, `kept` has the
/// number of the kept line whose sentence fails there.
fn write_missing_row(
    text: &mut Vec<u8>,
    grammar: &Grammar,
    kept: &[Option<u32>],
    row: &Row,
) -> Result<(), Memory>
    ensures { OnOk result (text.new.items ≡ text.old.items
        ++ missing_texts grammar.now (filter (has_no_kept_line kept.now) (rows_of (row.now ∷ [])))) }
{
    match line_kept_in(kept, row.state) {
        Some(_) => Ok(()),
        None => write_missing_state(text, grammar, row),
    }
}

/// Appends the lines on the states without an entry.
fn write_missing(
    text: &mut Vec<u8>,
    grammar: &Grammar,
    kept: &[Option<u32>],
    rows: &[Row],
) -> Result<(), Memory>
    ensures { OnOk result (text.new.items ≡ text.old.items
        ++ missing_texts grammar.now (filter (has_no_kept_line kept.now) (rows_of rows.now))) }
{
    for row in rows {
        write_missing_row(text, grammar, kept, row)?;
    }
    Ok(())
}

/// Appends the line on a last block without a message.
fn write_unpaired(text: &mut Vec<u8>, name: &[u8], unpaired: Option<u32>) -> Result<(), Memory>
    ensures { OnOk result (text.new.items ≡ text.old.items ++ unpaired_text name.now unpaired) }
{
    if let Some(line) = unpaired {
        write_place(text, name, line)?;
        text.extend_from_slice(b"shape\n")?;
    }
    Ok(())
}

/// Appends all lines on the blocks of a file. `rows` are the rows of the catalogue.
fn write_all(
    alloc: Global,
    to: &Examined<'_>,
    found: &mut Findings,
    blocks: &LooseBlocks,
    rows: &[Row],
) -> Result<(), Memory>
    requires short { HasShortLines blocks.now.file }
    requires rows { Catalogue to.now.table.now (rows_of rows.now) }
    requires empty { HasFoundNothing to.now.table.now found.old }
    ensures { OnOk result (IsErrorText to.now.grammar.now to.now.table.now to.now.name.now blocks.now found.new.text.items) }
{
    add_entries(alloc, to, found, blocks.file.entries.as_slice())?;
    write_unpaired(&mut found.text, to.name, blocks.unpaired)?;
    let kept = found.kept_lines.as_slice();
    write_missing(&mut found.text, to.grammar, kept, rows)?;
    Ok(())
}

/// Makes the text for the blocks of a file. `rows` are the rows of the catalogue.
fn lines_with(
    alloc: Global,
    to: &Examined<'_>,
    blocks: &LooseBlocks,
    rows: &[Row],
) -> Result<Vec<u8>, Memory>
    requires short { HasShortLines blocks.now.file }
    requires rows { Catalogue to.now.table.now (rows_of rows.now) }
    ensures { IfOk result (λ text. IsErrorText to.now.grammar.now to.now.table.now to.now.name.now blocks.now text.items) }
{
    let kept_lines = no_lines(alloc, to.table.table())?;
    let mut found = Findings {
        text: Vec::new(alloc),
        kept_lines,
    };
    write_all(alloc, to, &mut found, blocks, rows)?;
    Ok(found.text)
}

/// Does as `lines_with`, but first builds the map from the grammar's names to their numbers, which all lines use.
fn lines_by(
    alloc: Global,
    grammar: &Grammar,
    table: &Halting,
    name: &[u8],
    blocks: &LooseBlocks,
    rows: &[Row],
) -> Result<Vec<u8>, Memory>
    requires same { table.now.grammar ≡ plain_of grammar.now }
    requires range { IsInRange (plain_of grammar.now) }
    requires short { HasShortLines blocks.now.file }
    requires rows { Catalogue table.now (rows_of rows.now) }
    ensures { IfOk result (λ text. IsErrorText grammar.now table.now name.now blocks.now text.items) }
{
    let lexicon = Lexicon::new(alloc, grammar)?;
    let to = Examined {
        grammar,
        table,
        lexicon: &lexicon,
        name,
    };
    lines_with(alloc, &to, blocks, rows)
}

/// Returns a line for each thing that is wrong with a messages file: for each sentence line that would be dropped if
/// the file were rebased onto the grammar of this table, with the reason; for each message that nobody has written yet;
/// for a last block without a message; and for each state in which some sentence fails and no kept sentence does. The
/// text is empty exactly if nothing is wrong (`nothing_is_written`). Fails with `TooLong` exactly if sentences fail in
/// some state, but each of them costs more than 1,000,000, and with `Memory` only if memory runs out.
pub fn error_lines(
    alloc: Global,
    grammar: &Grammar,
    table: &Halting,
    name: &[u8],
    blocks: &LooseBlocks,
) -> Result<Vec<u8>, ErrorsFault>
    requires same { table.now.grammar ≡ plain_of grammar.now }
    requires short { HasShortLines blocks.now.file }
    ensures text { IfOk result (λ text. IsErrorText grammar.now table.now name.now blocks.now text.items) }
    ensures none { IfOk result (λ _. (s : ℕ) → TooLongAt table.now s → ⊥) }
    ensures long { (s : ℕ) → result ≡ Err (ErrorsFault.TooLong s) → TooLongAt table.now s }
{
    table.table().facts();
    let rows = match catalogue(alloc, table) {
        Ok(rows) => rows,
        Err(CatalogueFault::TooLong { state }) => return Err(ErrorsFault::TooLong { state }),
        Err(CatalogueFault::Memory) => return Err(ErrorsFault::Memory),
    };
    match lines_by(alloc, grammar, table, name, blocks, rows.as_slice()) {
        Ok(text) => Ok(text),
        Err(Memory) => Err(ErrorsFault::Memory),
    }
}
