//! Writes the entries of the catalogue's rows, one after the other.
ghost use Rattle.std.specs.Prelude.{◌≤◌, IfOk};
ghost use Rattle.mh_catalogue.specs.Rows.{row_of, rows_of};
ghost use Rattle.mh_top_lists.specs.code.Entries.{AreEntriesOf, AreFailingRows, IsEntryOf, IsFailingRow, WritesTextInParts, WritesWholeText};
ghost use Rattle.mh_top_drive.specs.code.Prepared.{IsConsistent};
ghost use Rattle.mh_top_drive.specs.code.ModeCalls.{OutCounts};

use mh_catalogue::Row;
use mh_outside::Sink;
use mh_report::Commenter;
use mh_top_drive::{Prepared, Stop, write_text};
use std::alloc::Global;

/// Writes the entry of one row.
fn write_entry<O: Sink, const W: usize>(
    alloc: Global,
    prepared: &Prepared<W>,
    row: &Row,
    out: &mut O,
) -> Result<(), Stop>
    requires few { W ≤ 8 }
    requires consistent { IsConsistent prepared.now }
    requires row { IsFailingRow prepared.now.tabled.halting (row_of row.now) }
    requires may_write { O.MayWrite out.old }
    ensures text { WritesWholeText (IsEntryOf prepared.now (row_of row.now)) (O.written out.old) (O.written out.new) result }
    ensures may_write_on { IfOk result (λ _. O.MayWrite out.new) }
    ensures counts { OutCounts (O.faults out.old) (O.faults out.new) result }
{
    let commenter = Commenter {
        grammar: &prepared.grammar,
        automaton: &prepared.tabled.automaton,
        table: &prepared.tabled.halting,
        expected: prepared.order.comment_expected,
    };
    let text = commenter.entry(alloc, row.start, row.sentence.as_slice())?;
    write_text(out, &text)
}

/// Writes the entries of the rows in order, each as soon as it is made.
pub(crate) fn write_entries<O: Sink, const W: usize>(
    alloc: Global,
    prepared: &Prepared<W>,
    rows: &[Row],
    out: &mut O,
) -> Result<(), Stop>
    requires few { W ≤ 8 }
    requires consistent { IsConsistent prepared.now }
    requires rows { AreFailingRows prepared.now.tabled.halting (rows_of rows.now) }
    requires may_write { O.MayWrite out.old }
    ensures text { WritesTextInParts (AreEntriesOf prepared.now (rows_of rows.now)) (O.written out.old) (O.written out.new) result }
    ensures counts { OutCounts (O.faults out.old) (O.faults out.new) result }
{
    let _facts = prepared.tabled.halting.table();
    for row in rows {
        match write_entry(alloc, prepared, row, out) {
            Ok(()) => {}
            Err(stop) => return Err(stop),
        }
    }
    Ok(())
}
