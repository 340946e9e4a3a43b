//! Writes the lines of findings in pieces, so that the whole text of a long list is never in memory.
ghost use Rattle.std.specs.Prelude.{◌≡◌, IfOk};
ghost use Rattle.std.specs.List.{All};
ghost use Rattle.mh_lint_findings.specs.Lines.{lines_of, lines_text};
ghost use Rattle.mh_lint_findings.specs.Positions.{IsPositionWithin};
ghost use Rattle.mh_lint_findings.specs.code.Cursors.{AreShort};
ghost use Rattle.mh_top_check.specs.code.WrittenPieces.{WritesFront, WritesInPieces};
ghost use Rattle.mh_top_drive.specs.code.ModeCalls.{OutCounts};

use mh_lint_findings::{Cursor, Finding, GrammarFile, write_finding};
use mh_outside::Sink;
use mh_top_drive::{Stop, write_text};
use std::alloc::Global;

/// The least length of a piece, in bytes. Only the last piece can be shorter.
const PIECE: usize = 65_536;

/// Writes a text and empties it, if it is long enough for a piece.
fn write_if_long<O: Sink>(text: &mut Vec<u8>, out: &mut O) -> Result<(), Stop>
    requires may_write { O.MayWrite out.old }
    ensures text { WritesFront text.old.items text.new.items (O.written out.old) (O.written out.new) result }
    ensures may_write_on { IfOk result (λ _. O.MayWrite out.new) }
    ensures counts { OutCounts (O.faults out.old) (O.faults out.new) result }
{
    if text.len() < PIECE {
        return Ok(());
    }
    match write_text(out, text) {
        Ok(()) => {
            text.clear();
            Ok(())
        }
        Err(stop) => Err(stop),
    }
}

/// Writes the lines of findings, in their order.
pub(crate) fn write_findings<O: Sink>(
    alloc: Global,
    files: &[GrammarFile],
    findings: &[Finding<'_>],
    out: &mut O,
) -> Result<(), Stop>
    requires short { AreShort files.now }
    requires within { All (λ found. IsPositionWithin files.now found.at) findings.now }
    requires may_write { O.MayWrite out.old }
    ensures text { WritesInPieces (lines_text files.now (lines_of findings.now)) (O.written out.old) (O.written out.new) result }
    ensures counts { OutCounts (O.faults out.old) (O.faults out.new) result }
{
    let mut text = Vec::new(alloc);
    let mut cursor = Cursor::new(0);
    for found in findings {
        write_finding(&mut text, files, &mut cursor, found)?;
        match write_if_long(&mut text, out) {
            Ok(()) => {}
            Err(stop) => return Err(stop),
        }
    }
    write_text(out, &text)
}
