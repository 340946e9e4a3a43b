//! The mode of `--compare-errors`: the states for which the first messages file has a sentence and the second has none.
ghost use Rattle.std.specs.Prelude.{◌≡◌, ◌≤◌, IfOk};
ghost use Rattle.mh_check.specs.Compiling.{missing};
ghost use Rattle.mh_opts.specs.declared.jobs.Job.TheVariants.{CompareErrors};
ghost use Rattle.mh_top_plans.specs.Compared.{comparison_result};
ghost use Rattle.mh_top_plans.specs.Files.{IsNextFileOfJob};
ghost use Rattle.mh_top_plans.specs.MessagesFiles.{AreMessagesOfBoth};
ghost use Rattle.mh_top_plans.specs.code.Modes.{Opens, WritesFinal};
ghost use Rattle.mh_top_plans.specs.Plan.{IsPlanOfJob};
ghost use Rattle.mh_top_drive.specs.code.Prepared.{IsConsistent};
ghost use Rattle.mh_top_drive.specs.code.StageCalls.{FileStageGives, StageShelfCounts};

use mh_check::{Compiled, compare};
use mh_grammar::{Memory, Sequence};
use mh_outside::Shelf;
use mh_top_drive::{Prepared, Stop};
use mh_top_plans::{FinalText, read_messages_file};
use mh_update::missing_text;
use std::alloc::Global;

/// The final text for the states that the second file lacks.
fn text_for(alloc: Global, first: &[u8], second: &[u8], states: &[u32]) -> Result<FinalText, Memory>
    ensures { IfOk result (λ made. made ≡ comparison_result first.now second.now states.now) }
{
    if states.is_empty() {
        return Ok(FinalText::Written {
            text: Sequence::new(alloc),
        });
    }
    Ok(FinalText::Refusal {
        line: Sequence::from_vec(missing_text(alloc, first, second, states)?),
    })
}

/// The final text for two files, from their messages for the states of the table.
fn compared_text(
    alloc: Global,
    first: &[u8],
    second: &[u8],
    left: &Compiled,
    right: &Compiled,
) -> Result<FinalText, Memory>
    ensures { IfOk result (λ made. made ≡ comparison_result first.now second.now (missing left.now right.now)) }
{
    let states = compare(alloc, left, right)?;
    text_for(alloc, first, second, &states)
}

/// Reads and checks two messages files, the first before the second is read, and gives the messages of both.
fn read_both<F: Shelf, const W: usize>(
    alloc: Global,
    prepared: &Prepared<W>,
    shelf: &mut F,
    first: &[u8],
    second: &[u8],
) -> Result<(Compiled, Compiled), Stop>
    requires few { W ≤ 8 }
    requires consistent { IsConsistent prepared.now }
    requires asked { F.MayAsk shelf.old first.now × F.MayAsk shelf.old second.now }
    ensures both { FileStageGives (AreMessagesOfBoth (F.files shelf.old) prepared.now first.now second.now)
        (IsNextFileOfJob (CompareErrors first.now second.now) (F.files shelf.old) prepared.now) result }
    ensures counts { StageShelfCounts (F.faults shelf.old) (F.faults shelf.new) result }
    ensures kept { F.files shelf.new ≡ F.files shelf.old }
{
    let left = match read_messages_file(alloc, prepared, shelf, first) {
        Ok(left) => left,
        Err(stop) => return Err(stop),
    };
    match read_messages_file(alloc, prepared, shelf, second) {
        Ok(right) => Ok((left, right)),
        Err(stop) => Err(stop),
    }
}

/// Compares two messages files. The final text is a refusal if the first has a sentence for a state for which the
/// second has none.
pub fn compare_errors<F: Shelf, const W: usize>(
    alloc: Global,
    prepared: &Prepared<W>,
    shelf: &mut F,
    first: &[u8],
    second: &[u8],
) -> Result<FinalText, Stop>
    requires few { W ≤ 8 }
    requires consistent { IsConsistent prepared.now }
    requires asked { F.MayAsk shelf.old first.now × F.MayAsk shelf.old second.now }
    ensures opens { Opens WritesFinal
        (IsPlanOfJob (CompareErrors first.now second.now) (F.files shelf.old) prepared.now)
        (IsNextFileOfJob (CompareErrors first.now second.now) (F.files shelf.old) prepared.now) result }
    ensures counts { StageShelfCounts (F.faults shelf.old) (F.faults shelf.new) result }
    ensures kept { F.files shelf.new ≡ F.files shelf.old }
{
    match read_both(alloc, prepared, shelf, first, second) {
        Ok((left, right)) => Ok(compared_text(alloc, first, second, &left, &right)?),
        Err(stop) => Err(stop),
    }
}
