//! Modes that ask for no line of the input and write only at their end.
ghost use Rattle.std.specs.Prelude.{◌≡◌};
ghost use Rattle.mh_top_drive.specs.code.OpenedModes.{OpenedModeRan, IsOpened};
ghost use Rattle.mh_top_drive.specs.code.ModeCalls.{InputAndOutCounts, EndIsWritten, ModeRan, OutCounts};
ghost use Rattle.mh_top_plans.specs.FinalText.{end_of_final_text};
ghost use Rattle.mh_top_plans.specs.Plan.{FinalOutput, Ends, IsFinalOutput, plan_behavior};
ghost use Rattle.mh_top_plans.specs.code.Modes.{WritesFinal};
ghost use Rattle.mh_top_plans.specs.declared.at_end.FinalText.TheVariants.{Written as Written'};

use mh_grammar::{Memory, Sequence};
use mh_outside::{Sink, Source};
use mh_top_drive::{Asks, Mode, Stop, drive, refusal, write_text};
use std::alloc::Global;

/// A mode that asks for no line, and writes only at its end. The call `write_at_end` runs it.
pub trait Writer {
    /// The precondition of writing.
    ghost is_ready: { Self → Type 0 } = { λ _. Unit {0} };

    /// What is written, as data.
    ghost end: { Self → FinalOutput };

    /// Writes the end, in one piece or in several, or stops the work.
    fn write<O: Sink>(self, alloc: Global, out: &mut O) -> Result<(), Stop>
        requires ready { is_ready self }
        requires may_write { O.MayWrite out.old }
        ensures text { EndIsWritten (IsFinalOutput (end self)) (O.written out.old) (O.written out.new) result }
        ensures counts { OutCounts (O.faults out.old) (O.faults out.new) result };
}

/// A writer, seen as a mode.
#[derive(Drop)]
struct WriterMode<T> {
    writer: T,
}

impl<T: Writer + Drop> Mode for WriterMode<T> {
    ghost use Rattle.std.specs.Prelude.{◌≡◌};
    ghost use Rattle.mh_top_plans.specs.Plan.{Plan, plan_behavior, Ends};

    ghost State = { Plan };

    ghost behavior = { plan_behavior };

    ghost Is = { λ s plan. T.is_ready s.writer × (plan ≡ Ends (T.end s.writer)) };

    fn asks(&self) -> Asks {
        Asks::NoLine
    }

    fn answer(&mut self, alloc: Global, _line: &[u8]) -> Result<Vec<u8>, Memory> {
        Ok(Vec::new(alloc))
    }

    fn end<O: Sink>(self, alloc: Global, out: &mut O) -> Result<(), Stop> {
        self.writer.write(alloc, out)
    }
}

/// Runs the mode of a writer.
pub fn write_at_end<I: Source, O: Sink, T: Writer + Drop>(
    alloc: Global,
    writer: T,
    input: &mut I,
    out: &mut O,
) -> Result<(), Stop>
    requires ready { T.is_ready writer }
    requires may_read { I.MayRead input.old }
    requires may_write { O.MayWrite out.old }
    ensures ran { ModeRan plan_behavior (Ends (T.end writer)) (I.left input.old) (I.left input.new)
        (O.written out.old) (O.written out.new) result }
    ensures counts { InputAndOutCounts (I.faults input.old) (I.faults input.new)
        (O.faults out.old) (O.faults out.new) result }
{
    drive(alloc, WriterMode { writer }, input, out)
}

/// The whole output of a mode that writes one text or refuses the work.
#[derive(Drop)]
pub enum FinalText {
    /// The text is written on out.
    Written { text: Sequence<u8> },
    /// Nothing is written on out. The work is refused with this line on err.
    Refusal { line: Sequence<u8> },
}

/// The final text that writes this on out.
pub fn written(text: Vec<u8>) -> FinalText
    ensures { result ≡ Written' text.items }
{
    FinalText::Written {
        text: Sequence::from_vec(text),
    }
}

/// Writes the final text of a mode, or refuses the work with its line.
pub fn write_final<O: Sink>(out: &mut O, made: FinalText) -> Result<(), Stop>
    requires may_write { O.MayWrite out.old }
    ensures text { EndIsWritten (λ e. e ≡ end_of_final_text made) (O.written out.old) (O.written out.new) result }
    ensures counts { OutCounts (O.faults out.old) (O.faults out.new) result }
{
    match made {
        FinalText::Written { text } => write_text(out, text.as_slice()),
        FinalText::Refusal { line } => Err(refusal(line)),
    }
}

/// The writer of a final text.
#[derive(Drop)]
struct FinalWriter {
    made: FinalText,
}

impl Writer for FinalWriter {
    ghost use Rattle.mh_top_plans.specs.FinalText.{end_of_final_text};
    ghost use Rattle.mh_top_plans.specs.Plan.{Known};

    ghost end = { λ s. Known (end_of_final_text s.made) };

    fn write<O: Sink>(self, _alloc: Global, out: &mut O) -> Result<(), Stop> {
        write_final(out, self.made)
    }
}

/// Runs the mode that writes a final text. If no text was made, the work stops, and nothing is written.
pub fn write_made<I: Source, O: Sink>(
    alloc: Global,
    made: Result<FinalText, Stop>,
    input: &mut I,
    out: &mut O,
) -> Result<(), Stop>
    requires some { IsOpened WritesFinal made }
    requires may_read { I.MayRead input.old }
    requires may_write { O.MayWrite out.old }
    ensures ran { OpenedModeRan plan_behavior WritesFinal made (I.left input.old) (I.left input.new)
        (O.written out.old) (O.written out.new) result }
    ensures counts { InputAndOutCounts (I.faults input.old) (I.faults input.new)
        (O.faults out.old) (O.faults out.new) result }
{
    match made {
        Ok(made) => write_at_end(alloc, FinalWriter { made }, input, out),
        Err(stop) => Err(stop),
    }
}
