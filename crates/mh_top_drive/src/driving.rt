//! Runs a mode over an input and an output: each line that the mode asks for is answered before the next is read, and
//! then the end of the mode is written. After a failed write nothing more is written and no further line is read.
ghost use Rattle.std.specs.Prelude.{◌≡◌, ◌<◌, ◌^◌, length, IfOk};
ghost use Rattle.mh_top_drive.specs.code.ModeCalls.{ModeRan, AnswerIsWritten, InputAndOutCounts, EndIsWritten, InputCounts, LineIsAnswered, LinesAreAnswered, NextLineIsRead, OutCounts, NoLineIsLeft, IsStopForLineFault, TextIsWritten};
ghost use Rattle.mh_top_drive.specs.code.OpenedModes.{OpenedModeRan, IsOpened};
ghost use Rattle.mh_grammar.specs.Text.{Text};
ghost use Rattle.mh_top_drive.specs.ModeBehavior.{ModeBehavior, max_lines as most_of};

use crate::stop::{Cause, Stop};
use mh_grammar::Memory;
use mh_outside::{LineFault, Sink, Source, read_line, write_whole};
use std::alloc::Global;

/// The longest input line, in bytes without the line feed: 1 MiB.
pub const LINE_LIMIT: usize = 1024 * 1024;

/// The highest number of lines of an input.
pub const MAX_LINES: usize = 1_000_000;

/// Which lines of the input a mode asks for.
#[derive(Clone, Copy)]
pub enum Asks {
    NoLine,
    FirstLine,
    EachLine,
}

impl Asks {
    /// The highest number of lines that the mode may ask for.
    fn most(self) -> usize
        ensures { result ≡ most_of self }
    {
        match self {
            Asks::NoLine => 0,
            Asks::FirstLine => 1,
            Asks::EachLine => MAX_LINES,
        }
    }
}

/// A mode of the program at work, between two lines of the input. Contracts describe by a plan what the mode will still
/// do; a plan is plain data of the type `State` (not a state of an automaton), and one value may have several plans.
pub trait Mode {
    /// The type of the plans of a mode between two lines.
    ghost State: { Type 0 };

    /// The behavior of the mode: which lines it asks for, how it answers a line, and what it writes at its end.
    ghost behavior: { ModeBehavior State };

    /// The relation between a value and its plans.
    ghost Is: { Self → State → Type 0 };

    /// Which lines the mode asks for.
    fn asks(&self) -> Asks
        ensures { (plan : State) → Is self.now plan → result ≡ behavior.asks_of plan };

    /// Gives the text that answers a line, and may change the mode.
    fn answer(&mut self, alloc: Global, line: &[u8]) -> Result<Vec<u8>, Memory>
        requires short { length line.now < 2 ^ 32 }
        requires some { (plan : State) × Is self.old plan }
        ensures { (plan : State) → Is self.old plan → (next : State) × Is self.new next × IfOk result (λ text.
            behavior.Answers plan line.now text.items next) };

    /// Writes the text after the answers, in one piece or in several, or stops the work.
    fn end<O: Sink>(self, alloc: Global, out: &mut O) -> Result<(), Stop>
        requires some { (plan : State) × Is self plan }
        requires may_write { O.MayWrite out.old }
        ensures text { (plan : State) → Is self plan → EndIsWritten (behavior.EndsWith plan) (O.written out.old) (O.written out.new) result }
        ensures counts { OutCounts (O.faults out.old) (O.faults out.new) result };
}

/// Writes a text on out. The only failure is `Stop::WriteFailed`, after a prefix of the text.
pub fn write_text<O: Sink>(out: &mut O, text: &[u8]) -> Result<(), Stop>
    requires may_write { O.MayWrite out.old }
    ensures text { TextIsWritten text.now (O.written out.old) (O.written out.new) result }
    ensures may_write_on { IfOk result (λ _. O.MayWrite out.new) }
    ensures counts { OutCounts (O.faults out.old) (O.faults out.new) result }
{
    match write_whole(out, text) {
        Ok(()) => Ok(()),
        Err(_) => Err(Stop::WriteFailed),
    }
}

/// The reason to stop the work for a fault of the input.
fn stop_of(fault: LineFault) -> Stop
    ensures { IsStopForLineFault fault result }
{
    match fault {
        LineFault::Failed => Stop::InputFailed,
        LineFault::TooBig => Stop::Halted {
            cause: Cause::LongInput,
        },
        LineFault::Memory => Stop::OutOfMemory,
    }
}

/// Writes the answer to a line.
fn answer_line<O: Sink, M: Mode>(
    alloc: Global,
    out: &mut O,
    mode: &mut M,
    line: &[u8],
) -> Result<(), Stop>
    requires short { length line.now < 2 ^ 32 }
    requires some { (plan : M.State) × M.Is mode.old plan }
    requires may_write { O.MayWrite out.old }
    ensures text { (plan : M.State) → M.Is mode.old plan → (next : M.State) × M.Is mode.new next × AnswerIsWritten M.behavior plan next line.now
        (O.written out.old) (O.written out.new) result }
    ensures may_write_on { IfOk result (λ _. O.MayWrite out.new) }
    ensures counts { OutCounts (O.faults out.old) (O.faults out.new) result }
{
    let text = mode.answer(alloc, line)?;
    write_text(out, &text)
}

/// Reads the next line; `None` at the end of the input.
fn next_line<I: Source>(alloc: Global, input: &mut I) -> Result<Option<Vec<u8>>, Stop>
    requires may_read { I.MayRead input.old }
    ensures line { NextLineIsRead (I.left input.old) (I.left input.new) result }
    ensures may_read_on { IfOk result (λ _. I.MayRead input.new) }
    ensures counts { InputCounts (I.faults input.old) (I.faults input.new) result }
{
    match read_line(alloc, input, LINE_LIMIT) {
        Ok(line) => Ok(line),
        Err(fault) => Err(stop_of(fault)),
    }
}

/// Reads the next line and writes its answer; false at the end of the input.
fn take_line<I: Source, O: Sink, M: Mode>(
    alloc: Global,
    input: &mut I,
    out: &mut O,
    mode: &mut M,
) -> Result<bool, Stop>
    requires some { (plan : M.State) × M.Is mode.old plan }
    requires may_read { I.MayRead input.old }
    requires may_write { O.MayWrite out.old }
    ensures ran { (plan : M.State) → M.Is mode.old plan → (next : M.State) × M.Is mode.new next × LineIsAnswered M.behavior plan next
        (I.left input.old) (I.left input.new) (O.written out.old) (O.written out.new) result }
    ensures may_read_on { IfOk result (λ _. I.MayRead input.new) }
    ensures may_write_on { IfOk result (λ _. O.MayWrite out.new) }
    ensures counts { InputAndOutCounts (I.faults input.old) (I.faults input.new)
        (O.faults out.old) (O.faults out.new) result }
{
    match next_line(alloc, input) {
        Ok(None) => Ok(false),
        Ok(Some(line)) => match answer_line(alloc, out, mode, &line) {
            Ok(()) => Ok(true),
            Err(stop) => Err(stop),
        },
        Err(stop) => Err(stop),
    }
}

/// Reads once more after the last line that an input may have. The work stops if there is a further line.
fn past_last<I: Source>(alloc: Global, input: &mut I) -> Result<(), Stop>
    requires may_read { I.MayRead input.old }
    ensures ran { NoLineIsLeft (I.left input.old) (I.left input.new) result }
    ensures counts { InputCounts (I.faults input.old) (I.faults input.new) result }
{
    match read_line(alloc, input, 0) {
        Ok(None) => Ok(()),
        Ok(Some(_)) => Err(Stop::Halted {
            cause: Cause::LongInput,
        }),
        Err(fault) => Err(stop_of(fault)),
    }
}

/// Reads and answers the lines that a mode asks for.
fn ask<I: Source, O: Sink, M: Mode>(
    alloc: Global,
    input: &mut I,
    out: &mut O,
    mode: &mut M,
) -> Result<(), Stop>
    requires some { (plan : M.State) × M.Is mode.old plan }
    requires may_read { I.MayRead input.old }
    requires may_write { O.MayWrite out.old }
    ensures ran { (plan : M.State) → M.Is mode.old plan → (next : M.State) × M.Is mode.new next × LinesAreAnswered M.behavior plan
        (I.left input.old) (I.left input.new) (O.written out.old) (O.written out.new) next result }
    ensures may_write_on { IfOk result (λ _. O.MayWrite out.new) }
    ensures counts { InputAndOutCounts (I.faults input.old) (I.faults input.new)
        (O.faults out.old) (O.faults out.new) result }
{
    let asks = mode.asks();
    for _ in 0..asks.most() {
        match take_line(alloc, input, out, mode) {
            Ok(true) => {}
            Ok(false) => return Ok(()),
            Err(stop) => return Err(stop),
        }
    }
    match asks {
        Asks::EachLine => past_last(alloc, input),
        Asks::FirstLine => Ok(()),
        Asks::NoLine => Ok(()),
    }
}

/// Runs an opened mode over the input and out. If the mode could not be opened, the work stops for that reason.
pub fn drive_opened<I: Source, O: Sink, M: Mode + Drop>(
    alloc: Global,
    opened: Result<M, Stop>,
    input: &mut I,
    out: &mut O,
) -> Result<(), Stop>
    requires some { IsOpened M.Is opened }
    requires may_read { I.MayRead input.old }
    requires may_write { O.MayWrite out.old }
    ensures ran { OpenedModeRan M.behavior M.Is opened (I.left input.old) (I.left input.new)
        (O.written out.old) (O.written out.new) result }
    ensures counts { InputAndOutCounts (I.faults input.old) (I.faults input.new)
        (O.faults out.old) (O.faults out.new) result }
{
    match opened {
        Ok(mode) => drive(alloc, mode, input, out),
        Err(stop) => Err(stop),
    }
}

/// Runs a mode over the input and out.
pub fn drive<I: Source, O: Sink, M: Mode + Drop>(
    alloc: Global,
    mode: M,
    input: &mut I,
    out: &mut O,
) -> Result<(), Stop>
    requires some { (plan : M.State) × M.Is mode plan }
    requires may_read { I.MayRead input.old }
    requires may_write { O.MayWrite out.old }
    ensures ran { (plan : M.State) → M.Is mode plan → ModeRan M.behavior plan (I.left input.old) (I.left input.new)
        (O.written out.old) (O.written out.new) result }
    ensures counts { InputAndOutCounts (I.faults input.old) (I.faults input.new)
        (O.faults out.old) (O.faults out.new) result }
{
    let mut mode = mode;
    match ask(alloc, input, out, &mut mode) {
        Ok(()) => mode.end(alloc, out),
        Err(stop) => Err(stop),
    }
}
