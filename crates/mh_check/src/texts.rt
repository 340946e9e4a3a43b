//! The texts of faults and of compiled messages. Each `write_` function appends to a text.
ghost use Rattle.std.specs.Prelude.{◌≡◌, ◌≤◌, ◌^◌, ◌++◌, length, decimal, IfOk, OnOk};
ghost use Rattle.mh_run.specs.Verdicts.{ending_for};
ghost use Rattle.mh_msgfile.specs.Messages.{ReportsFault as ReportsFileFault};
ghost use Rattle.mh_check.specs.Compiling.{ReportsCheckFault, message_at};
ghost use Rattle.mh_check.specs.Texts.{place_text, file_line, ending_text as ending_line, early_text, shared_state_text, check_line, state_header_text, message_text, compiled_text as compiled_lines};

use crate::compiled::Compiled;
use crate::compiling::CheckFault;
use mh_grammar::Memory;
use mh_msgfile::MsgFault;
use mh_run::Verdict;
use std::alloc::Global;

fn write_number(alloc: Global, text: &mut Vec<u8>, number: usize) -> Result<(), Memory>
    ensures { OnOk result (text.new.items ≡ text.old.items ++ decimal number) }
{
    let digits = format!(in alloc; "{number}")?;
    text.extend_from_slice(digits.as_bytes())?;
    Ok(())
}

/// Appends the beginning of the report of a fault: the file and the line.
#[tactic(auto, unfolding(crate::specs::Texts::place_text))]
fn write_place(alloc: Global, text: &mut Vec<u8>, name: &[u8], line: u32) -> Result<(), Memory>
    ensures { OnOk result (text.new.items ≡ text.old.items ++ place_text name.now line) }
{
    text.extend_from_slice(b"menhir: ")?;
    text.extend_from_slice(name)?;
    text.push(b':')?;
    write_number(alloc, text, line as usize)?;
    text.extend_from_slice(b": ")?;
    Ok(())
}

/// Appends the line that reports a fault of the messages file with this name.
fn write_file_fault(
    alloc: Global,
    text: &mut Vec<u8>,
    name: &[u8],
    fault: &MsgFault,
) -> Result<(), Memory>
    ensures { OnOk result (ReportsFileFault fault.now (λ found. text.new.items ≡ text.old.items ++ file_line name.now found)) }
{
    match fault {
        MsgFault::Shape { line } => {
            write_place(alloc, text, name, *line)?;
            text.extend_from_slice(b"shape\n")?;
            Ok(())
        }
        MsgFault::UnknownStart { line, name: start } => {
            write_place(alloc, text, name, *line)?;
            text.extend_from_slice(b"unknown start ")?;
            text.extend_from_slice(start.as_slice())?;
            text.push(b'\n')?;
            Ok(())
        }
        MsgFault::MissingStart { line } => {
            write_place(alloc, text, name, *line)?;
            text.extend_from_slice(b"missing start\n")?;
            Ok(())
        }
        MsgFault::UnknownToken { line, name: token } => {
            write_place(alloc, text, name, *line)?;
            text.extend_from_slice(b"unknown token ")?;
            text.extend_from_slice(token.as_slice())?;
            text.push(b'\n')?;
            Ok(())
        }
        MsgFault::Memory => Err(Memory),
    }
}

/// Returns the line for the error output that reports a fault of the messages file with this name. Fails if memory runs
/// out, or if the fault is that memory ran out.
pub fn file_fault_line(alloc: Global, name: &[u8], fault: &MsgFault) -> Result<Vec<u8>, Memory>
    ensures { IfOk result (λ text. ReportsFileFault fault.now (λ found. text.items ≡ file_line name.now found)) }
{
    let mut text = Vec::new(alloc);
    write_file_fault(alloc, &mut text, name, fault)?;
    Ok(text)
}

/// The text for a run that ends without a refusal; empty for a refusal.
pub fn ending_text(verdict: Verdict) -> &'static [u8]
    ensures { result.now ≡ ending_line (ending_for verdict) }
{
    match verdict {
        Verdict::Accept { .. } => b"not refused: ACCEPT\n",
        Verdict::Overshoot { .. } => b"not refused: OVERSHOOT\n",
        Verdict::Reject { .. } => b"",
    }
}

/// Appends the text that a sentence is refused at the token with this index, from 0, before its last token. Fails only
/// if memory runs out.
#[tactic(auto, unfolding(crate::specs::Texts::early_text))]
pub fn write_early(alloc: Global, text: &mut Vec<u8>, at: u32) -> Result<(), Memory>
    ensures { OnOk result (text.new.items ≡ text.old.items ++ early_text at) }
{
    text.extend_from_slice(b"refused early at index ")?;
    write_number(alloc, text, at as usize)?;
    text.push(b'\n')?;
    Ok(())
}

/// Appends the text that a sentence fails in the state in which the sentence of an earlier line fails. Fails only if
/// memory runs out.
#[tactic(auto, unfolding(crate::specs::Texts::shared_state_text))]
pub fn write_shared(alloc: Global, text: &mut Vec<u8>, state: u32, line: u32) -> Result<(), Memory>
    ensures { OnOk result (text.new.items ≡ text.old.items ++ shared_state_text state line) }
{
    text.extend_from_slice(b"state ")?;
    write_number(alloc, text, state as usize)?;
    text.extend_from_slice(b" is shared with line ")?;
    write_number(alloc, text, line as usize)?;
    text.push(b'\n')?;
    Ok(())
}

/// Appends the line that reports why the messages file with this name does not fit a table.
fn write_check_fault(
    alloc: Global,
    text: &mut Vec<u8>,
    name: &[u8],
    fault: &CheckFault,
) -> Result<(), Memory>
    ensures { OnOk result (ReportsCheckFault fault.now (λ found. text.new.items ≡ text.old.items ++ check_line name.now found)) }
{
    match fault {
        CheckFault::NotRefused { line, verdict } => {
            write_place(alloc, text, name, *line)?;
            text.extend_from_slice(ending_text(*verdict))?;
            Ok(())
        }
        CheckFault::RefusedEarly { line, at } => {
            write_place(alloc, text, name, *line)?;
            write_early(alloc, text, *at)?;
            Ok(())
        }
        CheckFault::SharedState {
            first,
            second,
            state,
        } => {
            write_place(alloc, text, name, *second)?;
            write_shared(alloc, text, *state, *first)?;
            Ok(())
        }
        CheckFault::Memory => Err(Memory),
    }
}

/// Returns the line for the error output that reports why the messages file with this name does not fit a table. Fails
/// if memory runs out, or if the fault is that memory ran out.
pub fn check_fault_line(alloc: Global, name: &[u8], fault: &CheckFault) -> Result<Vec<u8>, Memory>
    ensures { IfOk result (λ text. ReportsCheckFault fault.now (λ found. text.items ≡ check_line name.now found)) }
{
    let mut text = Vec::new(alloc);
    write_check_fault(alloc, &mut text, name, fault)?;
    Ok(text)
}

#[tactic(auto, unfolding(crate::specs::Texts::state_header_text))]
fn write_state(alloc: Global, text: &mut Vec<u8>, state: usize, size: usize) -> Result<(), Memory>
    ensures { OnOk result (text.new.items ≡ text.old.items ++ state_header_text state size) }
{
    text.extend_from_slice(b"state ")?;
    write_number(alloc, text, state)?;
    text.push(b' ')?;
    write_number(alloc, text, size)?;
    text.push(b'\n')?;
    Ok(())
}

/// Appends the message of a state, if it has one.
fn write_message(
    alloc: Global,
    text: &mut Vec<u8>,
    compiled: &Compiled,
    state: u32,
) -> Result<(), Memory>
    ensures { OnOk result (text.new.items ≡ text.old.items ++ message_text state (message_at compiled.now state)) }
{
    let Some(message) = compiled.message(state) else {
        return Ok(());
    };
    write_state(alloc, text, state as usize, message.len())?;
    text.extend_from_slice(message)?;
    Ok(())
}

/// Returns the messages of all states that have one, in ascending order: the number of the state, the size of its
/// message in bytes, and the message. Fails only if memory runs out.
pub fn compiled_text(alloc: Global, compiled: &Compiled) -> Result<Vec<u8>, Memory>
    requires { length compiled.now ≤ 2 ^ 32 }
    ensures { IfOk result (λ text. text.items ≡ compiled_lines compiled.now) }
{
    let mut text = Vec::new(alloc);
    for state in 0..compiled.states() {
        write_message(alloc, &mut text, compiled, state as u32)?;
    }
    Ok(text)
}
