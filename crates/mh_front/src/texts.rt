//! The lines that report why there is no grammar.
ghost use Rattle.std.specs.Prelude.{◌≡◌, ◌++◌, decimal, IfOk};
ghost use Rattle.mh_front.specs.Texts.{expand_text, grammar_fault_text, inline_text, join_text};

use crate::fault::GrammarFault;
use mh_expand::ExpandFault;
use mh_grammar::{Memory, Name};
use mh_inline::InlineFault;
use mh_join::JoinFault;
use std::alloc::Global;

/// The line with this text.
fn plain(alloc: Global, text: &[u8]) -> Result<Vec<u8>, Memory>
    ensures { IfOk result (λ line. line.items ≡ text.now) }
{
    let mut line = Vec::new(alloc);
    line.extend_from_slice(text)?;
    Ok(line)
}

/// The line with this text and a name after it.
fn named(alloc: Global, text: &[u8], name: &Name) -> Result<Vec<u8>, Memory>
    ensures { IfOk result (λ line. line.items ≡ text.now ++ name.now) }
{
    let mut line = plain(alloc, text)?;
    line.extend_from_slice(name.as_slice())?;
    Ok(line)
}

/// The line with this text and a number after it.
fn counted(alloc: Global, text: &[u8], count: u64) -> Result<Vec<u8>, Memory>
    ensures { IfOk result (λ line. line.items ≡ text.now ++ decimal count) }
{
    let mut line = plain(alloc, text)?;
    let digits = format!(in alloc; "{count}")?;
    line.extend_from_slice(digits.as_bytes())?;
    Ok(line)
}

fn join_line(alloc: Global, fault: &JoinFault) -> Result<Vec<u8>, Memory>
    ensures { IfOk result (λ line. line.items ≡ join_text fault.now) }
{
    match fault {
        JoinFault::Undefined { name } => named(alloc, b"undefined: ", name),
        JoinFault::Duplicate { name } => named(alloc, b"duplicate: ", name),
        JoinFault::NoStart => plain(alloc, b"no start symbol"),
        JoinFault::ErrorToken => plain(alloc, b"the error token is refused"),
        JoinFault::UnknownLevel { name } => named(alloc, b"unknown level: ", name),
        JoinFault::TooManyTokens { count } => counted(alloc, b"too many tokens: ", *count),
        JoinFault::Memory => plain(alloc, b"out of memory"),
    }
}

fn expand_line(alloc: Global, fault: &ExpandFault) -> Result<Vec<u8>, Memory>
    ensures { IfOk result (λ line. line.items ≡ expand_text fault.now) }
{
    match fault {
        ExpandFault::Arity { instance } => named(alloc, b"arity: ", instance),
        ExpandFault::Expansion { name } => named(alloc, b"expansion: ", name),
        ExpandFault::Memory => plain(alloc, b"out of memory"),
    }
}

fn inline_line(alloc: Global, fault: &InlineFault) -> Result<Vec<u8>, Memory>
    ensures { IfOk result (λ line. line.items ≡ inline_text fault.now) }
{
    match fault {
        InlineFault::InlineCycle { instance } => named(alloc, b"inline cycle: ", instance),
        InlineFault::InlineStart { name } => named(alloc, b"inline start: ", name),
        InlineFault::TooManyProductions => plain(alloc, b"too many productions"),
        InlineFault::EmptyLanguage { name } => named(alloc, b"empty language: ", name),
        InlineFault::Memory => plain(alloc, b"out of memory"),
    }
}

/// Returns the text that reports a fault, without the program's name before it and without the end of the line. A
/// program that reports lack of memory by its exit status alone does not need the text of `Memory`.
pub fn fault_line(alloc: Global, fault: &GrammarFault) -> Result<Vec<u8>, Memory>
    ensures { IfOk result (λ line. line.items ≡ grammar_fault_text fault.now) }
{
    match fault {
        GrammarFault::Join(fault) => join_line(alloc, fault),
        GrammarFault::Expand(fault) => expand_line(alloc, fault),
        GrammarFault::Inline(fault) => inline_line(alloc, fault),
        GrammarFault::Memory => plain(alloc, b"out of memory"),
    }
}
