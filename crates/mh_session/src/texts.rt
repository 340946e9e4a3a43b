//! The texts of replies and faults. Each `write_` function appends to a text.
ghost use Rattle.std.specs.Prelude.{◌≡◌, ◌++◌, Err, IfOk, OnOk, codes, decimal};
ghost use Rattle.mh_session_branches.specs.Replies.{phase_word as word_of, phase_details, reply_text, fault_text, answer_text as answer_text'};
ghost use Rattle.mh_grammar.specs.Trees.{tree_text};
ghost use Rattle.mh_grammar_texts.specs.Productions.{spaced_symbols};
ghost use Rattle.mh_msgfile.specs.FileTexts.{names_after};
ghost use Rattle.mh_session.specs.code.AnswerTexts.{IsAnswerText};
ghost use Rattle.mh_session_branches.specs.declared.reply.SessionFault.TheVariants as faults;

use mh_engine::Phase;
use mh_grammar::{Grammar, Memory, Symbol, Token, token_name};
use mh_grammar_texts::{
    write_between, write_names as write_symbols, write_number, write_production,
};
use mh_msgfile::write_names;
use mh_session_branches::{Reply, SessionFault};
use mh_tree::{Tree, print_tree};
use std::alloc::Global;

/// The word of a phase.
fn phase_word(phase: Phase) -> &'static [u8]
    ensures { result.now ≡ word_of phase }
{
    match phase {
        Phase::InputNeeded { .. } => b"input-needed",
        Phase::Shifting { .. } => b"shifting",
        Phase::AboutToReduce { .. } => b"about-to-reduce",
        Phase::HandlingError { .. } => b"handling-error",
        Phase::Accepted => b"accepted",
        Phase::Rejected => b"rejected",
    }
}

/// Appends the state of a phase, and its token or production, each after a space.
fn write_phase_details(text: &mut Vec<u8>, grammar: &Grammar, phase: Phase) -> Result<(), Memory>
    ensures { OnOk result (text.new.items ≡ text.old.items ++ phase_details grammar.now phase) }
{
    match phase {
        Phase::InputNeeded { state } => {
            text.push(b' ')?;
            write_number(text, state)
        }
        Phase::Shifting { state, token } => {
            write_between(text, b" ", state, b" ")?;
            text.extend_from_slice(token_name(grammar, token))?;
            Ok(())
        }
        Phase::AboutToReduce { state, production } => {
            write_between(text, b" ", state, b" ")?;
            write_production(text, grammar, production)
        }
        Phase::HandlingError { state } => {
            text.push(b' ')?;
            write_number(text, state)
        }
        Phase::Accepted => Ok(()),
        Phase::Rejected => Ok(()),
    }
}

/// Appends the word of a phase and its details.
fn write_phase(text: &mut Vec<u8>, grammar: &Grammar, phase: Phase) -> Result<(), Memory>
    ensures { OnOk result (text.new.items ≡ text.old.items ++ codes " " ++ word_of phase ++ phase_details grammar.now phase ++ codes "\n") }
{
    text.push(b' ')?;
    text.extend_from_slice(phase_word(phase))?;
    write_phase_details(text, grammar, phase)?;
    text.push(b'\n')?;
    Ok(())
}

/// Appends the number of tokens that were shifted.
fn write_shifted(alloc: Global, text: &mut Vec<u8>, shifted: usize) -> Result<(), Memory>
    ensures { OnOk result (text.new.items ≡ text.old.items ++ codes " fed " ++ decimal shifted) }
{
    let number = format!(in alloc; " fed {shifted}")?;
    text.extend_from_slice(number.as_bytes())?;
    Ok(())
}

/// Appends the symbols on a stack.
fn write_stack(text: &mut Vec<u8>, grammar: &Grammar, symbols: &[Symbol]) -> Result<(), Memory>
    ensures { OnOk result (text.new.items ≡ text.old.items ++ codes " stack" ++ spaced_symbols grammar.now symbols.now ++ codes "\n") }
{
    text.extend_from_slice(b" stack")?;
    write_symbols(text, grammar, symbols)?;
    text.push(b'\n')?;
    Ok(())
}

/// Appends a tree on one line.
fn write_tree(
    alloc: Global,
    text: &mut Vec<u8>,
    grammar: &Grammar,
    tree: &Tree,
) -> Result<(), Memory>
    ensures { OnOk result (text.new.items ≡ text.old.items ++ codes " " ++ tree_text grammar.now tree.now ++ codes "\n") }
{
    let shown = print_tree(alloc, grammar, tree)?;
    text.push(b' ')?;
    text.extend_from_slice(&shown)?;
    text.push(b'\n')?;
    Ok(())
}

/// Appends the names of the expected tokens.
fn write_expected(text: &mut Vec<u8>, grammar: &Grammar, tokens: &[Token]) -> Result<(), Memory>
    ensures { OnOk result (text.new.items ≡ text.old.items ++ codes " expected" ++ names_after grammar.now tokens.now ++ codes "\n") }
{
    text.extend_from_slice(b" expected")?;
    write_names(text, grammar, tokens)?;
    text.push(b'\n')?;
    Ok(())
}

/// Appends the name of the branch, and then the reply.
fn write_reply(
    alloc: Global,
    text: &mut Vec<u8>,
    grammar: &Grammar,
    name: &[u8],
    reply: &Reply,
) -> Result<(), Memory>
    ensures { OnOk result (text.new.items ≡ text.old.items ++ reply_text grammar.now name.now reply.now) }
{
    text.extend_from_slice(name)?;
    match reply {
        Reply::Phase(phase) => write_phase(text, grammar, *phase),
        Reply::Fed { shifted, phase } => {
            write_shifted(alloc, text, *shifted)?;
            write_phase(text, grammar, *phase)
        }
        Reply::Stack(symbols) => write_stack(text, grammar, symbols.as_slice()),
        Reply::Tree(tree) => write_tree(alloc, text, grammar, tree),
        Reply::Expected(tokens) => write_expected(text, grammar, tokens.as_slice()),
        Reply::Forgotten => Ok(text.extend_from_slice(b" forgotten\n")?),
    }
}

fn write_wrong_phase(text: &mut Vec<u8>, phase: Phase) -> Result<(), Memory>
    ensures { OnOk result (text.new.items ≡ text.old.items ++ codes "error: wrong phase: " ++ word_of phase ++ codes "\n") }
{
    text.extend_from_slice(b"error: wrong phase: ")?;
    text.extend_from_slice(phase_word(phase))?;
    text.push(b'\n')?;
    Ok(())
}

/// Appends the text of a fault; fails if the fault is that memory ran out.
fn write_fault(text: &mut Vec<u8>, fault: SessionFault) -> Result<(), Memory>
    ensures text { OnOk result (text.new.items ≡ text.old.items ++ fault_text fault) }
    ensures memory { OnOk result (fault ≡ faults.Memory → ⊥) }
{
    match fault {
        SessionFault::UnknownName => Ok(text.extend_from_slice(b"error: unknown name\n")?),
        SessionFault::NameTaken => Ok(text.extend_from_slice(b"error: name taken\n")?),
        SessionFault::WrongPhase { phase } => write_wrong_phase(text, phase),
        SessionFault::TooDeep => Ok(text.extend_from_slice(b"error: too deep\n")?),
        SessionFault::Memory => Err(Memory),
    }
}

/// Appends the text of an answer on the branch of this name. Fails only if memory runs out, or if the answer is that
/// memory ran out.
fn write_answer(
    alloc: Global,
    text: &mut Vec<u8>,
    grammar: &Grammar,
    name: &[u8],
    answer: &Result<Reply, SessionFault>,
) -> Result<(), Memory>
    ensures text { OnOk result (text.new.items ≡ text.old.items ++ answer_text' grammar.now name.now answer.now) }
    ensures memory { OnOk result (answer.now ≡ Err faults.Memory → ⊥) }
{
    match answer {
        Ok(reply) => write_reply(alloc, text, grammar, name, reply),
        Err(fault) => write_fault(text, *fault),
    }
}

/// The text of an answer on the branch of this name. Fails only if memory runs out, or if the answer is that memory ran
/// out.
pub(crate) fn answer_text(
    alloc: Global,
    grammar: &Grammar,
    name: &[u8],
    answer: &Result<Reply, SessionFault>,
) -> Result<Vec<u8>, Memory>
    ensures { IfOk result (λ text. IsAnswerText grammar.now name.now answer.now text.items) }
{
    let mut text = Vec::new(alloc);
    write_answer(alloc, &mut text, grammar, name, answer)?;
    Ok(text)
}
