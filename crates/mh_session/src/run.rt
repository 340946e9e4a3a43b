//! Answers to lists of commands.
ghost use Rattle.std.specs.Prelude.{◌≡◌, ◌↔◌, [], IfOk, OnOk, IsTrue, Err};
ghost use Rattle.mh_session_branches.specs.declared.reply.SessionFault.TheVariants as faults;
ghost use Rattle.std.specs.List.{All};
ghost use Rattle.mh_session_branches.specs.Answers.{IsCommandOf, AreAnswers};

use crate::session::Session;
use mh_grammar::Memory;
use mh_session_branches::{Command, Reply, SessionFault};
use mh_tables_core::Halting;
use std::alloc::Global;

/// Answers a list of commands, in a session that begins with no names. Each answer is computed from the history of the
/// branch that its command names; other branches have no effect on it. Fails only if memory runs out.
pub fn answer_all(
    alloc: Global,
    table: &Halting,
    commands: &[Command],
) -> Result<Vec<Result<Reply, SessionFault>>, Memory>
    requires { All (IsCommandOf table.now) commands.now }
    ensures { IfOk result (λ v. AreAnswers table.now [] commands.now v.items) }
{
    let mut session = Session::new(alloc, table);
    let mut answers = Vec::new(alloc);
    // Each value is dropped by one call, because the proof of drops field by field at the end of the scope takes long.
    match answer_each(&mut session, &mut answers, commands) {
        Ok(()) => {
            drop(session);
            Ok(answers)
        }
        Err(memory) => {
            drop(session);
            drop(answers);
            Err(memory)
        }
    }
}

/// Answers one command after another, in a session that has no names.
fn answer_each(
    session: &mut Session<'_>,
    so_far: &mut Vec<Result<Reply, SessionFault>>,
    commands: &[Command],
) -> Result<(), Memory>
    requires known { All (IsCommandOf session.old.table) commands.now }
    requires none { session.old.held ≡ [] }
    requires empty { so_far.old.items ≡ [] }
    ensures { OnOk result (AreAnswers session.old.table [] commands.now so_far.new.items) }
{
    for command in commands {
        let answer = session.step(command);
        if lacked_memory(&answer) {
            drop(answer);
            return Err(Memory);
        }
        so_far.push(answer)?;
    }
    Ok(())
}

fn lacked_memory(answer: &Result<Reply, SessionFault>) -> bool
    ensures { IsTrue result ↔ (answer.now ≡ Err faults.Memory) }
{
    matches!(answer, Err(SessionFault::Memory))
}
