//! The answer to a session line.
ghost use Rattle.std.specs.Prelude.{◌≡◌};
ghost use Rattle.mh_grammar.specs.Plain.{plain_of};
ghost use Rattle.mh_msgfile.specs.Sentences.{vocabulary_in, vocabulary_of};
ghost use Rattle.mh_session_branches.specs.Answers.{IsCommandOf};
ghost use Rattle.mh_session_branches.specs.LineForms.{Asks};
ghost use Rattle.mh_session.specs.LineAnswers.{IsLineAnswered};
ghost use Rattle.mh_session.specs.code.AnswerTexts.{IsMeaningAnswered};

use crate::naming::replying;
use crate::reading::read_command_by;
use crate::refusals::command_refusal;
use crate::session::Session;
use crate::texts::answer_text;
use mh_grammar::{Grammar, Memory};
use mh_msgfile::Lexicon;
use mh_session_branches::Command;
use std::alloc::Global;

/// Makes the session execute a command, and returns the text of its answer.
fn serve(
    alloc: Global,
    grammar: &Grammar,
    session: &mut Session<'_>,
    command: &Command,
) -> Result<Vec<u8>, Memory>
    requires { IsCommandOf session.old.table command.now }
    ensures answered { IsMeaningAnswered grammar.now (Asks command.now) session.old session.new result }
    ensures table { session.new.table ≡ session.old.table }
{
    let answer = session.step(command);
    let text = answer_text(alloc, grammar, replying(command), &answer);
    // The answer is dropped by one call, because the proof of drops field by field takes long.
    drop(answer);
    text
}

/// Returns the text that answers a line of a session on the table of a grammar; `lexicon` has the names of this
/// grammar. For all branches that the session represents, the text is computed from their histories, and then the
/// session represents the branches after the line. Fails only if memory runs out.
pub fn answer_line(
    alloc: Global,
    grammar: &Grammar,
    lexicon: &Lexicon,
    session: &mut Session<'_>,
    line: &[u8],
) -> Result<Vec<u8>, Memory>
    requires names { vocabulary_in lexicon.now ≡ vocabulary_of grammar.now }
    requires same { session.old.table.grammar ≡ plain_of grammar.now }
    ensures answered { IsLineAnswered grammar.now line.now session.old session.new result }
    ensures table { session.new.table ≡ session.old.table }
{
    match read_command_by(alloc, lexicon, line) {
        Ok(command) => {
            let text = serve(alloc, grammar, session, &command);
            drop(command);
            text
        }
        Err(fault) => {
            let text = command_refusal(alloc, &fault);
            drop(fault);
            text
        }
    }
}
