//! Runs in steps: checkpoints, which are immutable; and sessions, which store checkpoints by name.
ghost use Rattle.std.specs.Prelude.{◌≡◌, ◌<◌, ◌↔◌, ◌^◌, length, All, IfOk, IsTrue};
ghost use Rattle.mh_engine.specs.Phases.{CanResume};
ghost use Rattle.mh_grammar.specs.Plain.{plain_of, IsInRange};
ghost use Rattle.mh_session_branches.specs.Answers.{IsCommandOf};

use crate::making::{A, EOF};
use mh_engine::{Checkpoint, Phase, ResumeFault, begin};
use mh_expected::{TokenList, expected, expected_at};
use mh_grammar::{Grammar, Symbol, Token, symbol_name};
use mh_run::{Verdict, verdict};
use mh_session::{
    Command, CommandFault, Reply, Session, SessionFault, answer_all, one_answer, read_command,
};
use mh_tables::Halting;
use mh_tree::print_tree;
use std::alloc::Global;
use std::fmt::Write;
use std::process::Abort;
use std::test::Fail;

/// The checkpoint after a token is offered. A token is offered only if the checkpoint needs one.
fn offered<'t>(checkpoint: &Checkpoint<'t>, token: Token) -> Result<Checkpoint<'t>, Fail>
    requires { token < checkpoint.now.table.grammar.tokens }
    ensures { IfOk result (λ next. next.table ≡ checkpoint.now.table) }
{
    let phase = checkpoint.phase();
    let Phase::InputNeeded { state: _ } = phase else {
        return Err(Fail::from("no token is asked for"));
    };
    Ok(checkpoint.offer(token)?)
}

/// Returns true if a run can be resumed in this phase: before a shift, before a reduction, or at an error.
fn can_resume(phase: Phase) -> bool
    ensures { IsTrue result ↔ CanResume phase }
{
    match phase {
        Phase::Shifting { state: _, token: _ } => true,
        Phase::AboutToReduce {
            state: _,
            production: _,
        } => true,
        Phase::HandlingError { state: _ } => true,
        _ => false,
    }
}

/// The checkpoint after one more step.
fn resumed<'t>(alloc: Global, checkpoint: &Checkpoint<'t>) -> Result<Checkpoint<'t>, Fail>
    ensures { IfOk result (λ next. next.table ≡ checkpoint.now.table) }
{
    let phase = checkpoint.phase();
    if !can_resume(phase) {
        return Err(Fail::from("no step is to be made"));
    }
    match checkpoint.resume(alloc) {
        Ok(next) => Ok(next),
        Err(ResumeFault::TooDeep) => Err(Fail::from("too deep")),
        Err(ResumeFault::Memory) => Err(Fail::from("no memory")),
    }
}

/// The checkpoint after a token is offered and shifted.
fn shifted<'t>(
    alloc: Global,
    checkpoint: &Checkpoint<'t>,
    token: Token,
) -> Result<Checkpoint<'t>, Fail>
    requires { token < checkpoint.now.table.grammar.tokens }
    ensures { IfOk result (λ next. next.table ≡ checkpoint.now.table) }
{
    let asked = offered(checkpoint, token)?;
    let next = resumed(alloc, &asked);
    drop(asked);
    next
}

/// After `A EOF` the table reduces `s -> A EOF`, which is production 1, and then accepts.
fn check_end(rt: &impl Abort, alloc: Global, checkpoint: &Checkpoint<'_>) -> Result<(), Fail> {
    assert!(rt;
        checkpoint.phase()
            == Phase::AboutToReduce {
                state: 3,
                production: 1
            }
    );
    assert!(rt; checkpoint.tree().is_none());
    let end = resumed(alloc, checkpoint)?;
    let height = match end.tree() {
        Some(tree) => tree.height(),
        None => 0,
    };
    assert!(rt; end.phase() == Phase::Accepted && height == 2);
    drop(end);
    Ok(())
}

/// From a checkpoint after `A`, one branch is offered `A` and rejects it.
fn check_refusal(rt: &impl Abort, alloc: Global, checkpoint: &Checkpoint<'_>) -> Result<(), Fail>
    requires { 0 < checkpoint.now.table.grammar.tokens }
{
    let branch = checkpoint.fork()?;
    let asked = offered(&branch, A);
    drop(branch);
    let asked = asked?;
    assert!(rt; asked.phase() == Phase::HandlingError { state: 1 });
    let rejected = resumed(alloc, &asked);
    drop(asked);
    let rejected = rejected?;
    assert!(rt; rejected.phase() == Phase::Rejected);
    drop(rejected);
    Ok(())
}

/// After `A` the states of the stack are 0 and 1, and only `EOF` is expected.
fn check_expected(
    rt: &impl Abort,
    alloc: Global,
    table: &Halting,
    checkpoint: &Checkpoint<'_>,
) -> Result<(), Fail>
    requires { table.now ≡ checkpoint.now.table }
{
    let Phase::InputNeeded { state: _ } = checkpoint.phase() else {
        return Err(Fail::from("no token is asked for"));
    };
    let states = checkpoint.states(alloc)?;
    let is_stack = matches!(states.as_slice(), [0, 1]);
    drop(states);
    let tokens = expected_at(alloc, table, checkpoint)?;
    let is_end = tokens.get(0) == Some(EOF) && tokens.get(1).is_none();
    drop(tokens);
    assert!(rt; is_stack && is_end);
    Ok(())
}

/// The tokens that are expected after a sentence, whose verdict must be `Overshoot`.
fn expected_after(alloc: Global, table: &Halting, sentence: &[Token]) -> Result<TokenList, Fail>
    requires start { 0 < length table.now.grammar.starts }
    requires tokens { All (λ z. z < table.now.grammar.tokens) sentence.now }
    requires few { length sentence.now < 2 ^ 32 }
{
    match verdict(alloc, table, 0, sentence)? {
        Verdict::Overshoot { state: _ } => Ok(expected(alloc, table, 0, sentence)?),
        _ => Err(Fail::from("the sentence does not overshoot")),
    }
}

/// Before any token, only `A` is expected.
fn check_first(rt: &impl Abort, alloc: Global, table: &Halting) -> Result<(), Fail>
    requires { 0 < length table.now.grammar.starts }
{
    let tokens = expected_after(alloc, table, &[])?;
    let is_first = tokens.get(0) == Some(A) && tokens.get(1).is_none();
    drop(tokens);
    assert!(rt; is_first);
    Ok(())
}

/// The checkpoint after `A` is not changed by the steps of its branches.
fn check_branches(rt: &impl Abort, alloc: Global, checkpoint: &Checkpoint<'_>) -> Result<(), Fail>
    requires { 1 < checkpoint.now.table.grammar.tokens }
{
    check_refusal(rt, alloc, checkpoint)?;
    assert!(rt; checkpoint.phase() == Phase::InputNeeded { state: 1 });
    let whole = shifted(alloc, checkpoint, EOF)?;
    let result = check_end(rt, alloc, &whole);
    drop(whole);
    result
}

/// A run of the sentence `A EOF`, step by step.
pub fn checkpoints(rt: &impl Abort, alloc: Global, table: &Halting) -> Result<(), Fail> {
    if table.table().starts() < 1 || table.table().tokens() < 2 {
        return Err(Fail::from("a start and two tokens"));
    }
    check_first(rt, alloc, table)?;
    let first = begin(table, 0);
    let after = shifted(alloc, &first, A);
    drop(first);
    let after = after?;
    let result = match check_branches(rt, alloc, &after) {
        Ok(()) => check_expected(rt, alloc, table, &after),
        Err(fail) => Err(fail),
    };
    drop(after);
    result
}

/// Returns true if these numbers are numbers of tokens of the table.
fn are_tokens(table: &Halting, tokens: &[Token]) -> bool
    ensures { IsTrue result → All (λ z. z < table.now.grammar.tokens) tokens.now }
{
    let count = table.table().tokens();
    tokens.iter().all(|token| *token < count)
}

/// Returns true if the numbers in a command are numbers of the table.
fn is_known(table: &Halting, command: &Command) -> bool
    ensures { IsTrue result → IsCommandOf table.now command.now }
{
    match command {
        Command::Begin { name: _, start } => *start < table.table().starts(),
        Command::Offer { name: _, token } => *token < table.table().tokens(),
        Command::Feed { name: _, tokens } => are_tokens(table, tokens.as_slice()),
        Command::Resume { name: _ } => true,
        Command::Fork { name: _, fresh: _ } => true,
        Command::Show { name: _ } => true,
        Command::Stack { name: _ } => true,
        Command::Tree { name: _ } => true,
        Command::Expected { name: _ } => true,
        Command::Forget { name: _ } => true,
    }
}

/// Appends a phase as text.
fn put_phase(text: &mut String, phase: Phase) {
    let _ = match phase {
        Phase::InputNeeded { state } => write!(text, "input needed in {state}"),
        Phase::Shifting { state, token } => write!(text, "shifting {token} in {state}"),
        Phase::AboutToReduce { state, production } => write!(
            text,
            "reducing {production} in {state}"
        ),
        Phase::HandlingError { state } => write!(text, "error in {state}"),
        Phase::Accepted => text.push_str("accepted"),
        Phase::Rejected => text.push_str("rejected"),
    };
}

/// Appends expected tokens as text.
fn put_tokens(text: &mut String, tokens: &TokenList) {
    let _ = text.push_str("expected");
    for token in tokens.as_slice() {
        let _ = write!(text, " {token}");
    }
}

/// Appends the symbols of a stack as text.
fn put_symbols(text: &mut String, grammar: &Grammar, symbols: &[Symbol]) {
    let _ = text.push_str("stack");
    for symbol in symbols {
        let name = str::from_utf8(symbol_name(grammar, *symbol)).unwrap_or("no text");
        let _ = write!(text, " {name}");
    }
}

/// Appends a reply as text.
fn put_reply(
    alloc: Global,
    text: &mut String,
    grammar: &Grammar,
    reply: &Reply,
) -> Result<(), Fail> {
    match reply {
        Reply::Phase(phase) => put_phase(text, *phase),
        Reply::Fed { shifted, phase } => {
            let _ = write!(text, "fed {shifted}, ");
            put_phase(text, *phase);
        }
        Reply::Stack(symbols) => put_symbols(text, grammar, symbols.as_slice()),
        Reply::Tree(tree) => {
            let bytes = print_tree(alloc, grammar, tree)?;
            let _ = text.push_str(str::from_utf8(&bytes).unwrap_or("no text"));
            drop(bytes);
        }
        Reply::Expected(tokens) => put_tokens(text, tokens),
        Reply::Forgotten => {
            let _ = text.push_str("forgotten");
        }
    }
    Ok(())
}

/// Appends the reason why a command is refused. A refused command changes nothing.
fn put_refusal(text: &mut String, fault: SessionFault) {
    let _ = match fault {
        SessionFault::UnknownName => text.push_str("unknown name"),
        SessionFault::NameTaken => text.push_str("name taken"),
        SessionFault::WrongPhase { phase } => {
            put_phase(text, phase);
            text.push_str(" is the wrong phase")
        }
        SessionFault::TooDeep => text.push_str("too deep"),
        SessionFault::Memory => text.push_str("no memory"),
    };
}

/// Appends an answer as text.
fn put_answer(
    alloc: Global,
    text: &mut String,
    grammar: &Grammar,
    answer: &Result<Reply, SessionFault>,
) -> Result<(), Fail> {
    match answer {
        Ok(reply) => put_reply(alloc, text, grammar, reply),
        Err(fault) => {
            put_refusal(text, *fault);
            Ok(())
        }
    }
}

/// The command of a line.
fn command_of(alloc: Global, grammar: &Grammar, line: &str) -> Result<Command, Fail>
    requires { IsInRange (plain_of grammar.now) }
{
    match read_command(alloc, grammar, line.as_bytes()) {
        Ok(command) => Ok(command),
        Err(_) => Err(Fail::from("a line that is no command")),
    }
}

/// Appends the answer of the session to a command.
fn put_step(
    alloc: Global,
    text: &mut String,
    grammar: &Grammar,
    session: &mut Session<'_>,
    command: &Command,
) -> Result<(), Fail>
    requires { IsCommandOf session.old.table command.now }
    ensures { session.new.table ≡ session.old.table }
{
    let answer = session.step(command);
    let result = put_answer(alloc, text, grammar, &answer);
    drop(answer);
    result
}

/// Fails if the answer to a line is not the text after ` = `.
fn check_line(
    rt: &impl Abort,
    alloc: Global,
    grammar: &Grammar,
    table: &Halting,
    session: &mut Session<'_>,
    line: &str,
) -> Result<(), Fail>
    requires range { IsInRange (plain_of grammar.now) }
    requires table { session.old.table ≡ table.now }
    ensures { session.new.table ≡ session.old.table }
{
    let (asked, wanted) = line.split_once(" = ").ok_or("a line without an answer")?;
    let command = command_of(alloc, grammar, asked)?;
    let mut text = String::new(alloc);
    let result = if is_known(table, &command) {
        put_step(alloc, &mut text, grammar, session, &command)
    } else {
        Err(Fail::from("an unknown number"))
    };
    drop(command);
    assert_eq!(rt; text.as_str(), wanted, "{asked}");
    drop(text);
    result
}

/// A session, line by line.
pub fn lines_of_a_session(
    rt: &impl Abort,
    alloc: Global,
    grammar: &Grammar,
    table: &Halting,
) -> Result<(), Fail>
    requires { IsInRange (plain_of grammar.now) }
{
    let mut session = Session::new(alloc, table);
    let result = check_lines(rt, alloc, grammar, table, &mut session);
    drop(session);
    result
}

/// The first lines of a session with two branches: `a` is begun, and the fork `b` has the same history.
fn begun_and_forked(
    rt: &impl Abort,
    alloc: Global,
    grammar: &Grammar,
    table: &Halting,
    session: &mut Session<'_>,
) -> Result<(), Fail>
    requires range { IsInRange (plain_of grammar.now) }
    requires table { session.old.table ≡ table.now }
    ensures { session.new.table ≡ session.old.table }
{
    check_line(
        rt,
        alloc,
        grammar,
        table,
        session,
        "begin a = input needed in 0",
    )?;
    check_line(
        rt,
        alloc,
        grammar,
        table,
        session,
        "offer a A = shifting 0 in 0",
    )?;
    check_line(
        rt,
        alloc,
        grammar,
        table,
        session,
        "fork a b = shifting 0 in 0",
    )?;
    check_line(
        rt,
        alloc,
        grammar,
        table,
        session,
        "resume a = input needed in 1",
    )?;
    check_line(
        rt,
        alloc,
        grammar,
        table,
        session,
        "expected a = expected 1",
    )
}

/// The branch `a` continues to the end.
fn a_accepts(
    rt: &impl Abort,
    alloc: Global,
    grammar: &Grammar,
    table: &Halting,
    session: &mut Session<'_>,
) -> Result<(), Fail>
    requires range { IsInRange (plain_of grammar.now) }
    requires table { session.old.table ≡ table.now }
    ensures { session.new.table ≡ session.old.table }
{
    check_line(
        rt,
        alloc,
        grammar,
        table,
        session,
        "offer a EOF = shifting 1 in 1",
    )?;
    check_line(
        rt,
        alloc,
        grammar,
        table,
        session,
        "resume a = reducing 1 in 3",
    )?;
    check_line(rt, alloc, grammar, table, session, "resume a = accepted")?;
    check_line(
        rt,
        alloc,
        grammar,
        table,
        session,
        "resume b = input needed in 1",
    )
}

/// The branch `b` has a history of its own.
fn b_is_rejected(
    rt: &impl Abort,
    alloc: Global,
    grammar: &Grammar,
    table: &Halting,
    session: &mut Session<'_>,
) -> Result<(), Fail>
    requires range { IsInRange (plain_of grammar.now) }
    requires table { session.old.table ≡ table.now }
    ensures { session.new.table ≡ session.old.table }
{
    check_line(rt, alloc, grammar, table, session, "offer b A = error in 1")?;
    check_line(rt, alloc, grammar, table, session, "resume b = rejected")?;
    check_line(rt, alloc, grammar, table, session, "show b = rejected")?;
    check_line(
        rt,
        alloc,
        grammar,
        table,
        session,
        "offer b A = rejected is the wrong phase",
    )
}

/// Names that exist or do not exist, and the tree of `a`.
fn names_are_held(
    rt: &impl Abort,
    alloc: Global,
    grammar: &Grammar,
    table: &Halting,
    session: &mut Session<'_>,
) -> Result<(), Fail>
    requires range { IsInRange (plain_of grammar.now) }
    requires table { session.old.table ≡ table.now }
    ensures { session.new.table ≡ session.old.table }
{
    check_line(rt, alloc, grammar, table, session, "forget b = forgotten")?;
    check_line(
        rt,
        alloc,
        grammar,
        table,
        session,
        "resume b = unknown name",
    )?;
    check_line(rt, alloc, grammar, table, session, "begin a = name taken")?;
    check_line(
        rt,
        alloc,
        grammar,
        table,
        session,
        "begin b = input needed in 0",
    )?;
    check_line(
        rt,
        alloc,
        grammar,
        table,
        session,
        "feed b A A EOF = fed 1, error in 1",
    )?;
    check_line(rt, alloc, grammar, table, session, "stack b = stack A")?;
    check_line(rt, alloc, grammar, table, session, "tree a = [s: A EOF]")
}

/// A session with two branches, line by line. The fork `b` has the history of `a`, and then a history of its own.
fn check_lines(
    rt: &impl Abort,
    alloc: Global,
    grammar: &Grammar,
    table: &Halting,
    session: &mut Session<'_>,
) -> Result<(), Fail>
    requires range { IsInRange (plain_of grammar.now) }
    requires table { session.old.table ≡ table.now }
{
    begun_and_forked(rt, alloc, grammar, table, session)?;
    a_accepts(rt, alloc, grammar, table, session)?;
    b_is_rejected(rt, alloc, grammar, table, session)?;
    names_are_held(rt, alloc, grammar, table, session)
}

/// A line with a name that is not the name of a token.
pub fn unknown_token(rt: &impl Abort, alloc: Global, grammar: &Grammar) -> Result<(), Fail>
    requires { IsInRange (plain_of grammar.now) }
{
    match read_command(alloc, grammar, b"offer a Z") {
        Err(CommandFault::UnknownToken { name }) => {
            assert!(rt; name.as_slice() == "Z".as_bytes());
            drop(name);
            Ok(())
        }
        _ => Err(Fail::from("Z is no token")),
    }
}

/// Appends the commands of the first lines of the session.
fn add_commands(
    alloc: Global,
    commands: &mut Vec<Command>,
    grammar: &Grammar,
    lines: &str,
) -> Result<(), Fail>
    requires { IsInRange (plain_of grammar.now) }
{
    for line in lines.lines() {
        commands.push(command_of(alloc, grammar, line)?)?;
    }
    Ok(())
}

/// Returns true if the numbers in all commands are numbers of the table.
fn are_known(table: &Halting, commands: &[Command]) -> bool
    ensures { IsTrue result → All (IsCommandOf table.now) commands.now }
{
    match commands {
        [] => true,
        [command, rest @ ..] => is_known(table, command) && are_known(table, rest),
    }
}

/// The answers to a whole list of commands.
fn check_answers(
    rt: &impl Abort,
    alloc: Global,
    grammar: &Grammar,
    table: &Halting,
    commands: &[Command],
) -> Result<(), Fail> {
    if !are_known(table, commands) {
        return Err(Fail::from("an unknown number"));
    }
    let answers = answer_all(alloc, table, commands)?;
    let mut text = String::new(alloc);
    let result = put_last(alloc, &mut text, grammar, &answers);
    assert_eq!(rt; text.as_str(), "input needed in 1");
    drop(answers);
    drop(text);
    result
}

/// Appends the last of the answers.
fn put_last(
    alloc: Global,
    text: &mut String,
    grammar: &Grammar,
    answers: &[Result<Reply, SessionFault>],
) -> Result<(), Fail> {
    match answers {
        [.., last] => put_answer(alloc, text, grammar, last),
        [] => Err(Fail::from("no answers")),
    }
}

/// Commands on two branches. The last command is on `b`.
const COMMANDS: &str =
    "begin a\nbegin b\noffer a A\noffer b A\nresume a\noffer a A\nresume a\nresume b";

/// A law: the answer to each command depends only on the history of its own branch, whatever other branches did. Here
/// `a` has failed, and `b` continues. The law is the contract of `answer_all`, and `one_answer` says that the answer by
/// the histories is unique.
pub fn whole_session(
    rt: &impl Abort,
    alloc: Global,
    grammar: &Grammar,
    table: &Halting,
) -> Result<(), Fail>
    requires { IsInRange (plain_of grammar.now) }
{
    one_answer();
    let mut commands = Vec::new(alloc);
    let result = match add_commands(alloc, &mut commands, grammar, COMMANDS) {
        Ok(()) => check_answers(rt, alloc, grammar, table, &commands),
        Err(fail) => Err(fail),
    };
    drop(commands);
    result
}
