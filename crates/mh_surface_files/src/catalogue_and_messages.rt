//! Lists of errors and messages: the states that refuse a token, the first sentence that fails in each, and a message
//! for each.
ghost use Rattle.std.specs.Prelude.{◌≡◌, ◌≤◌, ◌<◌, length, IfOk};
ghost use Rattle.mh_reach.specs.Coming.{FirstComing};
ghost use Rattle.mh_grammar.specs.Plain.{plain_of, IsInRange};
ghost use Rattle.mh_items_kernels.specs.Automaton.{IsAutomaton};
ghost use Rattle.mh_msgfile.specs.LooseFiles.{HasShortLines};
ghost use Rattle.mh_msgfile.specs.Messages.{AreSentencesOf};
ghost use Rattle.mh_resolve_cells.specs.States.{IsTableOf};
ghost use Rattle.mh_resolve_cells.specs.declared.kinds.Mode.TheVariants.{Merged};
ghost use Rattle.mh_tables_core.specs.Failing.{Fails};

use crate::texts::check_written;
use mh_catalogue::{CatalogueFault, Row, catalogue};
use mh_check::{CheckFault, Compiled, compare, compile};
use mh_grammar::{Grammar, Memory, Sentence, Token};
use mh_items::Automaton;
use mh_lint_messages::error_lines;
use mh_msgfile::{
    Entry, LooseBlocks, LooseFile, MsgFault, MsgFile, MsgSentence, SentenceFault, print_messages,
    read_blocks, read_loose, read_messages, read_sentence,
};
use mh_reach::{Reach, reach};
use mh_rebase::rebase;
use mh_report::{Commenter, comment_lines};
use mh_run::Verdict;
use mh_surface::{A, EOF};
use mh_tables::Halting;
use mh_update::{echo, update};
use std::alloc::Global;
use std::process::Abort;
use std::test::Fail;

/// The least cost of a sentence that fails in a state; none if no sentence does. Each token costs 1 here.
fn cost_in(reach: &Reach, state: u32) -> Option<u32>
    requires { 4 ≤ length reach.now.states }
{
    if state < 4 {
        reach.cost_of(state)
    } else {
        None
    }
}

/// `EOF` fails in state 0, and `A A` in state 1. States 2 and 3 have default actions and refuse nothing.
fn check_costs(rt: &impl Abort, reach: &Reach)
    requires { 4 ≤ length reach.now.states }
{
    let found = [
        cost_in(reach, 0),
        cost_in(reach, 1),
        cost_in(reach, 2),
        cost_in(reach, 3),
    ];
    assert!(rt; found == [Some(1), Some(2), None, None]);
}

/// The highest cost of a sentence in the catalogue.
const MAX_COST: u32 = 1_000_000;

/// The first sentence that fails in a state.
fn sentence_in(alloc: Global, reach: &Reach, state: u32) -> Result<Sentence, Fail>
    requires { state < length reach.now.states }
    ensures { IfOk result (λ sentence. Fails reach.now sentence.start sentence.tokens state) }
{
    match reach.cost_of(state) {
        None => Err(Fail::from("no sentence fails in the state")),
        Some(cost) => {
            if cost > MAX_COST {
                return Err(Fail::from("a long sentence"));
            }
            match reach.sentence_of(alloc, state) {
                Ok(sentence) => Ok(sentence),
                Err(Memory) => Err(Fail::from("no memory")),
            }
        }
    }
}

/// The least cost of a sentence that comes to a state with a token next; none if no sentence does.
fn cost_before(reach: &Reach, state: u32, token: Token) -> Option<u32> {
    let table = reach.table().table();
    if state < table.states() && token < table.tokens() {
        reach.cost_to(state, token)
    } else {
        None
    }
}

/// The first sentence that comes to a state with a token next.
fn sentence_before(alloc: Global, reach: &Reach, state: u32, token: Token) -> Result<Sentence, Fail>
    requires state { state < length reach.now.states }
    requires token { token < reach.now.grammar.tokens }
    ensures { IfOk result (λ sentence. FirstComing reach.now sentence.start sentence.tokens state token) }
{
    match reach.cost_to(state, token) {
        None => Err(Fail::from("no sentence comes to the state")),
        Some(cost) => {
            if cost > MAX_COST {
                return Err(Fail::from("a long sentence"));
            }
            match reach.sentence_to(alloc, state, token) {
                Ok(sentence) => Ok(sentence),
                Err(Memory) => Err(Fail::from("no memory")),
            }
        }
    }
}

/// The empty sentence comes to state 0 with each token next, and `A` to state 1. `A EOF` comes to state 2, after the
/// reduction to `s` that the default of state 3 makes. There is no state 4.
fn check_comings(rt: &impl Abort, alloc: Global, reach: &Reach) -> Result<(), Fail>
    requires states { 4 ≤ length reach.now.states }
    requires tokens { 2 ≤ reach.now.grammar.tokens }
{
    let costs = [
        cost_before(reach, 0, EOF),
        cost_before(reach, 1, A),
        cost_before(reach, 2, A),
        cost_before(reach, 4, A),
    ];
    assert!(rt; costs == [Some(0), Some(1), Some(2), None]);
    let sentence = sentence_before(alloc, reach, 1, EOF)?;
    assert!(rt; sentence.start == 0 && sentence.tokens.as_slice() == [A].as_slice());
    drop(sentence);
    Ok(())
}

/// Checks the sentences that come to the states, and then returns the first sentence that fails in state 1.
fn found_sentence(rt: &impl Abort, alloc: Global, reach: &Reach) -> Result<Sentence, Fail>
    requires states { 4 ≤ length reach.now.states }
    requires tokens { 2 ≤ reach.now.grammar.tokens }
    ensures { IfOk result (λ sentence. Fails reach.now sentence.start sentence.tokens 1) }
{
    check_comings(rt, alloc, reach)?;
    sentence_in(alloc, reach, 1)
}

/// The comment lines of state 1.
const COMMENT: &str = "##
## Ends in an error in state: 1.
##
## s -> A . EOF [ # ]
##
## The known suffix of the stack is as follows:
## A
##
";

/// A sentence that fails in a state, and the comment lines that explain this state.
fn check_sentence(
    rt: &impl Abort,
    alloc: Global,
    grammar: &Grammar,
    automaton: &Automaton<1>,
    table: &Halting,
    sentence: &Sentence,
) -> Result<(), Fail>
    requires automaton { IsAutomaton (plain_of grammar.now) automaton.now }
    requires table { IsTableOf grammar.now automaton.now Merged table.now }
    requires fails { Fails table.now sentence.now.start sentence.now.tokens 1 }
{
    let tokens = sentence.tokens.as_slice();
    assert!(rt; sentence.start == 0 && tokens == [A, A].as_slice());
    let text = comment_lines(alloc, grammar, automaton, table, sentence.start, tokens)?;
    check_written(rt, text, COMMENT);
    Ok(())
}

/// The entry of state 1, with the expected tokens.
const ENTRY: &str = "s: A A
##
## Ends in an error in state: 1.
##
## s -> A . EOF [ # ]
##
## The known suffix of the stack is as follows:
## A
##
## Expected: EOF

<YOUR SYNTAX ERROR MESSAGE HERE>

";

/// The comment lines with the expected tokens, and the entry, of a sentence that fails in state 1.
fn check_entry_text(
    rt: &impl Abort,
    alloc: Global,
    commenter: &Commenter<'_, 1>,
    sentence: &Sentence,
) -> Result<(), Fail>
    requires automaton { IsAutomaton (plain_of commenter.now.grammar.now) commenter.now.automaton.now }
    requires table { IsTableOf commenter.now.grammar.now commenter.now.automaton.now Merged commenter.now.table.now }
    requires fails { Fails commenter.now.table.now sentence.now.start sentence.now.tokens 1 }
{
    let tokens = sentence.tokens.as_slice();
    assert!(rt; tokens == [A, A].as_slice());
    let comments = commenter.comments(alloc, sentence.start, tokens)?;
    let ends = comments.ends_with(b"## Expected: EOF\n");
    drop(comments);
    let entry = commenter.entry(alloc, sentence.start, tokens)?;
    check_written(rt, entry, ENTRY);
    assert!(rt; ends);
    Ok(())
}

/// All texts on a sentence that fails in state 1.
fn check_texts(
    rt: &impl Abort,
    alloc: Global,
    commenter: &Commenter<'_, 1>,
    sentence: &Sentence,
) -> Result<(), Fail>
    requires automaton { IsAutomaton (plain_of commenter.now.grammar.now) commenter.now.automaton.now }
    requires table { IsTableOf commenter.now.grammar.now commenter.now.automaton.now Merged commenter.now.table.now }
    requires fails { Fails commenter.now.table.now sentence.now.start sentence.now.tokens 1 }
{
    check_entry_text(rt, alloc, commenter, sentence)?;
    let (grammar, automaton, table) = (commenter.grammar, commenter.automaton, commenter.table);
    check_sentence(rt, alloc, grammar, automaton, table, sentence)
}

/// The search for failing sentences, and its results.
pub fn search(
    rt: &impl Abort,
    alloc: Global,
    grammar: &Grammar,
    automaton: &Automaton<1>,
    table: &Halting,
) -> Result<(), Fail>
    requires automaton { IsAutomaton (plain_of grammar.now) automaton.now }
    requires table { IsTableOf grammar.now automaton.now Merged table.now }
{
    if table.table().states() < 4 || table.table().tokens() < 2 {
        return Err(Fail::from("four states and two tokens"));
    }
    let found = reach(alloc, table)?;
    check_costs(rt, &found);
    let sentence = found_sentence(rt, alloc, &found);
    drop(found);
    let sentence = sentence?;
    let commenter = Commenter {
        grammar,
        automaton,
        table,
        expected: true,
    };
    let result = check_texts(rt, alloc, &commenter, &sentence);
    drop(sentence);
    result
}

fn is_row(row: &Row, state: u32, sentence: &[u16]) -> bool {
    row.state == state && row.start == 0 && row.sentence.as_slice() == sentence
}

/// The catalogue: a row for each state in which some sentence fails.
pub fn rows(rt: &impl Abort, alloc: Global, table: &Halting) -> Result<(), Fail> {
    let rows = match catalogue(alloc, table) {
        Ok(rows) => rows,
        Err(CatalogueFault::TooLong { state: _ }) => return Err(Fail::from("too long")),
        Err(CatalogueFault::Memory) => return Err(Fail::from("no memory")),
    };
    let are_wanted = match rows.as_slice() {
        [first, second] => is_row(first, 0, &[EOF]) && is_row(second, 1, &[A, A]),
        _ => false,
    };
    drop(rows);
    assert!(rt; are_wanted);
    Ok(())
}

/// A sentence line is a start symbol, a colon and names of tokens. The start symbol and the colon may be left out if
/// there is only one start symbol.
pub fn sentence_lines(rt: &impl Abort, alloc: Global, grammar: &Grammar) -> Result<(), Fail>
    requires { IsInRange (plain_of grammar.now) }
{
    let Ok(sentence) = read_sentence(alloc, grammar, b"s: A EOF") else {
        return Err(Fail::from("a sentence"));
    };
    assert!(rt; sentence.start == 0 && sentence.tokens.as_slice() == [A, EOF].as_slice());
    drop(sentence);
    match read_sentence(alloc, grammar, b"A Z") {
        Err(SentenceFault::UnknownToken { name }) => {
            assert!(rt; name.as_slice() == "Z".as_bytes());
            drop(name);
            Ok(())
        }
        _ => Err(Fail::from("Z is no token")),
    }
}

/// A messages file with two entries. Lines that begin with `#` are comments.
const MESSAGES: &str = "# by hand
EOF

Expected A.

A A

Expected EOF.
";

/// The messages file that a text spells.
fn messages_of(alloc: Global, grammar: &Grammar, text: &str) -> Result<MsgFile, Fail>
    requires { IsInRange (plain_of grammar.now) }
    ensures { IfOk result (AreSentencesOf (length grammar.now.starts) (length grammar.now.tokens)) }
{
    if text.len() > 1_000_000 {
        return Err(Fail::from("a long file"));
    }
    match read_messages(alloc, text.as_bytes(), grammar) {
        Ok(file) => Ok(file),
        Err(MsgFault::Shape { line: _ }) => Err(Fail::from("a block without its message")),
        Err(_) => Err(Fail::from("a line that is no sentence")),
    }
}

/// The second entry: its sentence is on line 6.
fn check_entry(rt: &impl Abort, file: &MsgFile) -> Result<(), Fail> {
    let entry: &Entry = file.entries.get(1).ok_or("no second entry")?;
    let sentence: &MsgSentence = entry.sentences.get(0).ok_or("no sentence")?;
    assert!(rt; sentence.line == 6 && sentence.tokens.as_slice() == [A, A].as_slice());
    assert!(rt; entry.message.as_slice() == "Expected EOF.\n".as_bytes() && file.lines.len() == 8);
    Ok(())
}

/// The messages file is printed without its comments; `echo` prints only its sentences.
fn check_prints(
    rt: &impl Abort,
    alloc: Global,
    grammar: &Grammar,
    file: &MsgFile,
) -> Result<(), Fail> {
    let text = print_messages(alloc, grammar, file)?;
    let wanted = "s: EOF\n\nExpected A.\n\ns: A A\n\nExpected EOF.\n\n";
    check_written(rt, text, wanted);
    let text = echo(alloc, grammar, file)?;
    check_written(rt, text, "s: EOF\ns: A A\n");
    Ok(())
}

/// The updated file: each sentence is followed by its comment lines.
const UPDATED: &str = "# by hand
EOF
##
## Ends in an error in state: 0.
##
## s' -> . s [ # ]
##
## The known suffix of the stack is as follows:
##
##

Expected A.

A A
##
## Ends in an error in state: 1.
##
## s -> A . EOF [ # ]
##
## The known suffix of the stack is as follows:
## A
##

Expected EOF.
";

fn check_update(
    rt: &impl Abort,
    alloc: Global,
    grammar: &Grammar,
    automaton: &Automaton<1>,
    table: &Halting,
    file: &MsgFile,
) -> Result<(), Fail>
    requires automaton { IsAutomaton (plain_of grammar.now) automaton.now }
    requires table { IsTableOf grammar.now automaton.now Merged table.now }
    requires known { AreSentencesOf (length grammar.now.starts) (length grammar.now.tokens) file.now }
{
    let Ok(text) = update(alloc, grammar, automaton, table, file, false) else {
        return Err(Fail::from("a file that does not fit"));
    };
    check_written(rt, text, UPDATED);
    Ok(())
}

/// The rebased file: an entry is kept, one is new, and one was dropped with its message.
const REBASED: &str = "s: EOF
##
## Ends in an error in state: 0.
##
## s' -> . s [ # ]
##
## The known suffix of the stack is as follows:
##
##

Expected A.

s: A A
##
## Ends in an error in state: 1.
##
## s -> A . EOF [ # ]
##
## The known suffix of the stack is as follows:
## A
##

<YOUR SYNTAX ERROR MESSAGE HERE>

# dropped 5: unknown token Z
# Gone.
";

/// A messages file for a grammar with another token, rebased onto the grammar.
fn check_rebase(
    rt: &impl Abort,
    alloc: Global,
    grammar: &Grammar,
    automaton: &Automaton<1>,
    table: &Halting,
) -> Result<(), Fail>
    requires automaton { IsAutomaton (plain_of grammar.now) automaton.now }
    requires table { IsTableOf grammar.now automaton.now Merged table.now }
{
    let Ok(file) = read_loose(alloc, b"EOF\n\nExpected A.\n\nA Z\n\nGone.\n") else {
        return Err(Fail::from("a file without entries"));
    };
    let result = check_rebased(rt, alloc, grammar, automaton, table, &file);
    drop(file);
    result
}

fn check_rebased(
    rt: &impl Abort,
    alloc: Global,
    grammar: &Grammar,
    automaton: &Automaton<1>,
    table: &Halting,
    file: &LooseFile,
) -> Result<(), Fail>
    requires automaton { IsAutomaton (plain_of grammar.now) automaton.now }
    requires table { IsTableOf grammar.now automaton.now Merged table.now }
    requires short { HasShortLines file.now }
{
    let Ok(text) = rebase(alloc, grammar, automaton, table, file, false) else {
        return Err(Fail::from("a file that is not rebased"));
    };
    check_written(rt, text, REBASED);
    Ok(())
}

/// The lines on a file with an unknown token and an unwritten message, and on a state without an entry.
const WRONG: &str = "m:1: unknown token Z
m:1: no message yet
state 0 has no entry: s: EOF
state 1 has no entry: s: A A
";

/// Everything that is wrong with a messages file.
fn check_examined(
    rt: &impl Abort,
    alloc: Global,
    grammar: &Grammar,
    table: &Halting,
) -> Result<(), Fail>
    requires { table.now.grammar ≡ plain_of grammar.now }
{
    let Ok(blocks) = read_blocks(alloc, b"A Z\n\n<YOUR SYNTAX ERROR MESSAGE HERE>\n") else {
        return Err(Fail::from("a file without blocks"));
    };
    let result = check_lines(rt, alloc, grammar, table, &blocks);
    drop(blocks);
    result
}

fn check_lines(
    rt: &impl Abort,
    alloc: Global,
    grammar: &Grammar,
    table: &Halting,
    blocks: &LooseBlocks,
) -> Result<(), Fail>
    requires same { table.now.grammar ≡ plain_of grammar.now }
    requires short { HasShortLines blocks.now.file }
{
    let Ok(text) = error_lines(alloc, grammar, table, b"m", blocks) else {
        return Err(Fail::from("a file that is not examined"));
    };
    check_written(rt, text, WRONG);
    Ok(())
}

/// A messages file that is read, printed and updated, one that is rebased, and one that is examined.
pub fn messages_files(
    rt: &impl Abort,
    alloc: Global,
    grammar: &Grammar,
    automaton: &Automaton<1>,
    table: &Halting,
) -> Result<(), Fail>
    requires range { IsInRange (plain_of grammar.now) }
    requires automaton { IsAutomaton (plain_of grammar.now) automaton.now }
    requires table { IsTableOf grammar.now automaton.now Merged table.now }
{
    let file = messages_of(alloc, grammar, MESSAGES)?;
    let result = check_file(rt, alloc, grammar, automaton, table, &file);
    drop(file);
    result?;
    check_rebase(rt, alloc, grammar, automaton, table)?;
    check_examined(rt, alloc, grammar, table)
}

fn check_file(
    rt: &impl Abort,
    alloc: Global,
    grammar: &Grammar,
    automaton: &Automaton<1>,
    table: &Halting,
    file: &MsgFile,
) -> Result<(), Fail>
    requires automaton { IsAutomaton (plain_of grammar.now) automaton.now }
    requires table { IsTableOf grammar.now automaton.now Merged table.now }
    requires known { AreSentencesOf (length grammar.now.starts) (length grammar.now.tokens) file.now }
{
    check_entry(rt, file)?;
    check_prints(rt, alloc, grammar, file)?;
    check_update(rt, alloc, grammar, automaton, table, file)
}

/// The messages of a file, by state.
fn compiled_of(
    alloc: Global,
    grammar: &Grammar,
    table: &Halting,
    text: &str,
) -> Result<Compiled, Fail>
    requires range { IsInRange (plain_of grammar.now) }
    requires same { table.now.grammar ≡ plain_of grammar.now }
{
    let file = messages_of(alloc, grammar, text)?;
    let compiled = compile(alloc, table, &file);
    drop(file);
    match compiled {
        Ok(compiled) => Ok(compiled),
        Err(_) => Err(Fail::from("a file that does not fit")),
    }
}

/// The sentence of each entry fails in one state, and this state has the message of the entry. The second file lacks
/// the message for state 1 that the first file has.
fn check_compiled(
    rt: &impl Abort,
    alloc: Global,
    left: &Compiled,
    right: &Compiled,
) -> Result<(), Fail> {
    assert!(rt; left.message(0) == Some(b"Expected A.\n") && left.message(2).is_none());
    let missing = compare(alloc, left, right)?;
    assert!(rt; missing.as_slice() == [1].as_slice());
    drop(missing);
    let missing = compare(alloc, right, left)?;
    assert!(rt; missing.is_empty());
    drop(missing);
    Ok(())
}

/// Two messages files that are compiled and compared.
pub fn compiled(
    rt: &impl Abort,
    alloc: Global,
    grammar: &Grammar,
    table: &Halting,
) -> Result<(), Fail>
    requires range { IsInRange (plain_of grammar.now) }
    requires same { table.now.grammar ≡ plain_of grammar.now }
{
    let left = compiled_of(alloc, grammar, table, MESSAGES)?;
    let result = compared(rt, alloc, grammar, table, &left);
    drop(left);
    result
}

fn compared(
    rt: &impl Abort,
    alloc: Global,
    grammar: &Grammar,
    table: &Halting,
    left: &Compiled,
) -> Result<(), Fail>
    requires range { IsInRange (plain_of grammar.now) }
    requires same { table.now.grammar ≡ plain_of grammar.now }
{
    let right = compiled_of(alloc, grammar, table, "EOF\n\nExpected A.\n")?;
    let result = check_compiled(rt, alloc, left, &right);
    drop(right);
    result
}

/// The line at which a file is refused, and the reason. Each sentence must fail at its last token, and no two in one
/// state.
fn refusal(fault: &CheckFault) -> (u32, &'static str) {
    match fault {
        CheckFault::NotRefused {
            line,
            verdict: Verdict::Accept { .. },
        } => (*line, "accepted"),
        CheckFault::NotRefused { line, verdict: _ } => (*line, "too short"),
        CheckFault::RefusedEarly { line, at: _ } => (*line, "refused early"),
        CheckFault::SharedState {
            first: _,
            second,
            state: _,
        } => (*second, "shared"),
        CheckFault::Memory => (0, "no memory"),
    }
}

fn check_fault(
    rt: &impl Abort,
    alloc: Global,
    grammar: &Grammar,
    table: &Halting,
    text: &str,
    wanted: (u32, &str),
) -> Result<(), Fail>
    requires range { IsInRange (plain_of grammar.now) }
    requires same { table.now.grammar ≡ plain_of grammar.now }
{
    let file = messages_of(alloc, grammar, text)?;
    let compiled = compile(alloc, table, &file);
    drop(file);
    let found = match &compiled {
        Ok(_) => (0, "no fault"),
        Err(fault) => refusal(fault),
    };
    assert!(rt; found == wanted, "{text}");
    drop(compiled);
    Ok(())
}

/// Messages files that are refused.
pub fn refused(
    rt: &impl Abort,
    alloc: Global,
    grammar: &Grammar,
    table: &Halting,
) -> Result<(), Fail>
    requires range { IsInRange (plain_of grammar.now) }
    requires same { table.now.grammar ≡ plain_of grammar.now }
{
    check_fault(rt, alloc, grammar, table, "A EOF\n\nM\n", (1, "accepted"))?;
    check_fault(rt, alloc, grammar, table, "A\n\nM\n", (1, "too short"))?;
    check_fault(
        rt,
        alloc,
        grammar,
        table,
        "EOF A\n\nM\n",
        (1, "refused early"),
    )?;
    check_fault(
        rt,
        alloc,
        grammar,
        table,
        "EOF\n\nM\n\ns : EOF\n\nN\n",
        (5, "shared"),
    )
}
