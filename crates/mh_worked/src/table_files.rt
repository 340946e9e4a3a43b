//! Table files that the program writes, and tables that come from files.
use mh_worked_cases::{
    ONE_SENTENCE_FILE, Outcome, SMALL_GRAMMARS, check_cases, check_cases_with, push_file,
    run_files, run_on, run_with,
};
use mh_worked_files::{ONE_SENTENCE, ONE_SENTENCE_TABLE, filled};
use std::alloc::Global;
use std::process::Abort;
use std::test::Fail;

const WRITTEN: &str = "0 --canonical g.mly --write-tables
~
g.mly
%token A [@cost 7]
%start s t
%%
s: {}
t: A s {}
~
~
menhir-tables 2 canonical
tokens A
costs 7
starts s t
productions 2
s ->
t -> A s
states 6
state 0
item 0 0 #
edge s 2
default reduce 2
state 1
item 1 0 #
edge A 3
edge t 4
cell A shift 3
state 2
item 0 1 #
default accept
state 3
item 3 1 #
edge s 5
default reduce 2
state 4
item 1 1 #
default accept
state 5
item 3 2 #
default reduce 3
end
~
";

// Warnings are written together with the table file, and `--write-tables` is a mode of its own.
const AROUND: &str = "0 --write-tables g.mly
~
g.mly
%token INT PLUS
%start e
%%
e: INT {} | e PLUS INT {}
~
~
menhir-tables 2 merged
tokens INT PLUS
costs 1 1
starts e
productions 2
e -> INT
e -> e PLUS INT
states 5
state 0
item 0 0 #
edge INT 1
edge e 2
cell INT shift 1
state 1
item 1 1 PLUS #
default reduce 1
state 2
item 0 1 #
item 2 1 PLUS #
edge PLUS 3
cell PLUS shift 3
state 3
item 2 2 PLUS #
edge INT 4
cell INT shift 4
state 4
item 2 3 PLUS #
default reduce 2
end
~
menhir: warning: end-of-stream conflict in state 2
^
2 --write-tables --list-errors g.mly
~
~
~
menhir: usage: two modes
^
2 --write-tables
~
~
~
menhir: usage: no grammar
";

// A table from a file is used like a built one. The files of each case also include the grammar with one sentence and
// its table file.
const TAKEN: &str = "0 --list-errors --tables t g.mly
~
~
s: EOF
##
## Ends in an error in state: 0.
##
## s' -> . s [ # ]
##
## The known suffix of the stack is as follows:
##
##

<YOUR SYNTAX ERROR MESSAGE HERE>

s: A A
##
## Ends in an error in state: 1.
##
## s -> A . EOF [ # ]
##
## The known suffix of the stack is as follows:
## A
##

<YOUR SYNTAX ERROR MESSAGE HERE>

~
^
0 --tables t --interpret g.mly
~
A EOF
EOF
A
~
ACCEPT
REJECT
OVERSHOOT
~
^
0 --session --tables t g.mly
~
begin a
offer a A
~
a input-needed 0
a shifting 0 A
~
^
1 --interpret --tables t h.mly
~
h.mly
%token A EOF %start s %% s: A A EOF {}
~
~
~
menhir: t: invalid: header
";

// The table file is read after the grammar. Together with words that need a built table or no table, `--tables` is
// misplaced.
const REFUSED: &str = "3 --interpret --tables t g.mly
~
~
~
menhir: cannot read t
^
3 --interpret --tables t h.mly
~
~
~
menhir: cannot read h.mly
^
1 --interpret --tables t h.mly
~
h.mly
%token A %start s %% s: B {}
~
~
~
menhir: undefined: B
^
1 --interpret --tables t g.mly
~
t
~
~
~
menhir: t:1: shape
^
1 --interpret --tables t g.mly
~
t
menhir-tables 2 merged
tokens A EOF
costs 1 1
starts s
productions 1
s -> A EOF
states 0
end
~
~
~
menhir: t: invalid: states
^
2 --canonical --tables t --interpret g.mly
~
~
~
menhir: usage: misplaced --tables
^
2 --sample 1 --tables t g.mly
~
~
~
menhir: usage: misplaced --tables
^
2 --session --messages m --tables t --canonical g.mly
~
~
~
menhir: usage: misplaced --messages
^
2 --tables t g.mly
~
~
~
menhir: usage: no mode
^
2 --interpret --tables t
~
~
~
menhir: usage: no grammar
";

/// A table file in which each line `old` is replaced by `new`, or left out if `new` is empty.
fn changed(alloc: Global, file: &str, old: &str, new: &str) -> String {
    let mut text = String::new(alloc);
    for line in file.lines() {
        let line = if line == old { new } else { line };
        if !line.is_empty() {
            let _ = text.push_str(line);
            let _ = text.push('\n');
        }
    }
    text
}

/// Changes a table file by pairs of an old and a new line.
fn change(alloc: Global, table: &mut String, changes: &str) -> Result<(), Fail> {
    for pair in changes.split(" & ") {
        let (old, new) = pair.split_once("; ").ok_or("a change without a new line")?;
        *table = changed(alloc, table, old, new);
    }
    Ok(())
}

/// Adds the files `g.mly` and `t`.
fn push_both(
    alloc: Global,
    files: &mut Vec<(Vec<u8>, Vec<u8>)>,
    grammar: &str,
    table: &[u8],
) -> Result<(), Fail> {
    push_file(alloc, files, "g.mly", grammar.as_bytes())?;
    push_file(alloc, files, "t", table)
}

/// The outcome of a run with a grammar and a table file.
fn run_beside(alloc: Global, words: &str, grammar: &str, table: &[u8]) -> Result<Outcome, Fail> {
    let mut files = Vec::new(alloc);
    let added = push_both(alloc, &mut files, grammar, table);
    run_files(alloc, words, filled(files, added)?, &[])
}

fn check_told(rt: &impl Abort, got: &Outcome, told: &str, table: &str) -> Result<(), Fail> {
    let said = str::from_utf8(&got.err)?;
    let is_refused = got.status == 1 && got.out.is_empty();
    assert!(rt;
        is_refused && said == told,
        "{said} in place of {told} of\n{table}"
    );
    Ok(())
}

/// Checks the line that reports the fault of a table file.
fn check_table(
    rt: &impl Abort,
    alloc: Global,
    grammar: &str,
    table: &str,
    told: &str,
) -> Result<(), Fail> {
    let words = "--interpret --tables t g.mly";
    let got = run_beside(alloc, words, grammar, table.as_bytes())?;
    let result = check_told(rt, &got, told, table);
    drop(got);
    result
}

/// Changes a table file as a line says, and checks the reported fault, which follows the changes in this line.
fn check_change(
    rt: &impl Abort,
    alloc: Global,
    grammar: &str,
    file: &str,
    line: &str,
) -> Result<(), Fail> {
    let (changes, told) = line.rsplit_once("; ").ok_or("nothing is told")?;
    let mut table = String::from_str(alloc, file)?;
    let result = match change(alloc, &mut table, changes) {
        Ok(()) => check_table(rt, alloc, grammar, &table, told),
        Err(fail) => Err(fail),
    };
    drop(table);
    result
}

fn check_lines(
    rt: &impl Abort,
    alloc: Global,
    grammar: &str,
    file: &[u8],
    changes: &str,
) -> Result<(), Fail> {
    let file = str::from_utf8(file)?;
    for line in changes.split_inclusive('\n') {
        check_change(rt, alloc, grammar, file, line)?;
    }
    Ok(())
}

/// Changes the table file that the tool writes for a grammar, once for each line.
fn check_changes(
    rt: &impl Abort,
    alloc: Global,
    grammar: &str,
    words: &str,
    changes: &str,
) -> Result<(), Fail> {
    let written = run_on(alloc, words, grammar)?;
    let result = check_lines(rt, alloc, grammar, &written.out, changes);
    drop(written);
    result
}

// Another version is reported before every bad line, a bad line before every test of the content, and every kernel
// before the first edge.
const ONE_SENTENCE_CHANGES: &str =
    "menhir-tables 2 merged; menhir-tables 9 merged; menhir: t: version
menhir-tables 2 merged; menhir-tables 9 merged & end; ; menhir: t: version
menhir-tables 2 merged; menhir-tables 9 Merged; menhir: t:1: shape
menhir-tables 2 merged; menhir-tables 1 merged; menhir: t:3: shape
costs 1 1; ; menhir: t:3: shape
productions 1; productions 2; menhir: t:7: shape
edge A 1; edge A 01; menhir: t:10: shape
edge A 1; edge A 4294967296; menhir: t:10: shape
states 4; states 3; menhir: t:20: shape
end; ; menhir: t:22: shape
states 4; states 5; menhir: t:23: shape
edge A 1; edge A 3 & end; ; menhir: t:22: shape
tokens A EOF; tokens EOF A; menhir: t: invalid: header
costs 1 1; costs 1 2; menhir: t: invalid: header
costs 1 1; costs 1; menhir: t: invalid: header
costs 1 1; costs 1 1 1; menhir: t: invalid: header
starts s; starts t; menhir: t: invalid: header
s -> A EOF; s -> A A; menhir: t: invalid: header
item 0 0 #; item 0 0 A; menhir: t: invalid: state 0: kernel
item 1 1 #; item 1 0 #; menhir: t: invalid: state 1: kernel
item 1 1 #; item 1 3 #; menhir: t: invalid: state 1: kernel
item 1 1 #; item 1 1 B; menhir: t: invalid: state 1: kernel
item 1 1 #; ; menhir: t: invalid: state 1: kernel
edge A 1; edge A 3 & item 1 2 #; item 1 3 #; menhir: t: invalid: state 3: kernel
edge A 1; edge A 3; menhir: t: invalid: state 0: edge
edge A 1; edge A 4294967295; menhir: t: invalid: state 0: edge
edge s 2; ; menhir: t: invalid: state 0: edge
edge EOF 3; edge EOF 2; menhir: t: invalid: state 1: edge
item 1 2 #; item 1 2 A; menhir: t: invalid: state 1: edge
cell A shift 1; cell A shift 2; menhir: t: invalid: state 0: cell
cell A shift 1; cell A reduce 1; menhir: t: invalid: state 0: cell
cell A shift 1; ; menhir: t: invalid: state 0: cell
cell EOF shift 3; default reduce 1; menhir: t: invalid: state 1: cell
default accept; cell A reduce 1; menhir: t: invalid: state 2: cell
default accept; ; menhir: t: invalid: state 2: fallback
default reduce 1; default accept; menhir: t: invalid: state 3: fallback
";

// A state that has a default in the merged table has cells in the canonical one.
const MODE_CHANGES: &str =
    "menhir-tables 2 canonical; menhir-tables 2 merged; menhir: t: invalid: state 2: cell
";

// An item of a start production has no look but the end of the stream.
const LOOK_CHANGES: &str = "item 0 1 #; item 0 1 INT #; menhir: t: invalid: state 2: kernel
";

/// The first failing test is reported, with its line or its state.
#[test]
fn changed_files(rt: HostRuntime) -> Result<(), Fail> {
    let alloc = rt.alloc();
    check_changes(
        &rt,
        alloc,
        ONE_SENTENCE,
        "--write-tables g.mly",
        ONE_SENTENCE_CHANGES,
    )?;
    let two = "%token C D %start s %% s: c c {} c: C c {} | D {}";
    check_changes(
        &rt,
        alloc,
        two,
        "--canonical --write-tables g.mly",
        MODE_CHANGES,
    )?;
    let sums = "%token INT PLUS %start e %% e: INT {} | e PLUS INT {}";
    check_changes(&rt, alloc, sums, "--write-tables g.mly", LOOK_CHANGES)
}

/// The outcome of a job with a built automaton.
fn run_built(alloc: Global, grammar: &str, mode: &str, job: &str) -> Result<Outcome, Fail> {
    let words = format!(in alloc; "{mode}{job} g.mly")?;
    let got = run_on(alloc, &words, grammar);
    drop(words);
    got
}

/// The outcome of a job with a table file.
fn run_read(alloc: Global, grammar: &str, table: &[u8], job: &str) -> Result<Outcome, Fail> {
    let words = format!(in alloc; "--tables t g.mly {job}")?;
    let got = run_beside(alloc, &words, grammar, table);
    drop(words);
    got
}

fn check_same(rt: &impl Abort, got: &Outcome, wanted: &Outcome) {
    let is_same = got.out.as_slice() == wanted.out.as_slice()
        && got.err.as_slice() == wanted.err.as_slice()
        && got.status == wanted.status;
    assert!(rt; is_same);
}

fn check_read(
    rt: &impl Abort,
    alloc: Global,
    grammar: &str,
    table: &[u8],
    job: &str,
    wanted: &Outcome,
) -> Result<(), Fail> {
    let got = run_read(alloc, grammar, table, job)?;
    check_same(rt, &got, wanted);
    drop(got);
    Ok(())
}

fn check_job(
    rt: &impl Abort,
    alloc: Global,
    grammar: &str,
    mode: &str,
    table: &[u8],
    job: &str,
) -> Result<(), Fail> {
    let wanted = run_built(alloc, grammar, mode, job)?;
    let result = check_read(rt, alloc, grammar, table, job, &wanted);
    drop(wanted);
    result
}

/// Each job has the same outcome with the built automaton and with its table file.
fn check_jobs(
    rt: &impl Abort,
    alloc: Global,
    grammar: &str,
    mode: &str,
    table: &[u8],
) -> Result<(), Fail> {
    check_job(rt, alloc, grammar, mode, table, "--write-tables")?;
    check_job(rt, alloc, grammar, mode, table, "--show-automaton")?;
    check_job(rt, alloc, grammar, mode, table, "--list-errors")?;
    check_job(rt, alloc, grammar, mode, table, "--strict --write-tables")
}

/// Checks the table file that is written for a grammar, in one mode.
fn check_file(
    rt: &impl Abort,
    alloc: Global,
    grammar: &str,
    mode: &str,
    first: &str,
) -> Result<(), Fail> {
    let written = run_built(alloc, grammar, mode, "--write-tables")?;
    assert!(rt; written.out.starts_with(first.as_bytes()));
    let result = check_jobs(rt, alloc, grammar, mode, &written.out);
    drop(written);
    result
}

/// Two grammars with conflicts, one of which is at the end of the stream, and a grammar with a cost other than one.
const MORE: &str = "%token INT PLUS %start e %% e: INT {} | e PLUS INT {}
%token IF ELSE X EOF %start main %% main: s EOF {} s: IF s {} | IF s ELSE s {} | X {}
%token C [@cost 3] D %start s t %% s: c c {} c: C c {} | D {} t: c {}";

/// Every mode has the same outcome with a table that was written and read again as with the built automaton.
#[test]
fn written_and_read_again(rt: HostRuntime) -> Result<(), Fail> {
    for grammars in [SMALL_GRAMMARS, MORE] {
        for grammar in grammars.lines() {
            check_file(&rt, rt.alloc(), grammar, "", "menhir-tables 2 merged\n")?;
            check_file(
                &rt,
                rt.alloc(),
                grammar,
                "--canonical ",
                "menhir-tables 2 canonical\n",
            )?;
        }
    }
    Ok(())
}

fn check_shown(rt: &impl Abort, alloc: Global, grammar: &str, table: &[u8]) -> Result<(), Fail> {
    let shown = run_read(alloc, grammar, table, "--show-automaton")?;
    assert!(rt; shown.out.starts_with(b"canonical: 10 states\n"));
    drop(shown);
    Ok(())
}

/// The table file of a canonical automaton has the canonical mode, and this mode is used whatever the words say.
#[test]
fn mode_of_the_file(rt: HostRuntime) -> Result<(), Fail> {
    let grammar = "%token C D %start s %% s: c c {} c: C c {} | D {}";
    let written = run_built(rt.alloc(), grammar, "--canonical ", "--write-tables")?;
    let result = check_shown(&rt, rt.alloc(), grammar, &written.out);
    drop(written);
    result
}

/// Fails if the written text is not the table file of the grammar with one sentence.
fn check_written(rt: &impl Abort, got: &Outcome) -> Result<(), Fail> {
    assert_eq!(rt; str::from_utf8(&got.out)?, ONE_SENTENCE_TABLE);
    assert!(rt; got.status == 0 && got.err.is_empty());
    Ok(())
}

/// The table of the built automaton is written. The input is not read.
#[test]
fn written_of_one_sentence(rt: HostRuntime) -> Result<(), Fail> {
    let words = "--write-tables g.mly";
    let got = run_with(rt.alloc(), words, ONE_SENTENCE, b"A\n")?;
    let result = check_written(&rt, &got);
    drop(got);
    result
}

/// The outcome of writing the table from a table file of version 1, which has no line of costs.
fn run_on_version_1(alloc: Global) -> Result<Outcome, Fail> {
    let newer = changed(alloc, ONE_SENTENCE_TABLE, "costs 1 1", "");
    let older = changed(
        alloc,
        &newer,
        "menhir-tables 2 merged",
        "menhir-tables 1 merged",
    );
    drop(newer);
    let words = "--tables t --write-tables g.mly";
    let got = run_beside(alloc, words, ONE_SENTENCE, older.as_bytes());
    drop(older);
    got
}

/// A table from a file of version 1 is written in version 2.
#[test]
fn written_of_version_1(rt: HostRuntime) -> Result<(), Fail> {
    let got = run_on_version_1(rt.alloc())?;
    let result = check_written(&rt, &got);
    drop(got);
    result
}

#[test]
fn table_files(rt: HostRuntime) -> Result<(), Fail> {
    let alloc = rt.alloc();
    check_cases(alloc, WRITTEN)?;
    check_cases(alloc, AROUND)?;
    check_cases_with(alloc, ONE_SENTENCE_FILE, REFUSED)?;
    let both = format!(in alloc; "{ONE_SENTENCE_FILE}~\nt\n{ONE_SENTENCE_TABLE}")?;
    let result = check_cases_with(alloc, &both, TAKEN);
    drop(both);
    result
}
