//! Lists of errors, by merged automata, and by canonical ones if the words ask for them. Their sentences have least
//! cost.
use mh_worked_cases::{Outcome, check_cases, check_cases_with, run_on};
use std::alloc::Global;
use std::fmt::Write;
use std::process::Abort;
use std::test::Fail;

// A list in which each sentence is the only one of its length; the first entry alone, because the second write fails;
// only the refusal; and only the warnings.
const TEXTS: &str = "0 --list-errors g.mly
~
g.mly
%token A EOF
%start s
%%
s: A EOF {}
~
A
~
s: EOF
##
## Ends in an error in state: 0.
##
## s' -> . s [ # ]
##
## The known suffix of the stack is as follows:
##
##

<YOUR SYNTAX ERROR MESSAGE HERE>

s: A A
##
## Ends in an error in state: 1.
##
## s -> A . EOF [ # ]
##
## The known suffix of the stack is as follows:
## A
##

<YOUR SYNTAX ERROR MESSAGE HERE>

~
^
4 --list-errors g.mly
out 2
~
g.mly
%token A EOF
%start s
%%
s: A EOF {}
~
~
s: EOF
##
## Ends in an error in state: 0.
##
## s' -> . s [ # ]
##
## The known suffix of the stack is as follows:
##
##

<YOUR SYNTAX ERROR MESSAGE HERE>

~
^
4 --list-errors g.mly
out 1
~
g.mly
%token A EOF
%start s
%%
s: A EOF {}
~
~
~
^
0 --list-errors g.mly
~
g.mly
%start s
%%
s: {}
~
~
~
^
1 --list-errors --strict g.mly
~
g.mly
%token IF ELSE X EOF
%start main
%%
main: s EOF {}
s: IF s {} | IF s ELSE s {} | X {}
~
~
~
menhir: warning: conflict in state 5 on ELSE
^
2 --list-errors --interpret g.mly
~
~
~
menhir: usage: two modes
^
2 --list-errors --interpret-show-cst g.mly
~
~
~
menhir: usage: misplaced --interpret-show-cst
^
2 --list-errors
~
~
~
menhir: usage: no grammar
";

// One nonterminal derives only a sequence of 1,048,576 tokens.
pub const LONG: &str =
    "g.mly\n%token A B %start main %% main: x20 B {} x20: x19 x19 {} x19: x18 x18 {} x18: x17 x17 {} x17: x16 x16 {} x16: x15 x15 {} x15: x14 x14 {} x14: x13 x13 {} x13: x12 x12 {} x12: x11 x11 {} x11: x10 x10 {} x10: x9 x9 {} x9: x8 x8 {} x8: x7 x7 {} x7: x6 x6 {} x6: x5 x5 {} x5: x4 x4 {} x4: x3 x3 {} x3: x2 x2 {} x2: x1 x1 {} x1: x0 x0 {} x0: A {}";

const TOO_LONG: &str = "1 --list-errors g.mly
~
~
~
menhir: too long: state 3
^
1 --canonical --list-errors g.mly
~
~
~
menhir: too long: state 82
";

// No EQ may follow the right operand of another. When EQ is refused after a comparison, an INT was reduced before.
const COMPARISONS: &str =
    "%token INT EQ EOF %nonassoc EQ %start main %% main: e EOF {} e: INT {} | e EQ e {}";

const REFUSED_EQ: &str = "main: INT EQ INT EQ
##
## Ends in an error in state: 6.
##
## e -> e . EQ e [ EQ EOF ]
## e -> e EQ e . [ EQ EOF ]
##
## The known suffix of the stack is as follows:
## e EQ e
##
## Reduced before the error: e -> INT

<YOUR SYNTAX ERROR MESSAGE HERE>

";

// Each grammar, `=`, and each listed state of its canonical automaton with the length of its sentence.
const ROWS: &str = "%token A B EOF %start s %% s: A EOF {} = 0 1, 1 2,
%token A B C D %start p q %% p: x A {} q: x B {} x: C D {} = 0 1, 1 1, 2 2, 5 2, 8 3, 10 3,
%token A B C D %start p q %% p: x A {} q: B x A {} x: C D {} = 0 1, 1 1, 2 2, 5 2, 7 3,
%token INT EQ EOF %nonassoc EQ %start main %% main: e EOF {} e: INT {} | e EQ e {} = 0 1, 1 2, 4 3, 6 4,
%token X SEMI EOF %start main %% main: s EOF {} s: X {} | X SEMI {} = 0 1, 1 2, 4 3,
%token X SEMI EOF %start main %on_error_reduce s %% main: s EOF {} s: X {} | X SEMI {} = 0 1, 3 2,
%token INT PLUS TIMES EOF %start main %% main: e EOF {} e: e PLUS t {} | t {} t: t TIMES INT {} | INT {} = 0 1, 1 2, 5 3, 7 3, 9 4,
%token A B C D %start s %% s: A z {} | B B z {} z: C D {} = 0 1, 1 2, 2 2, 4 3, 6 3,
%token A [@cost 10] B C D %start s %% s: A z {} | B B z {} z: C D {} = 0 1, 1 2, 2 2, 4 4, 6 3,
%token A %start s %% s: {} =";

// Each grammar, `=`, and each listed state of its merged automaton with the length of its sentence.
const MERGED_ROWS: &str = "%token A B EOF %start s %% s: A EOF {} = 0 1, 1 2,
%token A B C D %start p q %% p: x A {} q: x B {} x: C D {} = 0 1, 1 1, 2 2, 4 3, 6 3,
%token A B C D %start p q %% p: x A {} q: B x A {} x: C D {} = 0 1, 1 1, 2 2, 4 3, 5 2, 9 4,
%token INT EQ EOF %nonassoc EQ %start main %% main: e EOF {} e: INT {} | e EQ e {} = 0 1, 3 2, 4 3, 6 4,
%token X SEMI EOF %start main %% main: s EOF {} s: X {} | X SEMI {} = 0 1, 1 2, 3 3,
%token X SEMI EOF %start main %on_error_reduce s %% main: s EOF {} s: X {} | X SEMI {} = 0 1, 3 2,
%token INT PLUS TIMES EOF %start main %% main: e EOF {} e: e PLUS t {} | t {} t: t TIMES INT {} | INT {} = 0 1, 4 2, 5 3, 7 3, 8 4,
%token INT PLUS TIMES LPAREN RPAREN EOF %left PLUS %left TIMES %start main %% main: expr EOF {} expr: INT {} | LPAREN expr RPAREN {} | expr PLUS expr {} | expr TIMES expr {} = 0 1, 2 2, 4 2, 5 3, 6 3, 7 3, 10 4,
%token A %start s %% s: {} =";

// Each grammar, `=`, and each sentence that its merged automaton lists, with its state. The sentence is the first of
// the cheapest ones.
const SENTENCES: &str =
    "%token A [@cost 5] B C EOF %start s %% s: x EOF {} x: A {} | B {} = s: C 0, s: B B 4,
%token A B C EOF %start s %% s: x EOF {} x: A {} | B {} = s: C 0, s: A A 4,
%token A [@cost 0] B C EOF %start s %% s: x EOF {} x: A {} | B {} = s: C 0, s: A A 4,
%token A B C D %start p q %% p: x A {} q: x B {} x: C D {} = p: A 0, q: A 1, p: C A 2, p: C D B 4, q: C D A 6,";

/// The number of words of a text.
fn count_words(text: &str) -> usize {
    let mut count = 0usize;
    for _word in text.split_ascii_whitespace() {
        count = count.saturating_add(1);
    }
    count
}

/// The state that a comment line names.
fn state_of(line: &str) -> Option<&str> {
    line.strip_prefix("## Ends in an error in state: ")?
        .strip_suffix(".")
}

/// Appends each state of a list of errors, with the number of tokens of its sentence.
fn put_rows(rows: &mut String, list: &str) {
    let mut tokens = 0usize;
    for line in list.lines() {
        match state_of(line) {
            Some(state) => {
                let _ = write!(rows, "{state} {tokens}, ");
            }
            None => {
                if let Some((_, words)) = line.split_once(':') {
                    tokens = count_words(words);
                }
            }
        }
    }
}

/// Appends each sentence of a list of errors, with its state.
fn put_sentences(rows: &mut String, list: &str) {
    for line in list.lines() {
        match state_of(line) {
            Some(state) => {
                let _ = write!(rows, "{state}, ");
            }
            None => {
                if !line.starts_with('#') && line.split_once(':').is_some() {
                    let _ = write!(rows, "{line} ");
                }
            }
        }
    }
}

#[test]
fn texts(rt: HostRuntime) -> Result<(), Fail> {
    check_cases(rt.alloc(), TEXTS)?;
    check_cases_with(rt.alloc(), LONG, TOO_LONG)
}

/// Fails if the rows of a list of errors are not the wanted ones.
fn check_list(
    rt: &impl Abort,
    alloc: Global,
    got: &Outcome,
    has_sentences: bool,
    wanted: &str,
) -> Result<(), Fail> {
    assert!(rt; got.status == 0 && got.err.is_empty());
    let list = str::from_utf8(&got.out)?;
    let mut rows = String::new(alloc);
    if has_sentences {
        put_sentences(&mut rows, list);
    } else {
        put_rows(&mut rows, list);
    }
    assert_eq!(rt; rows.as_str().trim_ascii(), wanted.trim_ascii());
    Ok(())
}

/// Fails if the list of errors of the grammar before `=` has other rows than those after `=`.
fn check_row(
    rt: &impl Abort,
    alloc: Global,
    words: &str,
    has_sentences: bool,
    case: &str,
) -> Result<(), Fail> {
    let (grammar, wanted) = case.split_once('=').ok_or("a case without rows")?;
    let got = run_on(alloc, words, grammar)?;
    let result = check_list(rt, alloc, &got, has_sentences, wanted);
    drop(got);
    result
}

fn check_rows(
    rt: &impl Abort,
    alloc: Global,
    words: &str,
    has_sentences: bool,
    cases: &str,
) -> Result<(), Fail> {
    for case in cases.lines() {
        check_row(rt, alloc, words, has_sentences, case)?;
    }
    Ok(())
}

#[test]
fn states_with_lengths_or_sentences(rt: HostRuntime) -> Result<(), Fail> {
    let alloc = rt.alloc();
    check_rows(&rt, alloc, "--list-errors g.mly", true, SENTENCES)?;
    check_rows(&rt, alloc, "--list-errors g.mly", false, MERGED_ROWS)?;
    check_rows(&rt, alloc, "--canonical --list-errors g.mly", false, ROWS)
}

fn check_contents(rt: &impl Abort, list: &[u8]) -> Result<(), Fail> {
    let list = str::from_utf8(list)?;
    assert!(rt; list.contains(REFUSED_EQ), "{list}");
    Ok(())
}

#[test]
fn reductions_before_the_error(rt: HostRuntime) -> Result<(), Fail> {
    let words = "--canonical --list-errors g.mly";
    let got = run_on(rt.alloc(), words, COMPARISONS)?;
    let result = check_contents(&rt, &got.out);
    drop(got);
    result
}
