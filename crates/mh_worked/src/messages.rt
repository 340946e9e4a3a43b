//! Messages files: compiled, and used for refused sentences.
use mh_worked_cases::{
    ONE_SENTENCE_FILE, Outcome, SMALL_GRAMMARS, check_cases, check_cases_with, push_file,
    run_files, run_on,
};
use mh_worked_files::{filled, put};
use std::alloc::Global;
use std::process::Abort;
use std::test::Fail;

// Compiled files: the messages by state, in rising order; or the first fault, in the order of lines. If the last block
// has no message, this fault is reported only if all sentence lines can be read.
const COMPILED: &str = "0 --compile-errors m g.mly
~
m
# by hand
s: EOF
## Ends in an error in state: 0.

Expected A.
# inside
Nothing else begins a sentence.

A A

Expected EOF.
~
~
state 0 44
Expected A.
Nothing else begins a sentence.
state 1 14
Expected EOF.
~
^
0 --compile-errors m g.mly
~
m
EOF
A A

M
~
~
state 0 2
M
state 1 2
M
~
^
0 --compile-errors m g.mly
~
m
~
~
~
^
1 --compile-errors m g.mly
~
m
EOF

M

s : EOF

N
~
~
~
menhir: m:5: state 0 is shared with line 1
^
1 --compile-errors m g.mly
~
m
EOF A

M
~
~
~
menhir: m:1: refused early at index 0
^
1 --compile-errors m g.mly
~
m
A EOF

M
~
~
~
menhir: m:1: not refused: ACCEPT
^
1 --compile-errors m g.mly
~
m
A

M
~
~
~
menhir: m:1: not refused: OVERSHOOT
^
1 --compile-errors m g.mly
~
m
EOF
~
~
~
menhir: m:1: shape
^
1 --compile-errors m g.mly
~
m
EOF

M

A Z
~
~
~
menhir: m:5: unknown token Z
^
1 --compile-errors m g.mly
~
m
A Z

M
~
~
~
menhir: m:1: unknown token Z
^
1 --compile-errors m g.mly
~
m
r: A A

M
~
~
~
menhir: m:1: unknown start r
^
3 --compile-errors m g.mly
~
~
~
menhir: cannot read m
^
3 --compile-errors m g.mly
shelf 2
~
m
EOF

M
~
~
~
menhir: cannot read m
^
2 --compile-errors
~
~
~
menhir: usage: bad words
^
2 --compile-errors m
~
~
~
menhir: usage: no grammar
";

// A grammar with two start symbols, of which a sentence must name one; and a token that no rule uses.
const GRAMMARS: &str = "1 --compile-errors m g.mly
~
g.mly
%token A B C D
%start p q
%%
p: x A {}
q: x B {}
x: C D {}
~
m
C A

M
~
~
~
menhir: m:1: missing start
^
0 --compile-errors m g.mly
~
g.mly
%token A B EOF
%start s
%%
s: A EOF {}
~
m
s: B

No sentence begins with B.
~
~
state 0 27
No sentence begins with B.
~
";

// A refused sentence gets the message of its state, if there is one. The messages file is read and checked before the
// first line of the input is read.
const SAID: &str = "0 --interpret --messages m g.mly
~
m
EOF

M
~
EOF
A A
A EOF
A
A Z
~
REJECT
M
REJECT
no message for state 1
ACCEPT
OVERSHOOT
ERROR unknown token Z
~
^
0 --interpret --interpret-show-cst --messages m g.mly
~
m
A A

Expected
EOF.
~
A EOF
A A
~
ACCEPT
[s: A EOF]
REJECT
Expected
EOF.
~
^
1 --interpret --messages m g.mly
input 1
~
m
EOF

M

EOF

N
~
EOF
~
~
menhir: m:5: state 0 is shared with line 1
^
3 --interpret --messages m g.mly
~
EOF
~
~
menhir: cannot read m
^
2 --compile-errors m --messages m g.mly
~
~
~
menhir: usage: misplaced --messages
";

/// A list of errors in which every placeholder is replaced by a message.
fn with_messages(alloc: Global, list: &str) -> Vec<u8> {
    let mut text = Vec::new(alloc);
    for line in list.lines() {
        let said = match line {
            "<YOUR SYNTAX ERROR MESSAGE HERE>" => "Something else was expected here.",
            other => other,
        };
        put(&mut text, said.as_bytes());
        put(&mut text, b"\n");
    }
    text
}

/// The states of a list of errors or of compiled messages, one a line.
fn states_of(alloc: Global, text: &str, front: &str) -> Vec<u8> {
    let mut states = Vec::new(alloc);
    for line in text.lines() {
        if let Some(rest) = line.strip_prefix(front) {
            put_digits(&mut states, rest);
        }
    }
    states
}

/// Appends the digits at the beginning of a text, and LF.
fn put_digits(states: &mut Vec<u8>, text: &str) {
    let count = text.bytes().take_while(u8::is_ascii_digit).count();
    put(states, text.as_bytes().get(..count).unwrap_or(b""));
    put(states, b"\n");
}

/// The result of compiling a messages file for a grammar.
fn compiled_of(alloc: Global, grammar: &str, messages: &[u8]) -> Result<Outcome, Fail> {
    let mut files = Vec::new(alloc);
    let added = add_both(alloc, &mut files, grammar, messages);
    run_files(
        alloc,
        "--compile-errors m g.mly",
        filled(files, added)?,
        &[],
    )
}

fn add_both(
    alloc: Global,
    files: &mut Vec<(Vec<u8>, Vec<u8>)>,
    grammar: &str,
    messages: &[u8],
) -> Result<(), Fail> {
    push_file(alloc, files, "g.mly", grammar.as_bytes())?;
    push_file(alloc, files, "m", messages)
}

fn check_compiled(rt: &impl Abort, alloc: Global, list: &str, got: &Outcome) -> Result<(), Fail> {
    let text = str::from_utf8(&got.out)?;
    let listed = states_of(alloc, list, "## Ends in an error in state: ");
    let compiled = states_of(alloc, text, "state ");
    let is_same = compiled.as_slice() == listed.as_slice();
    drop(listed);
    drop(compiled);
    assert!(rt; is_same && got.status == 0 && got.err.is_empty(), "{text}");
    Ok(())
}

fn check_list(rt: &impl Abort, alloc: Global, grammar: &str, list: &str) -> Result<(), Fail> {
    let messages = with_messages(alloc, list);
    let got = compiled_of(alloc, grammar, &messages);
    drop(messages);
    let got = got?;
    let result = check_compiled(rt, alloc, list, &got);
    drop(got);
    result
}

/// Checks that the list of errors of a grammar, with messages filled in, compiles to exactly the listed states.
fn check_round(rt: &impl Abort, alloc: Global, grammar: &str) -> Result<(), Fail> {
    let list = run_on(alloc, "--list-errors g.mly", grammar)?;
    let result = match str::from_utf8(&list.out) {
        Ok(text) => check_list(rt, alloc, grammar, text),
        Err(_) => Err(Fail::from("no text")),
    };
    drop(list);
    result
}

#[test]
fn lists_compile_to_their_states(rt: HostRuntime) -> Result<(), Fail> {
    for grammar in SMALL_GRAMMARS.lines() {
        check_round(&rt, rt.alloc(), grammar)?;
    }
    Ok(())
}

#[test]
fn messages_files(rt: HostRuntime) -> Result<(), Fail> {
    let alloc = rt.alloc();
    check_cases_with(alloc, ONE_SENTENCE_FILE, COMPILED)?;
    check_cases(alloc, GRAMMARS)?;
    check_cases_with(alloc, ONE_SENTENCE_FILE, SAID)
}
