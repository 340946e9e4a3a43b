//! Tests of expected tokens: after refusals, and for the branches of sessions.
use mh_worked_cases::check_cases;
use std::test::Fail;

// In the third run, state 3 refuses the second `X` and has a cell for `EOF` alone. The run reached this state by the
// reduction that `%on_error_reduce` puts before the refusal. In the fifth run, no token may follow `INT EQ INT`, since
// `EQ` is not associative and `INT` has no cell.
const REFUSALS: &str = "0 --interpret --show-expected g.mly
~
g.mly
%token A EOF
%start s
%%
s: A EOF {}
~
EOF
A A
A
A EOF
A Z
~
REJECT
expected: A
REJECT
expected: EOF
OVERSHOOT
ACCEPT
ERROR unknown token Z
~
^
0 --interpret --show-expected --canonical g.mly
~
g.mly
%token A EOF
%start s
%%
s: A EOF {}
~
EOF
~
REJECT
expected: A
~
^
0 --interpret --show-expected g.mly
~
g.mly
%token X SEMI EOF
%start main
%on_error_reduce s
%%
main: s EOF {}
s: X {} | X SEMI {}
~
X X
~
REJECT
expected: SEMI EOF
~
^
0 --interpret --show-expected g.mly
~
g.mly
%token INT EQ EOF
%nonassoc EQ
%start main
%%
main: e EOF {}
e: INT {} | e EQ e {}
~
INT EQ INT EQ
~
REJECT
expected: EOF
~
^
0 --interpret --show-expected g.mly
~
g.mly
%token INT EQ
%nonassoc EQ
%start e
%%
e: INT {} | e EQ e {}
~
INT EQ INT EQ
INT INT
INT EQ INT
~
REJECT
expected:
REJECT
expected: EQ
OVERSHOOT
~
menhir: warning: end-of-stream conflict in state 2
^
0 --interpret --show-expected g.mly
~
g.mly
%token INT PLUS
%start e
%%
e: INT {} | e PLUS INT {}
~
INT INT
~
REJECT
expected: PLUS
~
menhir: warning: end-of-stream conflict in state 2
^
0 --interpret --show-expected --interpret-show-cst g.mly
~
g.mly
%token A EOF
%start s
%%
s: A EOF {}
~
A EOF
A A
~
ACCEPT
[s: A EOF]
REJECT
expected: EOF
~
^
0 --tables t --interpret --show-expected g.mly
~
g.mly
%token A EOF
%start s
%%
s: A EOF {}
~
t
menhir-tables 2 merged
tokens A EOF
costs 1 1
starts s
productions 1
s -> A EOF
states 4
state 0
item 0 0 #
edge A 1
edge s 2
cell A shift 1
state 1
item 1 1 #
edge EOF 3
cell EOF shift 3
state 2
item 0 1 #
default accept
state 3
item 1 2 #
default reduce 1
end
~
EOF
A A
~
REJECT
expected: A
REJECT
expected: EOF
~
";

const MISUSES: &str = "2 --show-automaton --show-expected g.mly
~
~
~
menhir: usage: misplaced --show-expected
^
2 --interpret --show-expected --messages m g.mly
~
~
~
menhir: usage: misplaced --show-expected
^
2 --show-automaton --show-expected --messages m g.mly
~
~
~
menhir: usage: misplaced --messages
^
2 --sample 0 --show-expected g.mly
~
~
~
menhir: usage: misplaced --sample
^
2 --interpret --show-expected
~
~
~
menhir: usage: no grammar
^
2 --interpret --show-expected=all g.mly
~
~
~
menhir: usage: bad words
";

const REPLIES: &str = "0 --session g.mly
~
g.mly
%token A EOF
%start s
%%
s: A EOF {}
~
begin a
expected a
offer a A
expected a
fork a b
resume a
expected a
expected c
expected
expected a a
show a
offer b A
~
a input-needed 0
a expected A
a shifting 0 A
error: wrong phase: shifting
b shifting 0 A
a input-needed 1
a expected EOF
error: unknown name
error: unreadable
error: unreadable
a input-needed 1
error: wrong phase: shifting
~
^
0 --session g.mly
~
g.mly
%token INT PLUS
%start e
%%
e: INT {} | e PLUS INT {}
~
begin a
offer a INT
resume a
expected a
resume a
expected a
~
a input-needed 0
a shifting 0 INT
a about-to-reduce 1 e -> INT
error: wrong phase: about-to-reduce
a input-needed 2
a expected PLUS
~
menhir: warning: end-of-stream conflict in state 2
";

#[test]
fn after_refusals(rt: HostRuntime) -> Result<(), Fail> {
    check_cases(rt.alloc(), REFUSALS)
}

#[test]
fn misplaced_words(rt: HostRuntime) -> Result<(), Fail> {
    check_cases(rt.alloc(), MISUSES)
}

#[test]
fn of_branches(rt: HostRuntime) -> Result<(), Fail> {
    check_cases(rt.alloc(), REPLIES)
}
