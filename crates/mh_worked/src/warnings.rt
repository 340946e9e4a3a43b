//! Warnings, and their effect under `--strict`.
use mh_worked_cases::{check_cases, check_cases_with};
use std::test::Fail;

// At the end of the stream, a sum may end or continue.
const SUMS: &str = "g.mly
%token INT PLUS
%start e
%%
e: INT {} | e PLUS INT {}
";

// With `--strict` and a warning, the status is 1 and `out` is empty in every mode; no line follows the warnings.
const SUM_CASES: &str = "0 --interpret g.mly
~
INT
INT PLUS INT
INT INT
~
OVERSHOOT
OVERSHOOT
REJECT
~
menhir: warning: end-of-stream conflict in state 2
^
1 --strict --interpret g.mly
~
INT
~
~
menhir: warning: end-of-stream conflict in state 2
^
1 --show-automaton --strict g.mly
~
~
~
menhir: warning: end-of-stream conflict in state 2
";

// An ELSE may belong to either of two IF.
const BRANCHES: &str = "g.mly
%token IF ELSE X EOF
%start main
%%
main: s EOF {}
s: IF s {} | IF s ELSE s {} | X {}
";

const BRANCH_CASES: &str = "0 --interpret g.mly
~
IF IF X ELSE X EOF
~
ACCEPT
~
menhir: warning: conflict in state 5 on ELSE
^
1 --interpret --strict g.mly
~
IF IF X ELSE X EOF
~
~
menhir: warning: conflict in state 5 on ELSE
^
1 --interpret --strict --canonical g.mly
~
X EOF
~
~
menhir: warning: conflict in state 9 on ELSE
";

// If the next token decides between two reductions, there is no warning.
const SILENT: &str = "0 --interpret --strict g.mly
~
g.mly
%token A B C D E
%start s
%%
s: A x D {} | B y D {} | A y E {} | B x E {}
x: C {}
y: C {}
~
A C D
B C D
A C E
B C C
~
ACCEPT
ACCEPT
ACCEPT
REJECT
~
";

#[test]
fn warnings_and_strictness(rt: HostRuntime) -> Result<(), Fail> {
    let alloc = rt.alloc();
    check_cases_with(alloc, SUMS, SUM_CASES)?;
    check_cases_with(alloc, BRANCHES, BRANCH_CASES)?;
    check_cases(alloc, SILENT)
}

// The order of warnings: by state; within a state by token, then the end of the stream, then the conflict of the end
// with a token. Of two reductions the first is taken. A reduction of higher level than the token is taken without a
// warning, whatever the other actions are.
const ORDERS: &str = "0 --interpret --interpret-show-cst g.mly
~
g.mly
%token A
%start e
%%
e: e e {} | A {}
~
A A
~
OVERSHOOT
~
menhir: warning: end-of-stream conflict in state 2
menhir: warning: conflict in state 3 on A
menhir: warning: end-of-stream conflict in state 3
^
0 --interpret --interpret-show-cst g.mly
~
g.mly
%token A
%start s
%%
s: A {} | t {}
t: A {}
~
A
~
ACCEPT
[s: A]
~
menhir: warning: conflict in state 1 on #
^
0 --interpret --interpret-show-cst --strict g.mly
~
g.mly
%token B
%nonassoc LOW
%nonassoc B
%nonassoc HIGH
%start s
%%
s: x B {} | y B {} | B {}
x: %prec HIGH {}
y: %prec LOW {}
~
B
~
ACCEPT
[s: [x:] B]
~
^
0 --interpret --interpret-show-cst g.mly
~
g.mly
%token B
%start s
%%
s: x B {} | y B {} | B {}
x: {}
y: {}
~
B
~
ACCEPT
[s: B]
~
menhir: warning: conflict in state 0 on B
^
1 --interpret --strict g.mly
~
g.mly
%token B
%nonassoc B
%nonassoc HIGH
%start s
%%
s: x B {} | y B {} | B {}
x: %prec HIGH {}
y: %prec HIGH {}
~
B
~
~
menhir: warning: conflict in state 0 on B
";

#[test]
fn orders_of_warnings(rt: HostRuntime) -> Result<(), Fail> {
    check_cases(rt.alloc(), ORDERS)
}

// The warnings are written before the first line is read and before anything is written to `out`. If they cannot be
// written, nothing else is written.
const FAILING: &str = "3 --interpret g.mly
input 1
~
X EOF

~
~
menhir: warning: conflict in state 5 on ELSE
menhir: cannot read the input
^
3 --interpret g.mly
input 7
~
X EOF

~
ACCEPT
~
menhir: warning: conflict in state 5 on ELSE
menhir: cannot read the input
^
4 --interpret g.mly
out 1
~
X EOF

~
~
menhir: warning: conflict in state 5 on ELSE
^
4 --interpret g.mly
out 2
~
X EOF

~
ACCEPT
~
menhir: warning: conflict in state 5 on ELSE
^
4 --show-automaton g.mly
out 1
~
X EOF

~
~
menhir: warning: conflict in state 5 on ELSE
^
4 --interpret g.mly
err 1
~
X EOF

~
~
^
4 --interpret --strict g.mly
err 1
~
X EOF

~
~
^
4 --show-automaton g.mly
err 1
~
X EOF

~
~
^
1 --interpret --strict g.mly
input 1
~
X EOF

~
~
menhir: warning: conflict in state 5 on ELSE
^
1 --show-automaton --strict g.mly
out 1
~
X EOF

~
~
menhir: warning: conflict in state 5 on ELSE
";

#[test]
fn devices_that_fail_after_warnings(rt: HostRuntime) -> Result<(), Fail> {
    check_cases_with(rt.alloc(), BRANCHES, FAILING)
}
