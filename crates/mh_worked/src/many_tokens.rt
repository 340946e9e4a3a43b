//! Grammars with as many tokens as a set of a given width holds, with one token more, and with the most tokens that are
//! allowed, in both modes; and the list of errors with the most tokens.
use mh_worked_cases::check_cases;
use std::test::Fail;

// Each token may come before T0. The last token is accepted before T0, and refused after T0.
const CASES: &str = "0 --interpret g.mly
~
g.mly
%token`0..64  T@` %start s %% s: x T0 {} x:`0..64  | T@ {}`~
T63 T0
T0 T63
~
ACCEPT
REJECT
~
^
0 --interpret g.mly
~
g.mly
%token`0..65  T@` %start s %% s: x T0 {} x:`0..65  | T@ {}`~
T64 T0
T0 T64
~
ACCEPT
REJECT
~
^
0 --interpret g.mly
~
g.mly
%token`0..256  T@` %start s %% s: x T0 {} x:`0..256  | T@ {}`~
T255 T0
T0 T255
~
ACCEPT
REJECT
~
^
0 --interpret g.mly
~
g.mly
%token`0..257  T@` %start s %% s: x T0 {} x:`0..257  | T@ {}`~
T256 T0
T0 T256
~
ACCEPT
REJECT
~
^
0 --interpret g.mly
~
g.mly
%token`0..512  T@` %start s %% s: x T0 {} x:`0..512  | T@ {}`~
T511 T0
T0 T511
~
ACCEPT
REJECT
~
^
0 --canonical --interpret g.mly
~
g.mly
%token`0..64  T@` %start s %% s: x T0 {} x:`0..64  | T@ {}`~
T63 T0
T0 T63
~
ACCEPT
REJECT
~
^
0 --canonical --interpret g.mly
~
g.mly
%token`0..65  T@` %start s %% s: x T0 {} x:`0..65  | T@ {}`~
T64 T0
T0 T64
~
ACCEPT
REJECT
~
^
0 --canonical --interpret g.mly
~
g.mly
%token`0..256  T@` %start s %% s: x T0 {} x:`0..256  | T@ {}`~
T255 T0
T0 T255
~
ACCEPT
REJECT
~
^
0 --canonical --interpret g.mly
~
g.mly
%token`0..257  T@` %start s %% s: x T0 {} x:`0..257  | T@ {}`~
T256 T0
T0 T256
~
ACCEPT
REJECT
~
^
0 --canonical --interpret g.mly
~
g.mly
%token`0..512  T@` %start s %% s: x T0 {} x:`0..512  | T@ {}`~
T511 T0
T0 T511
~
ACCEPT
REJECT
~
";

// The first token is refused at the start; the last one, which is the whole sentence, is not.
const ERRORS: &str = "0 --list-errors g.mly
~
g.mly
%token`0..512  T@` %start s %% s: T511 {}
~
~
s: T0
##
## Ends in an error in state: 0.
##
## s' -> . s [ # ]
##
## The known suffix of the stack is as follows:
##
##

<YOUR SYNTAX ERROR MESSAGE HERE>

~
";

#[test]
fn are_interpreted(rt: HostRuntime) -> Result<(), Fail> {
    check_cases(rt.alloc(), CASES)
}

#[test]
fn errors_are_listed(rt: HostRuntime) -> Result<(), Fail> {
    check_cases(rt.alloc(), ERRORS)
}
