//! Comment lines with the tokens that are expected in place of the last token.
use mh_worked_cases::{check_cases, check_cases_with};
use std::test::Fail;

const BRANCHES: &str = "g.mly
%token IF THEN ELSE E EOF
%start s
%%
s: e EOF {}
e: E {} | IF E THEN e {} | IF E THEN e ELSE e {}
";

// The items of a state may show fewer tokens than are expected, because productions were reduced by default before.
const CASES: &str = "0 --list-errors --comment-expected g.mly
~
~
s: THEN
##
## Ends in an error in state: 0.
##
## s' -> . s [ # ]
##
## The known suffix of the stack is as follows:
##
##
## Expected: IF E

<YOUR SYNTAX ERROR MESSAGE HERE>

s: IF IF
##
## Ends in an error in state: 1.
##
## e -> IF . E THEN e [ ELSE EOF ]
## e -> IF . E THEN e ELSE e [ ELSE EOF ]
##
## The known suffix of the stack is as follows:
## IF
##
## Expected: E

<YOUR SYNTAX ERROR MESSAGE HERE>

s: E IF
##
## Ends in an error in state: 4.
##
## s -> e . EOF [ # ]
##
## The known suffix of the stack is as follows:
## e
##
## Reduced before the error: e -> E
## Expected: EOF

<YOUR SYNTAX ERROR MESSAGE HERE>

s: IF E IF
##
## Ends in an error in state: 5.
##
## e -> IF E . THEN e [ ELSE EOF ]
## e -> IF E . THEN e ELSE e [ ELSE EOF ]
##
## The known suffix of the stack is as follows:
## IF E
##
## Expected: THEN

<YOUR SYNTAX ERROR MESSAGE HERE>

s: IF E THEN THEN
##
## Ends in an error in state: 7.
##
## e -> IF E THEN . e [ ELSE EOF ]
## e -> IF E THEN . e ELSE e [ ELSE EOF ]
##
## The known suffix of the stack is as follows:
## IF E THEN
##
## Expected: IF E

<YOUR SYNTAX ERROR MESSAGE HERE>

s: IF E THEN E IF
##
## Ends in an error in state: 8.
##
## e -> IF E THEN e . [ ELSE EOF ]
## e -> IF E THEN e . ELSE e [ ELSE EOF ]
##
## The known suffix of the stack is as follows:
## IF E THEN e
##
## Reduced before the error: e -> E
## Expected: ELSE EOF

<YOUR SYNTAX ERROR MESSAGE HERE>

s: IF E THEN E ELSE THEN
##
## Ends in an error in state: 9.
##
## e -> IF E THEN e ELSE . e [ ELSE EOF ]
##
## The known suffix of the stack is as follows:
## IF E THEN e ELSE
##
## Expected: IF E

<YOUR SYNTAX ERROR MESSAGE HERE>

~
menhir: warning: conflict in state 8 on ELSE
^
0 --interpret-error --comment-expected g.mly
~
s: IF E THEN E IF
~
s: IF E THEN E IF
##
## Ends in an error in state: 8.
##
## e -> IF E THEN e . [ ELSE EOF ]
## e -> IF E THEN e . ELSE e [ ELSE EOF ]
##
## The known suffix of the stack is as follows:
## IF E THEN e
##
## Reduced before the error: e -> E
## Expected: ELSE EOF

<YOUR SYNTAX ERROR MESSAGE HERE>

~
menhir: warning: conflict in state 8 on ELSE
^
0 --update-errors m --comment-expected g.mly
~
m
s: IF E THEN E IF
s: E IF
## old

M
~
~
s: IF E THEN E IF
##
## Ends in an error in state: 8.
##
## e -> IF E THEN e . [ ELSE EOF ]
## e -> IF E THEN e . ELSE e [ ELSE EOF ]
##
## The known suffix of the stack is as follows:
## IF E THEN e
##
## Reduced before the error: e -> E
## Expected: ELSE EOF
s: E IF
##
## Ends in an error in state: 4.
##
## s -> e . EOF [ # ]
##
## The known suffix of the stack is as follows:
## e
##
## Reduced before the error: e -> E
## Expected: EOF

M
~
menhir: warning: conflict in state 8 on ELSE
^
2 --interpret --comment-expected g.mly
~
~
~
menhir: usage: misplaced --comment-expected
^
2 --echo-errors m --comment-expected g.mly
~
~
~
menhir: usage: misplaced --comment-expected
";

const ONE_SENTENCE: &str = "0 --list-errors --comment-expected g.mly
~
g.mly
%token A EOF
%start s
%%
s: A EOF {}
~
~
s: EOF
##
## Ends in an error in state: 0.
##
## s' -> . s [ # ]
##
## The known suffix of the stack is as follows:
##
##
## Expected: A

<YOUR SYNTAX ERROR MESSAGE HERE>

s: A A
##
## Ends in an error in state: 1.
##
## s -> A . EOF [ # ]
##
## The known suffix of the stack is as follows:
## A
##
## Expected: EOF

<YOUR SYNTAX ERROR MESSAGE HERE>

~
";

const SMALL: &str = "g.mly\n%token A EOF\n%start s\n%%\ns: A EOF {}\n";

// A kept entry and a new one.
const REBASED: &str = "0 --rebase-errors m --comment-expected g.mly
~
m
s: A A

M
~
~
s: A A
##
## Ends in an error in state: 1.
##
## s -> A . EOF [ # ]
##
## The known suffix of the stack is as follows:
## A
##
## Expected: EOF

M

s: EOF
##
## Ends in an error in state: 0.
##
## s' -> . s [ # ]
##
## The known suffix of the stack is as follows:
##
##
## Expected: A

<YOUR SYNTAX ERROR MESSAGE HERE>

~
";

#[test]
fn branches(rt: HostRuntime) -> Result<(), Fail> {
    check_cases_with(rt.alloc(), BRANCHES, CASES)
}

#[test]
fn rebased(rt: HostRuntime) -> Result<(), Fail> {
    check_cases_with(rt.alloc(), SMALL, REBASED)
}

#[test]
fn one_sentence(rt: HostRuntime) -> Result<(), Fail> {
    check_cases(rt.alloc(), ONE_SENTENCE)
}
