//! Messages files that are rebased onto a changed grammar: the kept entries, the new entries, and the report of what
//! was dropped.
use crate::errors::LONG;
use mh_worked_cases::check_cases_with;
use std::test::Fail;

/// The grammar onto which the files are rebased.
const GRAMMAR: &str = "g.mly\n%token A B EOF\n%start s\n%%\ns: A B EOF {}\n";

// A file with two kept sentences, one with an unknown token and one that fails in the state of an earlier sentence; an
// empty file; a file without a message; a line for each reason; entries of which the second sentence alone is kept, or
// none; comment lines, which are made anew; a file that is absent; and a line without a start where there are two.
const REBASED: &str = "0 --rebase-errors m g.mly
~
m
s: EOF

Expected A.

s: A A

Expected EOF.

s: A Z

Gone.

s: A EOF

Twice.
~
~
s: EOF
##
## Ends in an error in state: 0.
##
## s' -> . s [ # ]
##
## The known suffix of the stack is as follows:
##
##

Expected A.

s: A A
##
## Ends in an error in state: 1.
##
## s -> A . B EOF [ # ]
##
## The known suffix of the stack is as follows:
## A
##

Expected EOF.

s: A B A
##
## Ends in an error in state: 3.
##
## s -> A B . EOF [ # ]
##
## The known suffix of the stack is as follows:
## A B
##

<YOUR SYNTAX ERROR MESSAGE HERE>

# dropped 9: unknown token Z
# Gone.
# dropped 13: state 1 is shared with line 5
# Twice.
~
^
0 --rebase-errors m g.mly
~
m
~
~
s: B
##
## Ends in an error in state: 0.
##
## s' -> . s [ # ]
##
## The known suffix of the stack is as follows:
##
##

<YOUR SYNTAX ERROR MESSAGE HERE>

s: A A
##
## Ends in an error in state: 1.
##
## s -> A . B EOF [ # ]
##
## The known suffix of the stack is as follows:
## A
##

<YOUR SYNTAX ERROR MESSAGE HERE>

s: A B A
##
## Ends in an error in state: 3.
##
## s -> A B . EOF [ # ]
##
## The known suffix of the stack is as follows:
## A B
##

<YOUR SYNTAX ERROR MESSAGE HERE>

~
^
1 --rebase-errors m g.mly
~
m
s: EOF
~
~
~
menhir: m:1: shape
^
0 --rebase-errors m g.mly
~
m
# by hand
:
x: A
A ;
A Z
A B EOF
A
B A
A A
A EOF

M
## inside
 N

A B A

K
~
~
s: A A
##
## Ends in an error in state: 1.
##
## s -> A . B EOF [ # ]
##
## The known suffix of the stack is as follows:
## A
##

M
 N

s: A B A
##
## Ends in an error in state: 3.
##
## s -> A B . EOF [ # ]
##
## The known suffix of the stack is as follows:
## A B
##

K

s: B
##
## Ends in an error in state: 0.
##
## s' -> . s [ # ]
##
## The known suffix of the stack is as follows:
##
##

<YOUR SYNTAX ERROR MESSAGE HERE>

# dropped 2: unreadable
# dropped 3: unknown start x
# dropped 4: unreadable
# dropped 5: unknown token Z
# dropped 6: not refused: ACCEPT
# dropped 7: not refused: OVERSHOOT
# dropped 8: refused early at index 0
# dropped 10: state 1 is shared with line 9
~
^
0 --rebase-errors m g.mly
~
m
A Z
A A

M

A Z
A A B

x
 y
z
~
~
s: A A
##
## Ends in an error in state: 1.
##
## s -> A . B EOF [ # ]
##
## The known suffix of the stack is as follows:
## A
##

M

s: B
##
## Ends in an error in state: 0.
##
## s' -> . s [ # ]
##
## The known suffix of the stack is as follows:
##
##

<YOUR SYNTAX ERROR MESSAGE HERE>

s: A B A
##
## Ends in an error in state: 3.
##
## s -> A B . EOF [ # ]
##
## The known suffix of the stack is as follows:
## A B
##

<YOUR SYNTAX ERROR MESSAGE HERE>

# dropped 1: unknown token Z
# dropped 6: unknown token Z
# dropped 7: refused early at index 1
# x
#  y
# z
~
^
0 --rebase-errors m g.mly
~
m
A A
## Ends in an error in state: 9.
##

M
~
~
s: A A
##
## Ends in an error in state: 1.
##
## s -> A . B EOF [ # ]
##
## The known suffix of the stack is as follows:
## A
##

M

s: B
##
## Ends in an error in state: 0.
##
## s' -> . s [ # ]
##
## The known suffix of the stack is as follows:
##
##

<YOUR SYNTAX ERROR MESSAGE HERE>

s: A B A
##
## Ends in an error in state: 3.
##
## s -> A B . EOF [ # ]
##
## The known suffix of the stack is as follows:
## A B
##

<YOUR SYNTAX ERROR MESSAGE HERE>

~
^
3 --rebase-errors m g.mly
~
~
~
menhir: cannot read m
^
0 --rebase-errors m h.mly
~
h.mly
%token A B
%start s t
%%
s: A {}
t: B {}
~
m
A

M
~
~
...
# dropped 1: missing start
# M
~
";

const TOO_LONG: &str = "1 --rebase-errors m g.mly
~
m
~
~
~
menhir: too long: state 3
";

#[test]
fn rebased_files(rt: HostRuntime) -> Result<(), Fail> {
    let alloc = rt.alloc();
    check_cases_with(alloc, GRAMMAR, REBASED)?;
    check_cases_with(alloc, LONG, TOO_LONG)
}
