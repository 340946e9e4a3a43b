//! Messages files that are maintained while grammars grow: their sentences, the states that one has and another lacks,
//! and their comment lines.
use mh_worked_cases::{ONE_SENTENCE_FILE, check_cases_with};
use std::test::Fail;

// The sentences of a messages file, one a line, in the order of the file, whatever their verdicts are. The fault of a
// file that is not a messages file is reported as in other modes.
const ECHOED: &str = "0 --echo-errors m g.mly
~
m
# by hand
  A   EOF
## Ends in an error in state: 0.
s :EOF

M

A A
A A

M
~
~
s: A EOF
s: EOF
s: A A
s: A A
~
^
0 --echo-errors m g.mly
~
m
# nothing
~
~
~
^
1 --echo-errors m g.mly
~
m
A A
~
~
~
menhir: m:1: shape
^
1 --echo-errors m g.mly
~
m
A A
A Z

M
~
~
~
menhir: m:2: unknown token Z
^
0 --echo-errors m g.mly
~
m
# by hand
s: EOF
## Ends in an error in state: 0.

Expected A.
# inside
Nothing else begins a sentence.

A A

Expected EOF.
~
~
s: EOF
s: A A
~
^
0 --echo-errors m g.mly
~
m
A A

Expected EOF.

EOF

Expected A.
~
~
s: A A
s: EOF
~
^
3 --echo-errors m g.mly
~
~
~
menhir: cannot read m
^
4 --echo-errors m g.mly
out 1
~
m
EOF

M
~
~
~
";

// The states that the first file names and the second does not, in rising order. Each file is read and checked before
// the next.
const COMPARED: &str = "0 --compare-errors a --compare-errors b g.mly
~
a
EOF

M

A A

N
~
b
A A
EOF

O
~
~
~
^
1 --compare-errors a --compare-errors b g.mly
~
a
A A

N

EOF

M
~
b
~
~
~
menhir: state 0 of a is missing in b
menhir: state 1 of a is missing in b
^
1 --compare-errors=a g.mly --compare-errors=b
~
a
EOF

M
~
b
A A

N
~
~
~
menhir: state 0 of a is missing in b
^
0 --compare-errors b --compare-errors b g.mly
~
b
A A

N
~
~
~
^
3 --compare-errors a --compare-errors b g.mly
~
a
EOF

M
~
~
~
menhir: cannot read b
^
1 --compare-errors a --compare-errors b g.mly
~
a
EOF A

M
~
~
~
menhir: a:1: refused early at index 0
^
1 --compare-errors a --compare-errors b g.mly
~
a
EOF

M
~
b
A EOF

M
~
~
~
menhir: b:1: not refused: ACCEPT
^
3 --compare-errors a --compare-errors b g.mly
shelf 3
~
a
EOF

M
~
b
EOF

M
~
~
~
menhir: cannot read b
^
2 --compare-errors a g.mly
~
~
~
menhir: usage: misplaced --compare-errors
";

// Updated files: the comment lines of each sentence are made anew, and every other line is unchanged. Two sentences may
// fail in one state.
const UPDATED: &str = "0 --update-errors m g.mly
~
m
s: EOF
## old

M
~
~
s: EOF
##
## Ends in an error in state: 0.
##
## s' -> . s [ # ]
##
## The known suffix of the stack is as follows:
##
##

M
~
^
0 --update-errors m g.mly
~
m
s: EOF

M

EOF

N
~
~
s: EOF
##
## Ends in an error in state: 0.
##
## s' -> . s [ # ]
##
## The known suffix of the stack is as follows:
##
##

M

EOF
##
## Ends in an error in state: 0.
##
## s' -> . s [ # ]
##
## The known suffix of the stack is as follows:
##
##

N
~
^
0 --update-errors m g.mly
~
m
# by hand
A A
## Ends in an error in state: 7.
##
s: EOF

M
## inside
N
~
~
# by hand
A A
##
## Ends in an error in state: 1.
##
## s -> A . EOF [ # ]
##
## The known suffix of the stack is as follows:
## A
##
s: EOF
##
## Ends in an error in state: 0.
##
## s' -> . s [ # ]
##
## The known suffix of the stack is as follows:
##
##

M
N
~
^
0 --update-errors m g.mly
~
m
# by hand
A A
##
## Ends in an error in state: 1.
##
## s -> A . EOF [ # ]
##
## The known suffix of the stack is as follows:
## A
##
s: EOF
##
## Ends in an error in state: 0.
##
## s' -> . s [ # ]
##
## The known suffix of the stack is as follows:
##
##

M
N
~
~
# by hand
A A
##
## Ends in an error in state: 1.
##
## s -> A . EOF [ # ]
##
## The known suffix of the stack is as follows:
## A
##
s: EOF
##
## Ends in an error in state: 0.
##
## s' -> . s [ # ]
##
## The known suffix of the stack is as follows:
##
##

M
N
~
^
0 --update-errors m g.mly
~
m
~
~
~
^
1 --update-errors m g.mly
~
m
A EOF

M
~
~
~
menhir: m:1: not refused: ACCEPT
^
1 --update-errors m g.mly
~
m
A A

M

A A A

N
~
~
~
menhir: m:5: refused early at index 1
^
1 --update-errors m g.mly
~
m
A A
~
~
~
menhir: m:1: shape
^
3 --update-errors m g.mly
~
~
~
menhir: cannot read m
^
4 --update-errors m g.mly
out 1
~
m
A A

M
~
~
~
";

#[test]
fn kept_files(rt: HostRuntime) -> Result<(), Fail> {
    let alloc = rt.alloc();
    check_cases_with(alloc, ONE_SENTENCE_FILE, ECHOED)?;
    check_cases_with(alloc, ONE_SENTENCE_FILE, COMPARED)?;
    check_cases_with(alloc, ONE_SENTENCE_FILE, UPDATED)
}
