//! Everything that is wrong with a messages file, in one run.
use crate::errors::LONG;
use mh_worked_cases::check_cases_with;
use std::alloc::Global;
use std::fmt::Write;
use std::test::Fail;

/// The grammar for which the files are examined.
const GRAMMAR: &str = "g.mly\n%token A B EOF\n%start s\n%%\ns: A B EOF {}\n";

// A file with a message that nobody has written yet, an unknown token, a state that two sentences share and a state
// without an entry; an empty file; a file with which nothing is wrong; a line for each reason; a last block without a
// message; an entry of two sentences whose message is not written, the second of them unreadable; a file with CR LF; a
// line without a start where there are two; a file that is absent.
const CHECKED: &str = "1 --check-errors m g.mly
~
m
s: EOF

Expected A.

s: A A

<YOUR SYNTAX ERROR MESSAGE HERE>

s: A Z

Gone.

s: A EOF

Twice.
~
~
m:5: no message yet
m:9: unknown token Z
m:13: state 1 is shared with line 5
state 3 has no entry: s: A B A
~
^
1 --check-errors m g.mly
~
m
~
~
state 0 has no entry: s: B
state 1 has no entry: s: A A
state 3 has no entry: s: A B A
~
^
0 --check-errors m g.mly
~
m
# by hand
s: B
s: A A

One for two.

A B B

Three.
~
~
~
^
1 --check-errors m g.mly
~
m
s: A B EOF
A B
s: B B
r: B
A, B
A A

Many.

B

<YOUR SYNTAX ERROR MESSAGE HERE>
And more.

A B A
A B B
~
~
m:1: not refused: ACCEPT
m:2: not refused: OVERSHOOT
m:3: refused early at index 0
m:4: unknown start r
m:5: unreadable
m:10: no message yet
m:15: shape
state 3 has no entry: s: A B A
~
^
1 --check-errors m g.mly
~
m
A A
A ,

<YOUR SYNTAX ERROR MESSAGE HERE>
~
~
m:2: unreadable
m:2: no message yet
state 0 has no entry: s: B
state 3 has no entry: s: A B A
~
^
1 --check-errors m g.mly
~
m
s: EOF\r
\r
<YOUR SYNTAX ERROR MESSAGE HERE>\r
\r
s: A Z\r
\r
Gone.\r
~
~
m:1: no message yet
m:5: unknown token Z
state 1 has no entry: s: A A
state 3 has no entry: s: A B A
~
^
1 --check-errors m h.mly
~
h.mly
%token A B
%start s t
%%
s: A {}
t: B {}
~
m
A

M
~
~
m:1: missing start
state 0 has no entry: s: B
state 1 has no entry: t: A
~
^
3 --check-errors n g.mly
~
m
~
~
~
menhir: cannot read n
";

const TOO_LONG: &str = "1 --check-errors m g.mly
~
m
~
~
~
menhir: too long: state 3
";

/// A case in which the grammar has lost the token that all 62 entries of a messages file name: 65 lines are written.
fn lost_token(alloc: Global) -> String {
    let mut case = String::new(alloc);
    let _ = write!(case, "1 --check-errors m g.mly\n~\nm\n");
    for _ in 0..62u32 {
        let _ = write!(case, "s: A Z\n\nGone.\n\n");
    }
    let _ = write!(case, "~\n~\n");
    for entry in 0..62u32 {
        let _ = write!(case, "m:{}: unknown token Z\n", entry * 4 + 1);
    }
    let _ = write!(case, "state 0 has no entry: s: B\n");
    let _ = write!(case, "state 1 has no entry: s: A A\n");
    let _ = write!(case, "state 3 has no entry: s: A B A\n~\n");
    case
}

#[test]
fn checked_messages_files(rt: HostRuntime) -> Result<(), Fail> {
    let alloc = rt.alloc();
    check_cases_with(alloc, GRAMMAR, CHECKED)?;
    check_cases_with(alloc, LONG, TOO_LONG)?;
    let case = lost_token(alloc);
    check_cases_with(alloc, GRAMMAR, case.as_str())
}
