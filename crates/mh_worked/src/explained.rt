//! Entries of a messages file for the sentence on the first line of the input (`--interpret-error`).
use mh_worked_cases::{ONE_SENTENCE_FILE, check_cases, check_cases_with};
use std::test::Fail;

// Only the first line is read; without lines, the sentence is empty. If the sentence is not refused at its last token,
// no entry is written, and the reason is reported.
const CASES: &str = "0 --interpret-error g.mly
~
A A
A Z
~
s: A A
##
## Ends in an error in state: 1.
##
## s -> A . EOF [ # ]
##
## The known suffix of the stack is as follows:
## A
##

<YOUR SYNTAX ERROR MESSAGE HERE>

~
^
1 --interpret-error g.mly
~
~
~
menhir: input: not refused: OVERSHOOT
^
1 --interpret-error g.mly
~
A EOF
~
~
menhir: input: not refused: ACCEPT
^
1 --interpret-error g.mly
~
EOF A
~
~
menhir: input: refused early at index 0
^
1 --interpret-error g.mly
~
A Z
~
~
menhir: input: unknown token Z
^
1 --interpret-error g.mly
~
r: A A
~
~
menhir: input: unknown start r
^
1 --interpret-error g.mly
~
A ; A
~
~
menhir: input: unreadable
^
3 --interpret-error g.mly
input 1
~
A A
~
~
menhir: cannot read the input
^
2 --interpret-error --interpret-show-cst g.mly
~
~
~
menhir: usage: misplaced --interpret-show-cst
";

// A grammar in which a production was reduced after the last shift; and a grammar with two start symbols, of which the
// sentence must name one.
const GRAMMARS: &str = "0 --interpret-error g.mly
~
g.mly
%token INT EQ EOF
%nonassoc EQ
%start main
%%
main: e EOF {}
e: INT {} | e EQ e {}
~
INT EQ INT EQ
~
main: INT EQ INT EQ
##
## Ends in an error in state: 6.
##
## e -> e . EQ e [ EQ EOF ]
## e -> e EQ e . [ EQ EOF ]
##
## The known suffix of the stack is as follows:
## e EQ e
##
## Reduced before the error: e -> INT

<YOUR SYNTAX ERROR MESSAGE HERE>

~
^
1 --interpret-error g.mly
~
g.mly
%token A B C D
%start p q
%%
p: x A {}
q: x B {}
x: C D {}
~
C A
~
~
menhir: input: missing start
";

#[test]
fn explained(rt: HostRuntime) -> Result<(), Fail> {
    let alloc = rt.alloc();
    check_cases_with(alloc, ONE_SENTENCE_FILE, CASES)?;
    check_cases(alloc, GRAMMARS)
}
