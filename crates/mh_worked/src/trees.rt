//! Trees of accepted sentences.
use mh_worked_cases::{check_cases, check_cases_with};
use std::test::Fail;

const TREES: &str = "0 --interpret --interpret-show-cst g.mly
~
g.mly
%token COMMA X Y EOF
%start main
%%
main: separated_list(COMMA, X) Y* EOF {}
list(E): E E {}
~
X COMMA X Y Y EOF
EOF
X COMMA Y Y EOF
Y Y EOF
~
ACCEPT
[main: [loption(separated_nonempty_list(COMMA,X)): [separated_nonempty_list(COMMA,X): X COMMA [separated_nonempty_list(COMMA,X): X]]] [list(Y): Y Y] EOF]
REJECT
REJECT
ACCEPT
[main: [loption(separated_nonempty_list(COMMA,X)):] [list(Y): Y Y] EOF]
~
^
0 --interpret --interpret-show-cst g.mly
~
g.mly
%start s
%%
s: {}
~

~
ACCEPT
[s:]
~
^
0 --interpret --interpret-show-cst g.mly
~
g.mly
%token A B C D
%start p q
%%
p: x A {}
q: x B {}
x: C D {}
~
q: C D B
C D B
p: C D A
~
ACCEPT
[q: [x: C D] B]
ERROR missing start
ACCEPT
[p: [x: C D] A]
~
";

// An ELSE belongs to the inner IF: in one grammar because shifting is preferred, with a warning, and in the other
// because its level is higher, without a warning.
const BRANCHES: &str = "0 --interpret --interpret-show-cst g.mly
~
g.mly
%token IF ELSE X EOF
%start main
%%
main: s EOF {}
s: IF s {} | IF s ELSE s {} | X {}
~
IF IF X ELSE X EOF
IF
X X
X EOF X
Y
1
~
ACCEPT
[main: [s: IF [s: IF [s: X] ELSE [s: X]]] EOF]
OVERSHOOT
REJECT
ACCEPT
[main: [s: X] EOF]
ERROR unknown token Y
ERROR unreadable
~
menhir: warning: conflict in state 5 on ELSE
^
0 --interpret --interpret-show-cst g.mly
~
g.mly
%token IF ELSE X EOF
%nonassoc THEN
%nonassoc ELSE
%start main
%%
main: s EOF {}
s: IF s %prec THEN {} | IF s ELSE s {} | X {}
~
IF IF X ELSE X EOF
~
ACCEPT
[main: [s: IF [s: IF [s: X] ELSE [s: X]]] EOF]
~
^
0 --interpret --interpret-show-cst --strict g.mly
~
g.mly
%token IF ELSE X EOF
%nonassoc THEN
%nonassoc ELSE
%start main
%%
main: s EOF {}
s: IF s %prec THEN {} | IF s ELSE s {} | X {}
~
IF IF X ELSE X EOF
~
ACCEPT
[main: [s: IF [s: IF [s: X] ELSE [s: X]]] EOF]
~
";

// Left and right associativity, higher and lower levels; an inlined operator gives its level to the production; the
// sign of a number binds tightest.
const LEVELS: &str = r#"0 --interpret --interpret-show-cst --strict g.mly
~
g.mly
%token INT PLUS "+" MINUS "-" TIMES "*" ARROW EOF
%right ARROW
%left "+" "-"
%left "*"
%nonassoc SIGN
%start main
%%
main: e EOF {}
e: INT {} | e sign e {} | "-" e %prec SIGN {} | e ARROW e {}
%inline sign: "+" {} | "-" {} | "*" {}
~
INT MINUS INT PLUS INT EOF
INT PLUS INT TIMES INT EOF
INT TIMES INT PLUS INT EOF
MINUS INT TIMES INT EOF
INT ARROW INT ARROW INT PLUS INT EOF
~
ACCEPT
[main: [e: [e: [e: INT] MINUS [e: INT]] PLUS [e: INT]] EOF]
ACCEPT
[main: [e: [e: INT] PLUS [e: [e: INT] TIMES [e: INT]]] EOF]
ACCEPT
[main: [e: [e: [e: INT] TIMES [e: INT]] PLUS [e: INT]] EOF]
ACCEPT
[main: [e: [e: MINUS [e: INT]] TIMES [e: INT]] EOF]
ACCEPT
[main: [e: [e: INT] ARROW [e: [e: INT] ARROW [e: [e: INT] PLUS [e: INT]]]] EOF]
~
"#;

// The rules of the prelude. Inlined rules leave no node.
const PRELUDE: &str = "0 --interpret --interpret-show-cst g.mly
~
g.mly
%token A B C COMMA EOF
%start main
%%
main: delimited(A, pair(B?, C), A) preceded(B, separated_pair(C, COMMA, C)) terminated(A, B) ioption(C) EOF {}
~
A C A B C COMMA C A B EOF
A B C A B C COMMA C A B C EOF
~
ACCEPT
[main: A [option(B):] C A B C COMMA C A B EOF]
ACCEPT
[main: A [option(B): B] C A B C COMMA C A B C EOF]
~
^
0 --interpret --interpret-show-cst g.mly
~
g.mly
%token A B C D COMMA EOF
%start main
%%
main: A+ separated_nonempty_list(COMMA, B*) boption(C) endrule(D) midrule(B) rev(append(flatten(B), A)) EOF {}
~
A A COMMA B C D B B A EOF
~
ACCEPT
[main: [nonempty_list(A): A [nonempty_list(A): A]] [separated_nonempty_list(COMMA,list(B)): [list(B):] COMMA [separated_nonempty_list(COMMA,list(B)): [list(B): B [list(B):]]]] [boption(C): C] D [midrule(B): B] B A EOF]
~
^
0 --interpret --interpret-show-cst g.mly
~
g.mly
%token A B EOF
%start main
%%
main: twice(twice2, A) both(A, B) EOF {}
twice(F, X): F(X) F(X) {}
twice2(X): X X {}
both(X, Y): p = X q = Y {}
~
A A A A A B EOF
~
ACCEPT
[main: [twice(twice2,A): [twice2(A): A A] [twice2(A): A A]] [both(A,B): A B] EOF]
~
";

// The sentence B has a tree of height 2, and each A before it makes the tree higher by 1. Trees of a height over 4,000
// are refused; verdicts without trees have no such limit.
const NESTED: &str = "g.mly
%token A B
%start s
%%
s: A s {} | B {}
";

const HEIGHTS: &str = "0 --interpret --interpret-show-cst g.mly
~
`0..3998 A `B
~
ACCEPT
`0..3998 [s: A `[s: B]`0..3998 ]`
~
^
0 --interpret --interpret-show-cst g.mly
~
`0..3999 A `B
~
TOODEEP
~
^
0 --interpret g.mly
~
`0..3998 A `B
~
ACCEPT
~
^
0 --interpret g.mly
~
`0..3999 A `B
~
ACCEPT
~
";

#[test]
fn trees_of_lines(rt: HostRuntime) -> Result<(), Fail> {
    let alloc = rt.alloc();
    check_cases(alloc, TREES)?;
    check_cases(alloc, BRANCHES)?;
    check_cases(alloc, LEVELS)?;
    check_cases(alloc, PRELUDE)?;
    check_cases_with(alloc, NESTED, HEIGHTS)
}
