//! Grammars of several files.
use mh_worked_cases::check_cases;
use std::test::Fail;

// Tokens, aliases and public rules are shared by all files. Other rules belong to their file. If another file has a
// rule of the same name, the printed name contains the number of the file.
const JOINED: &str = r#"0 --interpret a.mly b.mly
~
a.mly
%token X Y EOF
%start main
%%
main: unit nonempty_list(item) EOF {}
%public item: X {}
unit: {}
~
b.mly
%%
%public item: Y {}
unit: Y {}
~
X Y EOF
EOF
Y
~
ACCEPT
REJECT
OVERSHOOT
~
^
0 --interpret --interpret-show-cst b.mly a.mly
~
a.mly
%token X Y EOF
%start main
%%
main: unit nonempty_list(item) EOF {}
%public item: X {}
unit: {}
~
b.mly
%%
%public item: Y {}
unit: Y {}
~
X Y EOF
~
ACCEPT
[main: [unit@2:] [nonempty_list(item): [item: X] [nonempty_list(item): [item: Y]]] EOF]
~
^
0 --interpret --interpret-show-cst a.mly b.mly
~
a.mly
%token PLUS "+" INT EOF
%start main
%%
main: e EOF {}
~
b.mly
%left "+"
%%
%public e: INT {} | e "+" e {}
~
INT PLUS INT PLUS INT EOF
~
ACCEPT
[main: [e: [e: [e: INT] PLUS [e: INT]] PLUS [e: INT]] EOF]
~
^
0 --interpret a.mly b.mly
~
a.mly
%token A B
%%
s: A {}
~
b.mly
%start s
%%
s: B {}
~
A
B
~
ACCEPT
ACCEPT
~
"#;

// A file's own rule hides a public rule of the same name, and a public rule hides that of the prelude. If a file
// defines a rule that the prelude has, the prelude's rule is printed with `@0` after its name.
const SHADOWED: &str = r#"0 --interpret --interpret-show-cst a.mly b.mly
~
a.mly
%token A B EOF
%start main
%%
main: B* items EOF {}
list(E): E E {}
~
b.mly
%%
%public items: A* {}
~
B B A EOF
B A EOF
~
ACCEPT
[main: [list(B): B B] [items: [list@0(A): A [list@0(A):]]] EOF]
REJECT
~
^
0 --interpret --interpret-show-cst g.mly
~
g.mly
%token A EOF
%start s
%%
s: A? EOF {}
%public option(X): X X {}
~
A A EOF
EOF
~
ACCEPT
[s: [option(A): A A] EOF]
REJECT
~
^
0 --interpret --interpret-show-cst a.mly b.mly c.mly
~
a.mly
%token A B C EOF
%start main
%%
main: x y z EOF {}
%public x: w {}
%public w: A {}
~
b.mly
%%
%public y: w {}
w: B {}
~
c.mly
%%
%public z: w {}
w: C {}
~
A B C EOF
~
ACCEPT
[main: [x: [w: A]] [y: [w@2: B]] [z: [w@3: C]] EOF]
~
"#;

// Levels of different files cannot be compared, so the token is shifted, with a warning. A file that is given twice
// counts as two files with separate rules.
const APART: &str = "0 --interpret --interpret-show-cst a.mly b.mly
~
a.mly
%token INT PLUS TIMES EOF
%left PLUS
%start main
%%
main: e EOF {}
%public e: INT {} | e PLUS e {}
~
b.mly
%left TIMES
%%
%public e: e TIMES e {}
~
INT PLUS INT PLUS INT EOF
INT PLUS INT TIMES INT EOF
INT TIMES INT PLUS INT EOF
~
ACCEPT
[main: [e: [e: [e: INT] PLUS [e: INT]] PLUS [e: INT]] EOF]
ACCEPT
[main: [e: [e: INT] PLUS [e: [e: INT] TIMES [e: INT]]] EOF]
ACCEPT
[main: [e: [e: INT] TIMES [e: [e: INT] PLUS [e: INT]]] EOF]
~
menhir: warning: conflict in state 7 on TIMES
menhir: warning: conflict in state 8 on PLUS
^
0 --interpret --interpret-show-cst g.mly g.mly
~
g.mly
%token A EOF
%start s
%%
s: A EOF {}
~
A EOF
~
ACCEPT
[s: A EOF]
~
menhir: warning: conflict in state 3 on #
^
0 --interpret --interpret-show-cst g.mly g.mly
~
g.mly
%token A EOF
%start s
%%
s: t EOF {}
t: A {}
~
A EOF
~
ACCEPT
[s: [t@1: A] EOF]
~
menhir: warning: conflict in state 1 on EOF
";

const REFUSED: &str = r#"1 --interpret a.mly b.mly
~
a.mly
%token A
%start s
%%
s: u {}
t: A {}
~
b.mly
%%
%public u: t {}
~
~
~
menhir: undefined: t
^
1 --interpret a.mly b.mly
~
a.mly
%token A "x"
%start s
%%
s: A {}
~
b.mly
%token B "x"
%%
~
~
~
menhir: duplicate: x
^
1 --interpret a.mly b.mly
~
a.mly
%token A B
%start s
%%
s: A {}
~
b.mly
%%
B: A {}
~
~
~
menhir: duplicate: B
^
1 --interpret a.mly b.mly
~
a.mly
%token A
%start s
%%
s: t {}
%public t: A {}
~
b.mly
%%
%public t(X): X {}
~
~
~
menhir: duplicate: t
^
1 --interpret a.mly b.mly
~
a.mly
%token A
%left A
%start s
%%
s: A {}
~
b.mly
%left A
%%
~
~
~
menhir: duplicate: A
^
1 --interpret a.mly b.mly
~
a.mly
%token A
%%
s: A {}
~
b.mly
%%
t: A {}
~
~
~
menhir: no start symbol
"#;

// Each file is read and parsed before the next, and all of them are parsed before they are joined.
const IN_TURN: &str = "3 --interpret a.mly b.mly
~
a.mly
%token A
%start s
%%
s: A {}
~
~
~
menhir: cannot read b.mly
^
1 --interpret a.mly b.mly
~
a.mly
%token A
%start s
s: A {}
~
~
~
menhir: a.mly:3: syntax error
^
3 --interpret a.mly b.mly
~
b.mly
%token
~
~
~
menhir: cannot read a.mly
^
1 --interpret a.mly b.mly
~
a.mly
%start s
%%
s: A {}
~
b.mly
%token
+
%%
~
~
~
menhir: b.mly:2: syntax error
";

#[test]
fn several_files(rt: HostRuntime) -> Result<(), Fail> {
    let alloc = rt.alloc();
    check_cases(alloc, JOINED)?;
    check_cases(alloc, SHADOWED)?;
    check_cases(alloc, APART)?;
    check_cases(alloc, REFUSED)?;
    check_cases(alloc, IN_TURN)
}
