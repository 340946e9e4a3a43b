//! Texts of automata: merged ones, and canonical ones if the words ask for them.
use mh_worked_cases::check_cases;
use std::test::Fail;

// The texts of merged automata. The input is not read.
const MERGED: &str = "0 --show-automaton g.mly
~
g.mly
%start s
%%
s: {}
~
A
~
merged: 2 states
state 0
  s' -> . s [ # ]
  default: reduce s ->
  s: goto 1
state 1
  s' -> s . [ # ]
  default: accept
~
^
0 --show-automaton g.mly
~
g.mly
%token C D
%start s
%%
s: c c {}
c: C c {} | D {}
~
~
merged: 7 states
state 0
  s' -> . s [ # ]
  C: shift 1
  D: shift 2
  s: goto 3
  c: goto 4
state 1
  c -> C . c [ C D # ]
  C: shift 1
  D: shift 2
  c: goto 5
state 2
  c -> D . [ C D # ]
  default: reduce c -> D
state 3
  s' -> s . [ # ]
  default: accept
state 4
  s -> c . c [ # ]
  C: shift 1
  D: shift 2
  c: goto 6
state 5
  c -> C c . [ C D # ]
  default: reduce c -> C c
state 6
  s -> c c . [ # ]
  default: reduce s -> c c
~
^
0 --show-automaton g.mly
~
g.mly
%token A B
%start s
%%
s: x B {} | A B B {} | B x {}
x: B s A {}
~
~
merged: 11 states
state 0
...
~
menhir: warning: end-of-stream conflict in state 7
";

const TEXTS: &str = "0 --show-automaton --canonical g.mly
~
g.mly
%start s
%%
s: {}
~
A
~
canonical: 2 states
state 0
  s' -> . s [ # ]
  default: reduce s ->
  s: goto 1
state 1
  s' -> s . [ # ]
  default: accept
~
^
0 --show-automaton --canonical g.mly
~
g.mly
%token C D
%start s
%%
s: c c {}
c: C c {} | D {}
~
~
canonical: 10 states
state 0
  s' -> . s [ # ]
  C: shift 1
  D: shift 2
  s: goto 3
  c: goto 4
state 1
  c -> C . c [ C D ]
  C: shift 1
  D: shift 2
  c: goto 5
state 2
  c -> D . [ C D ]
  C: reduce c -> D
  D: reduce c -> D
state 3
  s' -> s . [ # ]
  default: accept
state 4
  s -> c . c [ # ]
  C: shift 6
  D: shift 7
  c: goto 8
state 5
  c -> C c . [ C D ]
  C: reduce c -> C c
  D: reduce c -> C c
state 6
  c -> C . c [ # ]
  C: shift 6
  D: shift 7
  c: goto 9
state 7
  c -> D . [ # ]
  default: reduce c -> D
state 8
  s -> c c . [ # ]
  default: reduce s -> c c
state 9
  c -> C c . [ # ]
  default: reduce c -> C c
~
^
0 --show-automaton --canonical g.mly
~
g.mly
%token A B C D
%start p q
%%
p: x A {}
q: x B {}
x: C D {}
~
~
canonical: 12 states
state 0
  p' -> . p [ # ]
  C: shift 2
  p: goto 3
  x: goto 4
state 1
  q' -> . q [ # ]
  C: shift 5
  q: goto 6
  x: goto 7
state 2
  x -> C . D [ A ]
  D: shift 8
state 3
  p' -> p . [ # ]
  default: accept
state 4
  p -> x . A [ # ]
  A: shift 9
state 5
  x -> C . D [ B ]
  D: shift 10
state 6
  q' -> q . [ # ]
  default: accept
state 7
  q -> x . B [ # ]
  B: shift 11
state 8
  x -> C D . [ A ]
  A: reduce x -> C D
state 9
  p -> x A . [ # ]
  default: reduce p -> x A
state 10
  x -> C D . [ B ]
  B: reduce x -> C D
state 11
  q -> x B . [ # ]
  default: reduce q -> x B
~
";

// A token that a level makes an error; a production that is reduced on errors, and the same grammar without this; an
// action at the end of the stream that is dropped because of a token.
const CELLS: &str = "0 --canonical --show-automaton --strict g.mly
~
g.mly
%token INT EQ EOF
%nonassoc EQ
%start main
%%
main: e EOF {}
e: INT {} | e EQ e {}
~
~
canonical: 7 states
state 0
  main' -> . main [ # ]
  INT: shift 1
  main: goto 2
  e: goto 3
state 1
  e -> INT . [ EQ EOF ]
  EQ: reduce e -> INT
  EOF: reduce e -> INT
state 2
  main' -> main . [ # ]
  default: accept
state 3
  main -> e . EOF [ # ]
  e -> e . EQ e [ EQ EOF ]
  EQ: shift 4
  EOF: shift 5
state 4
  e -> e EQ . e [ EQ EOF ]
  INT: shift 1
  e: goto 6
state 5
  main -> e EOF . [ # ]
  default: reduce main -> e EOF
state 6
  e -> e . EQ e [ EQ EOF ]
  e -> e EQ e . [ EQ EOF ]
  EQ: hole
  EOF: reduce e -> e EQ e
~
^
0 --show-automaton --canonical g.mly
~
g.mly
%token X SEMI EOF
%on_error_reduce s
%start main
%%
main: s EOF {}
s: X {} | X SEMI {}
~
~
canonical: 6 states
state 0
  main' -> . main [ # ]
  X: shift 1
  main: goto 2
  s: goto 3
state 1
  s -> X . [ EOF ]
  s -> X . SEMI [ EOF ]
  X: reduce s -> X
  SEMI: shift 4
  EOF: reduce s -> X
state 2
  main' -> main . [ # ]
  default: accept
state 3
  main -> s . EOF [ # ]
  EOF: shift 5
state 4
  s -> X SEMI . [ EOF ]
  X: reduce s -> X SEMI
  SEMI: reduce s -> X SEMI
  EOF: reduce s -> X SEMI
state 5
  main -> s EOF . [ # ]
  default: reduce main -> s EOF
~
^
0 --show-automaton --canonical g.mly
~
g.mly
%token X SEMI EOF
%start main
%%
main: s EOF {}
s: X {} | X SEMI {}
~
~
canonical: 6 states
state 0
  main' -> . main [ # ]
  X: shift 1
  main: goto 2
  s: goto 3
state 1
  s -> X . [ EOF ]
  s -> X . SEMI [ EOF ]
  SEMI: shift 4
  EOF: reduce s -> X
state 2
  main' -> main . [ # ]
  default: accept
state 3
  main -> s . EOF [ # ]
  EOF: shift 5
state 4
  s -> X SEMI . [ EOF ]
  EOF: reduce s -> X SEMI
state 5
  main -> s EOF . [ # ]
  default: reduce main -> s EOF
~
^
0 --show-automaton --canonical g.mly
~
g.mly
%token INT PLUS
%start e
%%
e: INT {} | e PLUS INT {}
~
~
canonical: 5 states
state 0
  e' -> . e [ # ]
  INT: shift 1
  e: goto 2
state 1
  e -> INT . [ PLUS # ]
  default: reduce e -> INT
state 2
  e' -> e . [ # ]
  e -> e . PLUS INT [ PLUS # ]
  PLUS: shift 3
state 3
  e -> e PLUS . INT [ PLUS # ]
  INT: shift 4
state 4
  e -> e PLUS INT . [ PLUS # ]
  default: reduce e -> e PLUS INT
~
menhir: warning: end-of-stream conflict in state 2
";

// The numbers of states of canonical automata: two uses of one rule before different tokens; sums by rules and by
// levels; branches by levels; a grammar file as users write it.
const COUNTS: &str = r#"0 --canonical --show-automaton --strict g.mly
~
g.mly
%token A B C D E
%start s
%%
s: A x D {} | B y D {} | A y E {} | B x E {}
x: C {}
y: C {}
~
~
canonical: 14 states
state 0
...
~
^
0 --canonical --show-automaton --strict g.mly
~
g.mly
%token INT PLUS TIMES EOF
%start main
%%
main: e EOF {}
e: e PLUS t {} | t {}
t: t TIMES INT {} | INT {}
~
~
canonical: 10 states
state 0
...
~
^
0 --canonical --show-automaton --strict g.mly
~
g.mly
%token IF ELSE X EOF
%nonassoc THEN
%nonassoc ELSE
%start main
%%
main: s EOF {}
s: IF s %prec THEN {} | IF s ELSE s {} | X {}
~
~
canonical: 14 states
state 0
...
~
^
0 --canonical --show-automaton --strict g.mly
~
g.mly
%token EOF LP RP INT
%token OP1
%token OP2
%start main
%%
main: e1 EOF {}
e1: e1 OP1 e2 {} | e2 {}
e2: e2 OP2 a {} | a {}
a: INT {} | LP e1 RP {}
~
~
canonical: 24 states
state 0
...
~
^
0 --canonical --show-automaton --strict g.mly
~
g.mly
%{ open Ast %}
%token <int> INT
%token PLUS "+" TIMES "*" LPAREN "(" RPAREN ")" EOF
%left "+"
%left "*"
%start <Ast.expr> main
%%
main: e = expr; EOF { e }
expr:
| n = INT { Int n }
| "(" e = expr ")" { e }
| a = expr "+" b = expr { Add (a, b) }
| a = expr "*" b = expr { Mul (a, b) }
~
~
canonical: 20 states
state 0
...
~
"#;

// The expected outcomes for the same grammars with merged automata.
const MERGED_COUNTS: &str = r#"0 --show-automaton --strict g.mly
~
g.mly
%token A B C D E
%start s
%%
s: A x D {} | B y D {} | A y E {} | B x E {}
x: C {}
y: C {}
~
~
merged: 14 states
state 0
...
~
^
0 --show-automaton --strict g.mly
~
g.mly
%token INT PLUS TIMES EOF
%start main
%%
main: e EOF {}
e: e PLUS t {} | t {}
t: t TIMES INT {} | INT {}
~
~
merged: 10 states
state 0
...
~
^
0 --show-automaton --strict g.mly
~
g.mly
%token IF ELSE X EOF
%nonassoc THEN
%nonassoc ELSE
%start main
%%
main: s EOF {}
s: IF s %prec THEN {} | IF s ELSE s {} | X {}
~
~
merged: 9 states
state 0
...
~
^
0 --show-automaton --strict g.mly
~
g.mly
%token EOF LP RP INT
%token OP1
%token OP2
%start main
%%
main: e1 EOF {}
e1: e1 OP1 e2 {} | e2 {}
e2: e2 OP2 a {} | a {}
a: INT {} | LP e1 RP {}
~
~
merged: 14 states
state 0
...
~
^
0 --show-automaton --strict g.mly
~
g.mly
%{ open Ast %}
%token <int> INT
%token PLUS "+" TIMES "*" LPAREN "(" RPAREN ")" EOF
%left "+"
%left "*"
%start <Ast.expr> main
%%
main: e = expr; EOF { e }
expr:
| n = INT { Int n }
| "(" e = expr ")" { e }
| a = expr "+" b = expr { Add (a, b) }
| a = expr "*" b = expr { Mul (a, b) }
~
~
merged: 12 states
state 0
...
~
"#;

#[test]
fn texts_of_automata(rt: HostRuntime) -> Result<(), Fail> {
    let alloc = rt.alloc();
    check_cases(alloc, MERGED)?;
    check_cases(alloc, TEXTS)?;
    check_cases(alloc, CELLS)?;
    check_cases(alloc, COUNTS)?;
    check_cases(alloc, MERGED_COUNTS)
}
