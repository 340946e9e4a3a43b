//! The explanations of conflicts.
use mh_worked_cases::check_cases;
use std::test::Fail;

// An ELSE may belong to either of two IF. In the canonical automaton, the outer IF is in another state.
const BRANCHES: &str = "0 --explain g.mly
~
g.mly
%token IF THEN ELSE E EOF
%start s
%%
s: e EOF {}
e: E {} | IF E THEN e {} | IF E THEN e ELSE e {}
~
~
conflict in state 8 on ELSE
  s: IF E THEN E . ELSE
  shift 9: e -> IF E THEN e . ELSE e
  reduce: e -> IF E THEN e .
  taken: shift 9

~
menhir: warning: conflict in state 8 on ELSE
^
0 --explain --canonical g.mly
~
g.mly
%token IF THEN ELSE E EOF
%start s
%%
s: e EOF {}
e: E {} | IF E THEN e {} | IF E THEN e ELSE e {}
~
~
conflict in state 15 on ELSE
  s: IF E THEN IF E THEN E . ELSE
  shift 16: e -> IF E THEN e . ELSE e
  reduce: e -> IF E THEN e .
  taken: shift 16

~
menhir: warning: conflict in state 15 on ELSE
^
1 --explain --strict g.mly
~
g.mly
%token IF THEN ELSE E EOF
%start s
%%
s: e EOF {}
e: E {} | IF E THEN e {} | IF E THEN e ELSE e {}
~
~
~
menhir: warning: conflict in state 8 on ELSE
";

// A shift against a reduction, two reductions, and conflicts with the end of the stream.
const KINDS: &str = "0 --explain g.mly
~
g.mly
%token INT PLUS EOF
%start s
%%
s: e EOF {}
e: e PLUS e {} | INT {}
~
~
conflict in state 6 on PLUS
  s: INT PLUS INT . PLUS
  shift 4: e -> e . PLUS e
  reduce: e -> e PLUS e .
  taken: shift 4

~
menhir: warning: conflict in state 6 on PLUS
^
0 --explain g.mly
~
g.mly
%token X Y
%start s
%%
s: a X {} | b X {} | Y a Y {}
a: {}
b: {}
~
~
conflict in state 0 on X
  s: . X
  reduce: a -> .
  reduce: b -> .
  taken: reduce a ->

~
menhir: warning: conflict in state 0 on X
^
0 --explain g.mly
~
g.mly
%token X SEMI
%start s
%%
s: l {}
l: X {} | l SEMI X {}
~
~
end-of-stream conflict in state 3
  s: X . SEMI
  reduce: s -> l .
  shift 4: l -> l . SEMI X
  taken: shift 4

~
menhir: warning: end-of-stream conflict in state 3
^
0 --explain g.mly
~
g.mly
%token A
%start s
%%
s: A {} | t {}
t: t A {}
~
~
end-of-stream conflict in state 3
  no sentence comes here
  reduce: s -> t .

~
menhir: warning: end-of-stream conflict in state 3
";

// Conflicts that levels solve are not explained.
const NONE: &str = "0 --explain g.mly
~
g.mly
%token INT PLUS EOF
%left PLUS
%start s
%%
s: e EOF {}
e: e PLUS e {} | INT {}
~
~
~
";

// The first sentence is that of the least cost, then of the first start, then of the lowest tokens. If each sentence
// costs too much, none is written. A conflict on a token may have no sentence either.
const SENTENCES: &str = "0 --explain g.mly
~
g.mly
%token A B C X
%start s
%%
s: u t {}
u: A {} | B C {}
t: a X {} | b X {}
a: {}
b: {}
~
~
conflict in state 4 on X
  s: A . X
  reduce: a -> .
  reduce: b -> .
  taken: reduce a ->

~
menhir: warning: conflict in state 4 on X
^
0 --explain g.mly
~
g.mly
%token A [@cost 5] B C X
%start s
%%
s: u t {}
u: A {} | B C {}
t: a X {} | b X {}
a: {}
b: {}
~
~
conflict in state 4 on X
  s: B C . X
  reduce: a -> .
  reduce: b -> .
  taken: reduce a ->

~
menhir: warning: conflict in state 4 on X
^
0 --explain g.mly
~
g.mly
%token P C X
%start p q
%%
p: c P {}
q: c {}
c: C a X {} | C b X {}
a: {}
b: {}
~
~
conflict in state 2 on X
  p: C . X
  reduce: a -> .
  reduce: b -> .
  taken: reduce a ->

~
menhir: warning: conflict in state 2 on X
^
0 --explain --canonical g.mly
~
g.mly
%token P C X
%start p q
%%
p: c P {}
q: c {}
c: C a X {} | C b X {}
a: {}
b: {}
~
~
conflict in state 2 on X
  p: C . X
  reduce: a -> .
  reduce: b -> .
  taken: reduce a ->

conflict in state 5 on X
  q: C . X
  reduce: a -> .
  reduce: b -> .
  taken: reduce a ->

~
menhir: warning: conflict in state 2 on X
menhir: warning: conflict in state 5 on X
^
0 --explain g.mly
~
g.mly
%token A [@cost 1000] X
%start s
%%
s: x10 t {}
x10: x9 x9 {}
x9: x8 x8 {}
x8: x7 x7 {}
x7: x6 x6 {}
x6: x5 x5 {}
x5: x4 x4 {}
x4: x3 x3 {}
x3: x2 x2 {}
x2: x1 x1 {}
x1: x0 x0 {}
x0: A {}
t: a X {} | b X {}
a: {}
b: {}
~
~
conflict in state 3 on X
  longer than 1000000
  reduce: a -> .
  reduce: b -> .
  taken: reduce a ->

~
menhir: warning: conflict in state 3 on X
^
0 --explain g.mly
~
g.mly
%token A [@cost 1000] X
%start s
%%
s: z z z z z t {}
z: y y y y y {}
y: x x x x x {}
x: A A A A A A A A {}
t: a X {} | b X {}
a: {}
b: {}
~
~
conflict in state 19 on X
  s:`0..1000  A` . X
  reduce: a -> .
  reduce: b -> .
  taken: reduce a ->

~
menhir: warning: conflict in state 19 on X
^
0 --explain g.mly
~
g.mly
%token A X
%start s
%%
s: A {} | t {}
t: t a X {} | t b X {}
a: {}
b: {}
~
~
conflict in state 3 on X
  no sentence comes here
  reduce: a -> .
  reduce: b -> .
  taken: reduce a ->

end-of-stream conflict in state 3
  no sentence comes here
  reduce: s -> t .

~
menhir: warning: conflict in state 3 on X
menhir: warning: end-of-stream conflict in state 3
";

// At the end of the stream, two reductions, and a start that may end or continue. A state with a default acts on each
// token, so the lowest token is shown.
const ENDS: &str = "0 --explain g.mly
~
g.mly
%token X Y
%start s
%%
s: a {} | b {}
a: X {}
b: X {}
~
~
conflict in state 1 on #
  s: X . X
  reduce: a -> X .
  reduce: b -> X .
  taken: reduce a -> X

~
menhir: warning: conflict in state 1 on #
^
0 --explain g.mly
~
g.mly
%token INT PLUS
%start e
%%
e: INT {} | e PLUS INT {}
~
~
end-of-stream conflict in state 2
  e: INT . PLUS
  accept: e' -> e .
  shift 3: e -> e . PLUS INT
  taken: shift 3

~
menhir: warning: end-of-stream conflict in state 2
";

#[test]
fn branches(rt: HostRuntime) -> Result<(), Fail> {
    check_cases(rt.alloc(), BRANCHES)
}

#[test]
fn kinds(rt: HostRuntime) -> Result<(), Fail> {
    check_cases(rt.alloc(), KINDS)
}

#[test]
fn solved_conflicts(rt: HostRuntime) -> Result<(), Fail> {
    check_cases(rt.alloc(), NONE)
}

#[test]
fn sentences(rt: HostRuntime) -> Result<(), Fail> {
    check_cases(rt.alloc(), SENTENCES)
}

#[test]
fn ends(rt: HostRuntime) -> Result<(), Fail> {
    check_cases(rt.alloc(), ENDS)
}
