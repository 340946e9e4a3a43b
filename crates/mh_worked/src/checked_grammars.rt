//! Everything that is wrong with the files of a grammar, in one run.
use mh_worked_cases::check_cases;
use std::test::Fail;

// All warnings that have a place; a grammar without any, and one with a token that only a `%prec` names; the first
// syntax fault of each of two files; all faults of names in two files; no start symbol; faults of instances, at the
// first definition of their rule; a wrong number of arguments, at its term if a file has the term; a `%prec` of a group
// whose alternatives have their own; conflicts of each kind; productions that are never reduced; a file that is named
// twice; attributes that should give a cost; a tab before the column; lines that end in CR and LF; the prelude off;
// warnings under `--strict`; a file that is absent.
const CHECKED: &str = "0 --check a.mly
~
a.mly
%token A B UNUSED EOF PLUS MINUS
%token <int> INT
%left PLUS
%left MINUS
%nonassoc HIGH
%nonassoc B
%on_error_reduce dead
%start <unit> s
%%
s: e EOF {}
e: INT {} | e PLUS e {} | e PLUS A %prec HIGH {}
dead: A dead2 {}
dead2: B {} | {}
~
~
a.mly:1:12: unused token: UNUSED
a.mly:1:28: unused token: MINUS
a.mly:4:7: level without use: MINUS
a.mly:5:11: level without use: HIGH
a.mly:6:11: level without use: B
a.mly:7:18: reduction on errors without use: dead
a.mly:11:42: level without use: %prec HIGH
a.mly:12:1: unreachable rule: dead
a.mly:13:1: unreachable rule: dead2
~
^
1 --check --strict a.mly
~
a.mly
%token A B
%start s
%%
s: A {}
~
~
a.mly:1:10: unused token: B
~
^
0 --check --strict a.mly
~
a.mly
%token A EOF
%start s
%%
s: A EOF {}
~
~
~
^
0 --check --strict a.mly
~
a.mly
%token MINUS NEG INT EOF
%left MINUS
%nonassoc NEG
%start s
%%
s: e EOF {}
e: INT {} | e MINUS e {} | MINUS e %prec NEG {}
~
~
~
^
1 --check a.mly b.mly c.mly
~
a.mly
%token A
%start s %%
s: A ) {}
~
b.mly
%%
t: {}
~
c.mly
%token B
   { unclosed
~
~
a.mly:3:6: syntax error
c.mly:2:4: syntax error
~
^
1 --check a.mly b.mly
~
a.mly
%token A A \"a\" B \"a\"
%left A
%right \"a\" \"c\"
%start s r
%on_error_reduce nothing
%%
s(X, X): x = A nowhere(B, X) error {} | \"d\" %prec HIGH {}
A: {}
t: {}
t: B? {} %prec LOW
~
b.mly
%%
%public s: zz* {}
~
~
a.mly:1:18: duplicate: a
a.mly:3:8: duplicate: A
a.mly:3:12: undefined: c
a.mly:4:10: undefined: r
a.mly:5:18: undefined: nothing
a.mly:7:6: duplicate: X
a.mly:7:16: undefined: nowhere
a.mly:7:30: the error token is refused
a.mly:7:41: undefined: d
a.mly:7:51: unknown level: HIGH
a.mly:8:1: duplicate: A
a.mly:10:1: duplicate: t
a.mly:10:16: unknown level: LOW
b.mly:2:9: duplicate: s
b.mly:2:12: undefined: zz
~
^
1 --check a.mly
~
a.mly
%token A
%%
s: A {}
~
~
a.mly: no start symbol
~
^
1 --check a.mly
~
a.mly
%token A
%start s
%%
s: x A {}
%inline x: y {}
%inline y: x {}
~
~
a.mly:5:9: inline cycle: x
~
^
1 --check a.mly
~
a.mly
%token A
%start s
%%
s: s A {}
~
~
a.mly:4:1: empty language: s
~
^
1 --check a.mly
~
a.mly
%token A
%start s
%%
s: A pair(A) {}
~
~
a.mly:4:6: arity: pair(A)
~
^
1 --check a.mly
~
a.mly
%token A
%start s
%%
s: A list(f) {}
f(X): X A {}
~
~
a.mly:5:1: arity: f
~
^
1 --check a.mly b.mly
~
a.mly
%token A
%start s
%%
s: p(A) {}
~
b.mly
%%
%public p(X): A {} | p(q(X)) {}
q(X): X {}
~
~
b.mly:2:9: expansion: p
~
^
1 --check a.mly
~
a.mly
%token A
%start s
%%
%inline s: A {}
~
~
a.mly:4:9: inline start: s
~
^
0 --check a.mly
~
a.mly
%token A B EOF
%nonassoc A
%start s
%%
s: t EOF {}
t: A %prec A {} %prec NONE
~
~
a.mly:1:10: unused token: B
a.mly:2:11: level without use: A
a.mly:6:12: level without use: %prec A
a.mly:6:23: level without use: %prec NONE
~
^
0 --check a.mly
~
a.mly
%token IF ELSE X
%start s
%%
s: IF s {} | IF s ELSE s {} | X {} | y {}
y: X {}
~
~
never reduced: s -> IF s
never reduced: y -> X
reduce/reduce conflict in state 2 on ELSE
reduce/reduce conflict in state 2 on #
shift/reduce conflict in state 5 on ELSE
end-of-stream conflict in state 5
~
^
0 --check a.mly
~
a.mly
%token A B
%start s
%%
s: A B {} | x B {} | y B {}
x: A {}
y: A {}
~
~
never reduced: x -> A
never reduced: y -> A
shift/reduce/reduce conflict in state 1 on B
~
^
0 --check a.mly a.mly
~
a.mly
%token A
%start s
%%
%public s: A {}
~
~
a.mly: file named twice
never reduced: s -> A
reduce/reduce conflict in state 1 on #
~
^
0 --check a.mly
~
a.mly
%token A [@cost 3] B [@cost zero]
\t%token C
%start s
%%
s: A B {}
~
~
a.mly:1:22: attribute without a cost
a.mly:2:9: unused token: C
~
^
1 --check a.mly b.mly
~
a.mly
%token A B\r
%start s\r
%%\r
s: A /* two\r
lines */ b t {}\r
~
b.mly
\r
%%\r
\r
%public t: c {}\r
~
~
a.mly:5:10: undefined: b
b.mly:4:12: undefined: c
~
^
1 --check --no-stdlib a.mly
~
a.mly
%token A
%start s
%%
s: A? A* {}
~
~
a.mly:4:5: undefined: option
a.mly:4:8: undefined: list
~
^
3 --check a.mly b.mly
~
a.mly
~
~
~
menhir: cannot read b.mly
";

#[test]
fn checked_grammars(rt: HostRuntime) -> Result<(), Fail> {
    check_cases(rt.alloc(), CHECKED)
}
