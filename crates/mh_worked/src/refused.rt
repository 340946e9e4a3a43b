//! Refused grammars, each with the line that reports the fault.
use mh_worked_cases::check_cases;
use std::test::Fail;

// Nothing is written to `out`, and the input is not read.
const FAULTS: &str = r#"1 --interpret g.mly
~
g.mly
~
A
~
~
menhir: g.mly:1: syntax error
^
1 --interpret g.mly
~
g.mly
%token A EOF
%start s
%%
s: A EOF { f "}" '"' {x|~
A
~
~
menhir: g.mly:4: syntax error
^
1 --interpret g.mly
~
g.mly
%token A
~
A
~
~
menhir: g.mly:2: syntax error
^
1 --interpret g.mly
~
g.mly
%token A EOF
%start s
s: A EOF {}
~
A
~
~
menhir: g.mly:3: syntax error
^
1 --interpret g.mly
~
g.mly
%start s
%%
s: A {}
~
A
~
~
menhir: undefined: A
^
1 --interpret g.mly
~
g.mly
%token A
%start s
%%
s: t {}
t: A {}
t: A {}
~
A
~
~
menhir: duplicate: t
^
1 --interpret g.mly
~
g.mly
%token A
%%
s: A {}
~
A
~
~
menhir: no start symbol
^
1 --interpret g.mly
~
g.mly
%start s
%%
s: error {}
~
A
~
~
menhir: the error token is refused
^
1 --interpret g.mly
~
g.mly
%token A
%start s
%%
s: A %prec HIGH {}
~
A
~
~
menhir: unknown level: HIGH
^
1 --interpret g.mly
~
g.mly
%start s
%%
s: option {}
~
A
~
~
menhir: arity: option
^
1 --interpret g.mly
~
g.mly
%token A EOF
%start main
%%
main: p(A) EOF {}
p(X): X {} | p(option(X)) {}
~
A
~
~
menhir: expansion: p
^
1 --interpret g.mly
~
g.mly
%start s
%%
s: x {}
%inline x: x {}
~
A
~
~
menhir: inline cycle: x
^
1 --interpret g.mly
~
g.mly
%token A
%start s
%%
%inline s: A {}
~
A
~
~
menhir: inline start: s
^
1 --interpret g.mly
~
g.mly
%token A B C D E F G H
%start s
%%
s: x x x x x {}
%inline x: A {} | B {} | C {} | D {} | E {} | F {} | G {} | H {}
~
A
~
~
menhir: too many productions
^
1 --interpret g.mly
~
g.mly
%token A
%start s
%%
s: x14 {}
%inline x14: x13 x13 {}
%inline x13: x12 x12 {}
%inline x12: x11 x11 {}
%inline x11: x10 x10 {}
%inline x10: x9 x9 {}
%inline x9: x8 x8 {}
%inline x8: x7 x7 {}
%inline x7: x6 x6 {}
%inline x6: x5 x5 {}
%inline x5: x4 x4 {}
%inline x4: x3 x3 {}
%inline x3: x2 x2 {}
%inline x2: x1 x1 {}
%inline x1: x0 x0 {}
%inline x0: A {}
~
A
~
~
menhir: too many productions
^
1 --interpret g.mly
~
g.mly
%token A
%start s
%%
s: s A {}
~
A
~
~
menhir: empty language: s
^
1 --interpret g.mly
~
g.mly
%token A
%start s
%%
s: b s A {} | c {}
b: {}
c: {}
~
A
~
~
menhir: loops: state 0 on no token
^
1 --no-stdlib --interpret g.mly
~
g.mly
%token A
%start s
%%
s: option(A) {}
~
A
~
~
menhir: undefined: option
^
1 --no-stdlib --show-automaton g.mly
~
g.mly
%token A
%start s
%%
s: A? {}
~
~
~
menhir: undefined: option
"#;

// Undefined names: of a rule, of a start symbol, of an alias, and in a declaration.
const UNDEFINED: &str = r#"1 --interpret g.mly
~
g.mly
%token A
%start s t
%%
s: A {}
~
~
~
menhir: undefined: t
^
1 --interpret g.mly
~
g.mly
%token A "a"
%start s
%%
s: A "+" {}
~
~
~
menhir: undefined: +
^
1 --interpret g.mly
~
g.mly
%token A
%on_error_reduce u
%start s
%%
s: A {}
~
~
~
menhir: undefined: u
^
1 --interpret g.mly
~
g.mly
%token A
%start s
%%
s: list(t(A, u)) {}
t(X, Y): X Y {}
~
~
~
menhir: undefined: u
^
1 --interpret g.mly
~
g.mly
%token A
%start s
%%
s: t {}
t: A X {}
u(X): X {}
~
~
~
menhir: undefined: X
"#;

// Duplicates: a token and a rule of one name; an alias of two tokens; two formals of one name; public rules that differ
// in their formals or in `%inline`; two levels of one name, where an alias counts as its token.
const DUPLICATES: &str = r#"1 --interpret g.mly
~
g.mly
%token A A B
%start s
%%
s: A {}
B: {}
A: {}
~
~
~
menhir: duplicate: B
^
1 --interpret g.mly
~
g.mly
%token A "x" B "x"
%start s
%%
s: A {}
~
~
~
menhir: duplicate: x
^
1 --interpret g.mly
~
g.mly
%token A
%start s
%%
s: t(A, A) {}
t(X, X): X {}
~
~
~
menhir: duplicate: X
^
1 --interpret g.mly
~
g.mly
%token A
%start s
%%
s: A {}
%public t: A {}
t(X): X {}
~
~
~
menhir: duplicate: t
^
1 --interpret g.mly
~
g.mly
%token A
%start s
%%
s: A {}
%public t: A {}
%public %inline t: A {}
~
~
~
menhir: duplicate: t
^
1 --interpret g.mly
~
g.mly
%token A B "b"
%left A B
%right "b"
%start s
%%
s: A {}
~
~
~
menhir: duplicate: B
^
0 --interpret g.mly
~
g.mly
%token A
%left A A
%start s
%%
s: A {}
~
A
~
ACCEPT
~
"#;

// Wrong numbers of arguments, and inline rules with arguments.
const INSTANCES: &str = "1 --interpret g.mly
~
g.mly
%token A
%start s
%%
s: A(A) {}
~
~
~
menhir: arity: A(A)
^
1 --interpret g.mly
~
g.mly
%token A
%start s
%%
s(X): X {}
~
~
~
menhir: arity: s
^
1 --interpret g.mly
~
g.mly
%token A
%start s
%%
s: list(option(A, A)) {}
~
~
~
menhir: arity: option(A,A)
^
1 --interpret g.mly
~
g.mly
%token A
%start s
%%
s: x(A) {}
%inline x(Y): y(Y) {}
%inline y(Z): Z {} | x(Z) {}
~
~
~
menhir: inline cycle: x(A)
^
1 --interpret g.mly
~
g.mly
%token A
%start s t
%%
s: A {}
t: t A {}
~
~
~
menhir: empty language: t
";

// The first of several faults, in this order: undefined names, duplicates, no start symbol, the error token, an unknown
// level; a wrong number of arguments, then an inline cycle, then an inline start symbol.
const FIRST_FAULTS: &str = "1 --interpret g.mly
~
g.mly
%token A
%%
t: A {}
t: A {}
u: X {}
~
~
~
menhir: undefined: X
^
1 --interpret g.mly
~
g.mly
%token A
%%
t: A {}
t: error {}
~
~
~
menhir: duplicate: t
^
1 --interpret g.mly
~
g.mly
%token A
%%
t: error {}
~
~
~
menhir: no start symbol
^
1 --interpret g.mly
~
g.mly
%token A
%start s
%%
s: A %prec HIGH {}
t: error {}
~
~
~
menhir: the error token is refused
^
1 --interpret g.mly
~
g.mly
%token A
%start s
%%
s: option %prec HIGH {}
~
~
~
menhir: unknown level: HIGH
^
1 --interpret g.mly
~
g.mly
%token A
%start s
%%
s: x option {}
%inline x: x {}
~
~
~
menhir: arity: option
^
1 --interpret g.mly
~
g.mly
%token A
%start s
%%
%inline s: s {}
~
~
~
menhir: inline cycle: s
^
1 --interpret g.mly
~
g.mly
%token A
%start s t
%%
t: t A {}
%inline s: A {}
~
~
~
menhir: inline start: s
";

// Levels that make a run reduce without end, in the start state and in a state above it.
const LOOPS: &str = "1 --interpret g.mly
~
g.mly
%token A
%nonassoc A
%nonassoc HIGH
%start s
%%
s: b s A {} | A {}
b: %prec HIGH {}
~
A
~
~
menhir: loops: state 0 on no token
^
1 --interpret --canonical g.mly
~
g.mly
%token A
%nonassoc A
%nonassoc HIGH
%start s
%%
s: b s A {} | A {}
b: %prec HIGH {}
~
A
~
~
menhir: loops: state 0 on A
^
1 --show-automaton g.mly
~
g.mly
%token X A
%nonassoc A
%nonassoc HIGH
%start main
%%
main: X s {}
s: b s A {} | A {}
b: %prec HIGH {}
~
~
~
menhir: loops: state 1 above state 0 on no token
^
1 --show-automaton --canonical g.mly
~
g.mly
%token X A
%nonassoc A
%nonassoc HIGH
%start main
%%
main: X s {}
s: b s A {} | A {}
b: %prec HIGH {}
~
~
~
menhir: loops: state 1 above state 0 on A
";

// A grammar has at most 512 tokens. The tokens of all files are counted together, each name once. `A` followed by 1,000
// `?` has depth 1,001; at most 1,000 is allowed.
const LIMITS: &str = "0 --interpret g.mly
~
g.mly
%token`000..512  T@`
%start s
%%
s: T000 {}
~
T000
~
ACCEPT
~
^
1 --interpret g.mly
~
g.mly
%token`000..513  T@`
%start s
%%
s: T000 {}
~
T000
~
~
menhir: too many tokens: 513
^
1 --interpret a.mly b.mly
~
a.mly
%token`000..512  T@`
%start s
%%
s: T000 {}
~
b.mly
%token T000 B
%%
~
T000
~
~
menhir: too many tokens: 513
^
1 --interpret g.mly
~
g.mly
%token A
%start s
%%
s: A`0..1000 ?`
{}
~
A
~
~
menhir: g.mly:4: syntax error
";

#[test]
fn refused_grammars(rt: HostRuntime) -> Result<(), Fail> {
    let alloc = rt.alloc();
    check_cases(alloc, FAULTS)?;
    check_cases(alloc, UNDEFINED)?;
    check_cases(alloc, DUPLICATES)?;
    check_cases(alloc, INSTANCES)?;
    check_cases(alloc, FIRST_FAULTS)?;
    check_cases(alloc, LOOPS)?;
    check_cases(alloc, LIMITS)
}
