//! Limits of files, lines, inputs and automata.
use mh_worked_cases::{ONE_SENTENCE_FILE, check_cases, check_cases_with};
use std::test::Fail;

// A line has at most 1,048,576 bytes, an input at most 1,000,000 lines, and a file at most 16,777,216 bytes.
const SIZES: &str = "5 --interpret g.mly
~
A EOF
`0..1048577  `~
ACCEPT
~
menhir: too big: the input
^
0 --interpret g.mly
~
`0..1048576  `~
OVERSHOOT
~
^
5 --interpret g.mly
~
`0..1000001 
`~
`0..1000000 OVERSHOOT
`~
menhir: too big: the input
^
0 --interpret g.mly
~
`0..1000000 
`~
`0..1000000 OVERSHOOT
`~
";

const LARGE_FILE: &str = "5 --interpret a.mly g.mly
~
a.mly
%%~
g.mly
`0..16777217  `~
~
~
menhir: too big: g.mly
";

#[test]
fn sizes(rt: HostRuntime) -> Result<(), Fail> {
    check_cases_with(rt.alloc(), ONE_SENTENCE_FILE, SIZES)?;
    check_cases(rt.alloc(), LARGE_FILE)
}

// The rules are `qI: A qJ | B qJ`, where J is I + 1, up to the last, `qN: A | B`; the first rule is also recursive. The
// words of 18 tokens alone lead to 262,144 states with different cores; at most 200,000 states are allowed.
const STATES: &str = "1 --interpret g.mly
~
g.mly
%token A B
%start q0
%%
q0: A q0 {} | B q0 {} | A q1 {}
`1..18 q@: A q@+ {} | B q@+ {}
`q18: A {} | B {}
~
A
~
~
menhir: too many states
";

const CANONICAL_STATES: &str = "1 --canonical --interpret g.mly
~
g.mly
%token A B
%start q0
%%
q0: A q0 {} | B q0 {} | A q1 {}
`1..18 q@: A q@+ {} | B q@+ {}
`q18: A {} | B {}
~
A
~
~
menhir: too many states
";

#[test]
fn too_many_states(rt: HostRuntime) -> Result<(), Fail> {
    check_cases(rt.alloc(), STATES)
}

#[test]
fn too_many_canonical_states(rt: HostRuntime) -> Result<(), Fail> {
    check_cases(rt.alloc(), CANONICAL_STATES)
}

// A right side of 8,192 symbols, by inlining. At most 10,000 symbols are allowed.
const LONG_PRODUCTION: &str = "0 --interpret g.mly
~
g.mly
%token A
%start s
%%
s: x13 {}
%inline x0: A {}
`0..13 %inline x@+: x@ x@ {}
`~
`0..8191 A `
`0..8192 A `~
OVERSHOOT
ACCEPT
~
";

#[test]
fn a_long_production(rt: HostRuntime) -> Result<(), Fail> {
    check_cases(rt.alloc(), LONG_PRODUCTION)
}
