//! Words that are refused, and words in unusual places.
use mh_worked_cases::check_cases;
use std::test::Fail;

// The first fault is reported, in this order: bad words, bad number, no mode, two modes, misplaced words, no grammar.
// No file is read.
const MISUSES: &str = "2
~
~
~
menhir: usage: no mode
^
2 g.mly
~
~
~
menhir: usage: no mode
^
2 --strict g.mly
~
~
~
menhir: usage: no mode
^
2 --interpret-show-cst g.mly
~
~
~
menhir: usage: no mode
^
2 -- --interpret g.mly
~
~
~
menhir: usage: no mode
^
2 --interpret
~
~
~
menhir: usage: no grammar
^
2 --show-automaton --strict --no-stdlib
~
~
~
menhir: usage: no grammar
^
2 --what g.mly
~
~
~
menhir: usage: bad words
^
2 --interpret -g.mly
~
~
~
menhir: usage: bad words
^
2 --interpret --interpret g.mly
~
~
~
menhir: usage: bad words
^
2 --interpret= g.mly
~
~
~
menhir: usage: bad words
^
2 --interpret --strict=yes g.mly
~
~
~
menhir: usage: bad words
^
2 --list-errors --messages m g.mly
~
~
~
menhir: usage: misplaced --messages
^
2 --help
~
~
~
menhir: usage: bad words
^
2 --interpret --show-automaton g.mly
~
~
~
menhir: usage: two modes
^
2 --show-automaton --interpret-show-cst --interpret
~
~
~
menhir: usage: two modes
^
2 --show-automaton --interpret-show-cst g.mly
~
~
~
menhir: usage: misplaced --interpret-show-cst
^
2 --interpret-show-cst --show-automaton
~
~
~
menhir: usage: misplaced --interpret-show-cst
";

// Files may be between options. After `--`, every word is a file; `-` is always a file.
const ORDERS: &str = "0 g.mly --interpret
~
g.mly
%token A EOF %start s %% s: A EOF {}
~
A EOF
~
ACCEPT
~
^
0 --interpret --interpret-show-cst --strict --no-stdlib -- g.mly
~
g.mly
%token A EOF %start s %% s: A EOF {}
~
A EOF
~
ACCEPT
[s: A EOF]
~
^
0 --interpret -- -g.mly --strict
~
-g.mly
%token A EOF %start s %%
~
--strict
%% s: A EOF {}
~
A EOF
~
ACCEPT
~
^
0 - --interpret
~
-
%token A EOF %start s %% s: A EOF {}
~
A EOF
~
ACCEPT
~
^
3 --interpret -- --interpret
~
~
~
menhir: cannot read --interpret
";

#[test]
fn words(rt: HostRuntime) -> Result<(), Fail> {
    let alloc = rt.alloc();
    check_cases(alloc, MISUSES)?;
    check_cases(alloc, ORDERS)
}
