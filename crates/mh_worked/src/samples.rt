//! Samples: the counts of generated grammars, and usage faults of `--sample`. No file is read.
use mh_worked_cases::check_cases;
use std::test::Fail;

// With k levels of operators, here 2 and 3, a sample has k + 4 tokens and 2k + 3 productions. The merged automaton has
// 3k + 8 states, of which k + 6 have a row in the catalogue; the canonical one has 6k + 12, of which 2k + 7 have a row.
// Every third of the 3,000 sentences lacks a parenthesis, except for 59 that open none, so 941 are rejected.
const MERGED: &str = "0 --sample 0
~
~
sample 0: tokens 6, productions 7, states 14, listed 8, accept 2059, overshoot 0, reject 941
~
";

const CANONICAL: &str = "0 --sample 0 --canonical
~
~
sample 0: tokens 6, productions 7, states 24, listed 11, accept 2059, overshoot 0, reject 941
~
";

const MORE_LEVELS: &str = "0 --sample=0031 --strict --no-stdlib
~
~
sample 31: tokens 7, productions 9, states 17, listed 9, accept 2059, overshoot 0, reject 941
~
";

const UNWRITTEN: &str = "4 --sample 0
out 1
~
~
~
";

// Values that are not one to four digits, and words that are not allowed with `--sample`.
const WORDS: &str = "2 --sample x
~
~
~
menhir: usage: bad number
^
2 --sample 12345
~
~
~
menhir: usage: bad number
^
2 --sample=
~
~
~
menhir: usage: bad number
^
2 --sample +1
~
~
~
menhir: usage: bad number
^
2 --sample x --interpret g.mly
~
~
~
menhir: usage: bad number
^
2 --sample 1 --interpret g.mly
~
~
~
menhir: usage: two modes
^
2 --sample 1 --messages m g.mly
~
~
~
menhir: usage: misplaced --messages
^
2 --sample 1 g.mly
~
~
~
menhir: usage: misplaced --sample
^
2 --sample
~
~
~
menhir: usage: bad words
";

#[test]
fn samples(rt: HostRuntime) -> Result<(), Fail> {
    let alloc = rt.alloc();
    check_cases(alloc, MERGED)?;
    check_cases(alloc, CANONICAL)?;
    check_cases(alloc, MORE_LEVELS)?;
    check_cases(alloc, UNWRITTEN)?;
    check_cases(alloc, WORDS)
}
