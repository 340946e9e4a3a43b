//! Examples of shortest words and random sentences. The script `bench/random_sentences.py` computes the random
//! sentences from the definition of the generator.
use mh_worked_cases::{check_cases, run_with};
use std::alloc::Global;
use std::process::Abort;
use std::test::Fail;

// A grammar of sums, the empty word, a nonterminal without a word, and words that double in length.
const SHORTEST: &str = "0 --shortest-sentences g.mly
~
g.mly
%token INT PLUS TIMES EOF
%start main
%%
main: e EOF {}
e: e PLUS t {} | t {}
t: t TIMES INT {} | INT {}
~
~
main: INT EOF
e: INT
t: INT
~
^
0 --shortest-sentences --canonical g.mly
~
g.mly
%start s
%%
s: {}
~
~
s:
~
^
0 --shortest-sentences g.mly
~
g.mly
%token A
%start s
%%
s: A {} | t {}
t: t A {}
~
~
s: A
t: none
~
menhir: warning: end-of-stream conflict in state 3
^
1 --shortest-sentences --strict g.mly
~
g.mly
%token A
%start s
%%
s: A {} | t {}
t: t A {}
~
~
~
menhir: warning: end-of-stream conflict in state 3
^
0 --shortest-sentences g.mly
~
g.mly
%token A B
%start main
%%
main: x20 B {}
x20: x19 x19 {}
x19: x18 x18 {}
x18: x17 x17 {}
x17: x16 x16 {}
x16: x15 x15 {}
x15: x14 x14 {}
x14: x13 x13 {}
x13: x12 x12 {}
x12: x11 x11 {}
x11: x10 x10 {}
x10: x9 x9 {}
x9: x8 x8 {}
x8: x7 x7 {}
x7: x6 x6 {}
x6: x5 x5 {}
x5: x4 x4 {}
x4: x3 x3 {}
x3: x2 x2 {}
x2: x1 x1 {}
x1: x0 x0 {}
x0: A {}
~
~
main: longer than 1000
x20: longer than 1000
x19: longer than 1000
x18: longer than 1000
x17: longer than 1000
x16: longer than 1000
x15: longer than 1000
x14: longer than 1000
x13: longer than 1000
x12: longer than 1000
x11: longer than 1000
x10: longer than 1000
x9:`0..512  A`
x8:`0..256  A`
x7:`0..128  A`
x6:`0..64  A`
x5:`0..32  A`
x4:`0..16  A`
x3: A A A A A A A A
x2: A A A A
x1: A A
x0: A
~
";

// A word of 1,000 tokens, and one of 1,001.
const LONGEST: &str = "0 --shortest-sentences g.mly
~
g.mly
%token A
%start s
%%
s: l A {}
l: k k k k {}
k: j j j j j j j j j j {}
j: i i i i i {}
i: A A A A A {}
~
~
s: longer than 1000
l:`0..1000  A`
k:`0..250  A`
j:`0..25  A`
i: A A A A A
~
";

// A grammar with one sentence; no sentence within the limit; a forced sentence; two sums; and a nonterminal without a
// word, which is never chosen.
const RANDOM: &str = "0 --random-sentence 7 --length 2 g.mly
~
g.mly
%token A EOF
%start s
%%
s: A EOF {}
~
~
s: A EOF
~
^
1 --random-sentence 7 --length 1 g.mly
~
g.mly
%token A EOF
%start s
%%
s: A EOF {}
~
~
~
menhir: no sentence of s within 1 tokens
^
0 --random-sentence 123 --length 2 g.mly
~
g.mly
%token C D
%start s
%%
s: c c {}
c: C c {} | D {}
~
~
s: D D
~
^
0 --length=50 --random-sentence=7 --canonical g.mly
~
g.mly
%token INT PLUS TIMES EOF
%start main
%%
main: e EOF {}
e: e PLUS t {} | t {}
t: t TIMES INT {} | INT {}
~
~
main: INT TIMES INT TIMES INT PLUS INT TIMES INT TIMES INT EOF
~
^
0 --random-sentence 9999999999999999999 --length 50 g.mly
~
g.mly
%token INT PLUS TIMES EOF
%start main
%%
main: e EOF {}
e: e PLUS t {} | t {}
t: t TIMES INT {} | INT {}
~
~
main: INT TIMES INT TIMES INT TIMES INT EOF
~
^
0 --random-sentence 0 --length 1 g.mly
~
g.mly
%token A
%start s
%%
s: A {} | t {}
t: t A {}
~
~
s: A
~
menhir: warning: end-of-stream conflict in state 3
^
0 --random-sentence 0 --length 0 g.mly
~
g.mly
%start s
%%
s: {}
~
~
s:
~
";

// Misused words, in the order of their faults, and a failed write.
const MISUSED: &str = "2 --random-sentence x --length 2 g.mly
~
~
~
menhir: usage: bad number
^
2 --random-sentence 7 --length 1001 g.mly
~
~
~
menhir: usage: bad number
^
2 --random-sentence 7 g.mly
~
~
~
menhir: usage: misplaced --random-sentence
^
2 --interpret --length 7
~
~
~
menhir: usage: misplaced --length
^
2 --random-sentence 7 --length 7
~
~
~
menhir: usage: no grammar
^
2 --random-sentence 7 --length 7 --shortest-sentences g.mly
~
~
~
menhir: usage: two modes
^
2 --random-sentence 7 --tables t --canonical g.mly
~
~
~
menhir: usage: misplaced --tables
^
2 --shortest-sentences
~
~
~
menhir: usage: no grammar
^
4 --random-sentence 7 --length 2 g.mly
out 1
~
g.mly
%token A EOF
%start s
%%
s: A EOF {}
~
~
~
^
4 --shortest-sentences g.mly
out 1
~
g.mly
%token A EOF
%start s
%%
s: A EOF {}
~
~
~
";

/// Sums of products.
const SUMS: &str =
    "%token INT PLUS TIMES EOF\n%start main\n%%\nmain: e EOF {}\ne: e PLUS t {} | t {}\nt: t TIMES INT {} | INT {}\n";

/// The texts of a run on the sums.
fn written(alloc: Global, words: &str, input: &[u8]) -> Result<Vec<u8>, Fail> {
    let outcome = run_with(alloc, words, SUMS, input)?;
    Ok(outcome.out)
}

/// The answer of `--interpret` to the random sentence of a seed.
fn judged(alloc: Global, seed: u64) -> Result<Vec<u8>, Fail> {
    let words = format!(in alloc; "--random-sentence {seed} --length 50 g.mly")?;
    let sentence = written(alloc, words.as_str(), b"")?;
    written(alloc, "--interpret g.mly", sentence.as_slice())
}

/// The program accepts the random sentences of the first seeds.
fn check_accepted(rt: &impl Abort, alloc: Global, seeds: u64) -> Result<(), Fail> {
    for seed in 0..seeds {
        let answer = judged(alloc, seed)?;
        assert!(rt; answer.as_slice() == b"ACCEPT\n".as_slice(), "seed {seed}");
    }
    Ok(())
}

#[test]
fn shortest_sentences(rt: HostRuntime) -> Result<(), Fail> {
    check_cases(rt.alloc(), SHORTEST)?;
    check_cases(rt.alloc(), LONGEST)
}

#[test]
fn random_sentences(rt: HostRuntime) -> Result<(), Fail> {
    check_cases(rt.alloc(), RANDOM)?;
    check_cases(rt.alloc(), MISUSED)
}

#[test]
fn random_sentences_are_accepted(rt: HostRuntime) -> Result<(), Fail> {
    check_accepted(&rt, rt.alloc(), 100)
}
