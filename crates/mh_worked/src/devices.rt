//! Runs in which files, inputs or outputs fail.
use mh_worked_cases::{
    AcceptedSize, Devices, FailingCalls, beside, check_cases_with, copied, given_files, words_of,
};
use std::alloc::Global;
use std::process::Abort;
use std::test::Fail;

/// The grammar file of every case.
const FILE: &str = "g.mly
%token A EOF
%start s
%%
s: A EOF {}
";

const READS: &str = "3 --interpret h.mly
~
~
~
menhir: cannot read h.mly
^
3 --interpret g.mly
shelf 1
~
~
~
menhir: cannot read g.mly
^
3 --interpret g.mly h.mly
shelf 2
~
h.mly
%%
~
~
~
menhir: cannot read h.mly
^
0 --interpret g.mly h.mly
shelf 3
~
h.mly
%%
~
~
~
^
3 --interpret g.mly
input 1
~
A EOF
~
~
menhir: cannot read the input
^
0 --show-automaton g.mly
input 1
~
A EOF
~
merged: 4 states
...
~
";

// If a write to `out` fails, `out` holds a prefix of the whole text, and nothing is written to `err`.
const WRITES: &str = "4 --interpret g.mly
out 1
~
A EOF
A
~
~
^
4 --interpret g.mly
out 2
~
A EOF
A
~
ACCEPT
~
^
0 --interpret g.mly
out 3
~
A EOF
A
~
ACCEPT
OVERSHOOT
~
^
4 --show-automaton g.mly
out 1
~
~
~
";

// If the line that reports the failure cannot be written, the status is that of a write fault.
const LAST_LINES: &str = "4 --interpret --what g.mly
err 1
~
~
~
^
4 --interpret h.mly
err 1
~
~
~
^
4 --interpret h.mly
err 1
~
h.mly
%token
~
~
~
^
4 --interpret h.mly
err 1
~
h.mly
%start s
%%
s: A {}
~
~
~
^
4 --interpret g.mly
input 7
err 1
~
A EOF
A
~
ACCEPT
~
^
0 --interpret g.mly
err 1
~
A EOF
~
ACCEPT
~
";

// Each read of the input fails in turn. The answers to all lines that were read whole are on `out`.
const READS_IN_TURN: &str = "3 --interpret g.mly
input 1
~
A EOF
A
~
~
menhir: cannot read the input
^
3 --interpret g.mly
input 2
~
A EOF
A
~
~
menhir: cannot read the input
^
3 --interpret g.mly
input 3
~
A EOF
A
~
~
menhir: cannot read the input
^
3 --interpret g.mly
input 4
~
A EOF
A
~
~
menhir: cannot read the input
^
3 --interpret g.mly
input 5
~
A EOF
A
~
~
menhir: cannot read the input
^
3 --interpret g.mly
input 6
~
A EOF
A
~
~
menhir: cannot read the input
^
3 --interpret g.mly
input 7
~
A EOF
A
~
ACCEPT
~
menhir: cannot read the input
^
3 --interpret g.mly
input 8
~
A EOF
A
~
ACCEPT
~
menhir: cannot read the input
^
3 --interpret g.mly
input 9
~
A EOF
A
~
ACCEPT
OVERSHOOT
~
menhir: cannot read the input
^
0 --interpret g.mly
input 10
~
A EOF
A
~
ACCEPT
OVERSHOOT
~
";

/// The devices of a run with an input of three lines, in which this call of `out` fails.
fn devices_of(alloc: Global, call: u64) -> Result<Devices, Fail> {
    let fails = FailingCalls::one(alloc, "out", call)?;
    let given = beside(fails, given_files(alloc, None, &[FILE]))?;
    let ((fails, files), input) = beside(given, copied(alloc, b"A EOF\nA EOF\nA EOF\n"))?;
    Devices::new(alloc, files, input, fails, AcceptedSize::Pieces)
}

/// The status, and the number of reads of an input of three lines, if a call of `out` fails.
fn answers_by(alloc: Global, words: &[String], call: u64) -> Result<(u8, u64), Fail> {
    let mut devices = devices_of(alloc, call)?;
    let status = devices.run(alloc, words);
    let reads = devices.input.reads;
    drop(devices);
    Ok((status, reads))
}

fn check_answers(rt: &impl Abort, alloc: Global, words: &[String]) -> Result<(), Fail> {
    for (call, wanted) in [(1, (4, 6)), (2, (4, 12)), (3, (4, 18)), (4, (0, 19))] {
        let found = answers_by(alloc, words, call)?;
        assert!(rt; found == wanted, "at {call}");
    }
    Ok(())
}

// The answer to a line is written before the next line is read, byte by byte. If the second answer cannot be written,
// the third line is not read.
#[test]
fn no_line_is_taken_after_a_fault(rt: HostRuntime) -> Result<(), Fail> {
    let words = words_of(rt.alloc(), "--interpret g.mly")?;
    let result = check_answers(&rt, rt.alloc(), &words);
    drop(words);
    result
}

#[test]
fn devices_that_fail(rt: HostRuntime) -> Result<(), Fail> {
    let alloc = rt.alloc();
    check_cases_with(alloc, FILE, READS)?;
    check_cases_with(alloc, FILE, WRITES)?;
    check_cases_with(alloc, FILE, LAST_LINES)?;
    check_cases_with(alloc, FILE, READS_IN_TURN)
}
