//! Each call of each device fails in turn, in each mode. The input gives one byte with each call, and the outputs
//! accept one, so each byte of a text is one call.
use mh_worked_cases::{
    AcceptedSize, Devices, FailingCalls, beside, copied, given_files, parts_of, words_of,
};
use std::alloc::Global;
use std::process::Abort;
use std::test::Fail;

/// The words and the input of a run, and the texts on `out` and `err` if no call fails.
#[derive(Clone, Copy)]
struct Case<'a> {
    words: &'a str,
    input: &'a str,
    out: &'a str,
    err: &'a str,
}

/// The calls of a device that fail, one in each run, and the result of each of these runs: its status, how much of the
/// texts on `out` and `err` it leaves, how much of the input it reads, and the line on `err` after that text.
#[derive(Clone, Copy)]
struct FailureRow<'a> {
    status: &'a str,
    device: &'a str,
    calls: &'a str,
    out: &'a str,
    err: &'a str,
    reads: &'a str,
    said: &'a str,
}

/// The number of bytes of the first lines of a text. Each line past the last one counts as one byte.
fn size_of(text: &str, lines: usize) -> usize {
    let mut size = 0usize;
    let mut left = lines;
    for line in text.split_inclusive('\n').take(lines) {
        size = size.saturating_add(line.len());
        left = left.saturating_sub(1);
    }
    size.saturating_add(left)
}

/// The first and the last call by which a device passes a line of its text; if `calls` is `all`, of the whole text.
fn calls_of(text: &str, calls: &str) -> Result<(usize, usize), Fail> {
    if calls == "all" {
        return Ok((1, text.len()));
    }
    let line: usize = calls.parse()?;
    let before = size_of(text, line.saturating_sub(1));
    Ok((before.saturating_add(1), size_of(text, line)))
}

/// The number of bytes of a text that a run leaves or reads when the call with this number fails: `all` bytes, the
/// bytes `before` this call, the bytes up `to` it, or the bytes of this number of lines.
fn count_of(text: &str, much: &str, call: usize) -> Result<usize, Fail> {
    Ok(match much {
        "all" => text.len(),
        "before" => call.saturating_sub(1),
        "to" => call,
        _ => size_of(text, much.parse()?),
    })
}

/// The prefix of a text that a run leaves.
fn front_of<'a>(text: &'a str, much: &str, call: usize) -> Result<&'a str, Fail> {
    let count = count_of(text, much, call)?;
    Ok(text.get(..count).ok_or("a text is too short")?)
}

fn row_of<'a>(words: &[&'a str], said: &'a str) -> Result<FailureRow<'a>, Fail> {
    match words {
        [status, device, calls, out, err, reads] => Ok(FailureRow {
            status: *status,
            device: *device,
            calls: *calls,
            out: *out,
            err: *err,
            reads: *reads,
            said,
        }),
        _ => Err(Fail::from("a row has six words")),
    }
}

fn add_marks<'a>(words: &mut Vec<&'a str>, marks: &'a str) -> Result<(), Fail> {
    for word in marks.split_ascii_whitespace() {
        words.push(word)?;
    }
    Ok(())
}

fn read_row(alloc: Global, line: &str) -> Result<FailureRow<'_>, Fail> {
    let (marks, said) = line.split_once("; ").unwrap_or((line, ""));
    let mut words = Vec::new(alloc);
    let row = match add_marks(&mut words, marks) {
        Ok(()) => row_of(words.as_slice(), said),
        Err(fail) => Err(fail),
    };
    drop(words);
    row
}

/// The devices of a case, of which one fails at one call.
fn devices_of(alloc: Global, case: Case, device: &str, call: usize) -> Result<Devices, Fail> {
    let fails = FailingCalls::one(alloc, device, call as u64)?;
    let given = beside(fails, given_files(alloc, None, &FILES))?;
    let ((fails, files), input) = beside(given, copied(alloc, case.input.as_bytes()))?;
    Devices::new(alloc, files, input, fails, AcceptedSize::Bytes)
}

/// Returns true if the devices hold the wanted texts and as much of the input was read as is wanted.
fn hold(devices: &Devices, out: &[u8], err: &[u8], said: &[u8], reads: usize) -> bool {
    devices.out.written() == out
        && devices.err.written().strip_prefix(err) == Some(said)
        && devices.input.reads == reads as u64
}

/// Runs a case in which one call of one device fails.
fn check_call(
    rt: &impl Abort,
    alloc: Global,
    case: Case,
    row: FailureRow,
    call: usize,
) -> Result<(), Fail> {
    let out = front_of(case.out, row.out, call)?.as_bytes();
    let err = front_of(case.err, row.err, call)?.as_bytes();
    let reads = count_of(case.input, row.reads, call)?;
    let status: u8 = row.status.parse()?;
    let words = words_of(alloc, case.words)?;
    let (words, mut devices) = beside(words, devices_of(alloc, case, row.device, call))?;
    let got = devices.run(alloc, &words);
    let is_wanted = got == status && hold(&devices, out, err, row.said.as_bytes(), reads);
    drop(words);
    drop(devices);
    assert!(rt;
        is_wanted,
        "call {} of {}, {}",
        call, row.device, case.words
    );
    Ok(())
}

/// Runs a case once for each call of a row.
fn check_row(rt: &impl Abort, alloc: Global, case: Case, line: &str) -> Result<(), Fail> {
    let row = read_row(alloc, line)?;
    let text = match row.device {
        "input" => case.input,
        "out" => case.out,
        "err" => case.err,
        _ => "",
    };
    let (first, last) = calls_of(text, row.calls)?;
    for call in first..=last {
        check_call(rt, alloc, case, row, call)?;
    }
    Ok(())
}

fn check_rows(rt: &impl Abort, alloc: Global, case: Case, rows: &str) -> Result<(), Fail> {
    for line in rows.split_inclusive('\n') {
        check_row(rt, alloc, case, line)?;
    }
    Ok(())
}

fn check_parts(rt: &impl Abort, alloc: Global, parts: &[&str], rows: &str) -> Result<(), Fail> {
    let [words, input, out, err, own] = parts else {
        return Err(Fail::from("a case has five parts"));
    };
    let case = Case {
        words: *words,
        input: *input,
        out: *out,
        err: *err,
    };
    check_rows(rt, alloc, case, *own)?;
    check_rows(rt, alloc, case, rows)
}

/// Runs a case with its own rows and with the given ones.
fn check_case(rt: &impl Abort, alloc: Global, case: &str, rows: &str) -> Result<(), Fail> {
    let parts = parts_of(alloc, case)?;
    let result = check_parts(rt, alloc, parts.as_slice(), rows);
    drop(parts);
    result
}

/// Runs each case of a text with its own rows and with the given ones. Lines `^` are between cases, and lines `~`
/// between the parts of a case: the words; the input; the texts on `out` and on `err` if no call fails; and the rows of
/// the case. A row is a status, a device, its calls, how much of the texts on `out` and on `err` remains, how much of
/// the input is read, and the last line on `err`, as the fields of `FailureRow` say.
fn check_in_turn(rt: &impl Abort, alloc: Global, cases: &str, rows: &str) -> Result<(), Fail> {
    for case in cases.split("^\n") {
        check_case(rt, alloc, case, rows)?;
    }
    Ok(())
}

/// The files: a grammar with a conflict, which gives a warning; messages for states 0 and 1 of its automaton, and its
/// table file; and files that are refused.
const FILES: [&str; 7] = [
    "g.mly
%token A EOF
%start s
%%
s: A EOF {} | x EOF {}
x: A {}
",
    "m
EOF

M
",
    "n
A A

N
",
    "early
EOF A

M
",
    "shape
EOF
",
    "t
menhir-tables 2 merged
tokens A EOF
costs 1 1
starts s
productions 3
s -> A EOF
s -> x EOF
x -> A
states 6
state 0
item 0 0 #
edge A 1
edge s 2
edge x 3
cell A shift 1
state 1
item 1 1 #
item 3 1 EOF
edge EOF 4
cell EOF shift 4
state 2
item 0 1 #
default accept
state 3
item 2 1 #
edge EOF 5
cell EOF shift 5
state 4
item 1 2 #
default reduce 1
state 5
item 2 2 #
default reduce 2
end
",
    "other
menhir-tables 9 merged
",
];

// Two lines, each answered by one line. Line 3 of the input is its end.
const LINES: &str = "3 shelf 1 0 0 0; menhir: cannot read g.mly
0 shelf 2 all all 3
3 input 1 0 all to; menhir: cannot read the input
3 input 2 1 all to; menhir: cannot read the input
3 input 3 2 all to; menhir: cannot read the input
0 input 4 all all 3
4 out 1 before all 1
4 out 2 before all 2
0 out 3 all all 3
4 err 1 0 before 0
0 err 2 all all 3
";

const ANSWERED: &str = "--interpret g.mly
~
A EOF
A
~
ACCEPT
OVERSHOOT
~
menhir: warning: conflict in state 1 on EOF
~
^
--session g.mly
~
begin a
offer a A
~
a input-needed 0
a shifting 0 A
~
menhir: warning: conflict in state 1 on EOF
~
";

#[test]
fn one_line_for_each(rt: HostRuntime) -> Result<(), Fail> {
    check_in_turn(&rt, rt.alloc(), ANSWERED, LINES)
}

// Two lines, each answered by two lines.
const PAIRS: &str = "3 shelf 1 0 0 0; menhir: cannot read g.mly
3 input 1 0 all to; menhir: cannot read the input
3 input 2 2 all to; menhir: cannot read the input
3 input 3 4 all to; menhir: cannot read the input
0 input 4 all all 3
4 out 1 before all 1
4 out 2 before all 1
4 out 3 before all 2
4 out 4 before all 2
0 out 5 all all 3
4 err 1 0 before 0
0 err 2 all all 3
";

const EXPLAINED: &str = "--interpret --interpret-show-cst g.mly
~
A EOF
A EOF A
~
ACCEPT
[s: A EOF]
ACCEPT
[s: A EOF]
~
menhir: warning: conflict in state 1 on EOF
~
0 shelf 2 all all 3
^
--interpret --messages m g.mly
~
EOF
A A
~
REJECT
M
REJECT
no message for state 1
~
menhir: warning: conflict in state 1 on EOF
~
3 shelf 2 0 all 0; menhir: cannot read m
0 shelf 3 all all 3
";

#[test]
fn two_lines_for_each(rt: HostRuntime) -> Result<(), Fail> {
    check_in_turn(&rt, rt.alloc(), EXPLAINED, PAIRS)
}

// Only the first line is read.
const FIRST: &str = "3 shelf 1 0 0 0; menhir: cannot read g.mly
0 shelf 2 all all 1
3 input 1 0 all to; menhir: cannot read the input
0 input 2 all all 1
4 out all before all 1
4 err 1 0 before 0
0 err 2 all all 1
";

const ENTRY: &str = "--interpret-error g.mly
~
A A
EOF
~
s: A A
##
## Ends in an error in state: 1.
##
## s -> A . EOF [ # ]
## x -> A . [ EOF ]
##
## The known suffix of the stack is as follows:
## A
##

<YOUR SYNTAX ERROR MESSAGE HERE>

~
menhir: warning: conflict in state 1 on EOF
~
";

#[test]
fn the_first_line_alone(rt: HostRuntime) -> Result<(), Fail> {
    check_in_turn(&rt, rt.alloc(), ENTRY, FIRST)
}

// No line is read.
const NO_LINE: &str = "3 shelf 1 0 0 0; menhir: cannot read g.mly
0 input 1 all all 0
4 out all before all 0
4 err 1 0 before 0
0 err 2 all all 0
";

const WRITTEN: &str = "--show-automaton --tables t g.mly
~
A EOF
~
merged: 6 states
state 0
  s' -> . s [ # ]
  A: shift 1
  s: goto 2
  x: goto 3
state 1
  s -> A . EOF [ # ]
  x -> A . [ EOF ]
  EOF: shift 4
state 2
  s' -> s . [ # ]
  default: accept
state 3
  s -> x . EOF [ # ]
  EOF: shift 5
state 4
  s -> A EOF . [ # ]
  default: reduce s -> A EOF
state 5
  s -> x EOF . [ # ]
  default: reduce s -> x EOF
~
menhir: warning: conflict in state 1 on EOF
~
3 shelf 2 0 0 0; menhir: cannot read t
0 shelf 3 all all 0
^
--show-automaton g.mly
~
A EOF
~
merged: 6 states
state 0
  s' -> . s [ # ]
  A: shift 1
  s: goto 2
  x: goto 3
state 1
  s -> A . EOF [ # ]
  x -> A . [ EOF ]
  EOF: shift 4
state 2
  s' -> s . [ # ]
  default: accept
state 3
  s -> x . EOF [ # ]
  EOF: shift 5
state 4
  s -> A EOF . [ # ]
  default: reduce s -> A EOF
state 5
  s -> x EOF . [ # ]
  default: reduce s -> x EOF
~
menhir: warning: conflict in state 1 on EOF
~
0 shelf 2 all all 0
^
--write-tables g.mly
~
A EOF
~
menhir-tables 2 merged
tokens A EOF
costs 1 1
starts s
productions 3
s -> A EOF
s -> x EOF
x -> A
states 6
state 0
item 0 0 #
edge A 1
edge s 2
edge x 3
cell A shift 1
state 1
item 1 1 #
item 3 1 EOF
edge EOF 4
cell EOF shift 4
state 2
item 0 1 #
default accept
state 3
item 2 1 #
edge EOF 5
cell EOF shift 5
state 4
item 1 2 #
default reduce 1
state 5
item 2 2 #
default reduce 2
end
~
menhir: warning: conflict in state 1 on EOF
~
0 shelf 2 all all 0
^
--list-errors g.mly
~
A EOF
~
s: EOF
##
## Ends in an error in state: 0.
##
## s' -> . s [ # ]
##
## The known suffix of the stack is as follows:
##
##

<YOUR SYNTAX ERROR MESSAGE HERE>

s: A A
##
## Ends in an error in state: 1.
##
## s -> A . EOF [ # ]
## x -> A . [ EOF ]
##
## The known suffix of the stack is as follows:
## A
##

<YOUR SYNTAX ERROR MESSAGE HERE>

~
menhir: warning: conflict in state 1 on EOF
~
0 shelf 2 all all 0
^
--compile-errors m g.mly
~
A EOF
~
state 0 2
M
~
menhir: warning: conflict in state 1 on EOF
~
3 shelf 2 0 all 0; menhir: cannot read m
0 shelf 3 all all 0
^
--compare-errors m --compare-errors m g.mly
~
A EOF
~
~
menhir: warning: conflict in state 1 on EOF
~
3 shelf 2 0 all 0; menhir: cannot read m
3 shelf 3 0 all 0; menhir: cannot read m
0 shelf 4 all all 0
^
--update-errors m g.mly
~
A EOF
~
EOF
##
## Ends in an error in state: 0.
##
## s' -> . s [ # ]
##
## The known suffix of the stack is as follows:
##
##

M
~
menhir: warning: conflict in state 1 on EOF
~
3 shelf 2 0 all 0; menhir: cannot read m
0 shelf 3 all all 0
^
--echo-errors m g.mly
~
A EOF
~
s: EOF
~
menhir: warning: conflict in state 1 on EOF
~
3 shelf 2 0 all 0; menhir: cannot read m
0 shelf 3 all all 0
";

#[test]
fn no_line(rt: HostRuntime) -> Result<(), Fail> {
    check_in_turn(&rt, rt.alloc(), WRITTEN, NO_LINE)
}

// No line is read, and there are no warnings on `err`.
const NO_WARNING: &str = "3 shelf 1 0 0 0; menhir: cannot read g.mly
0 input 1 all all 0
4 out all before all 0
0 err 1 all all 0
";

const EXAMINED: &str = "--check --tables t g.mly
~
A EOF
~
never reduced: x -> A
shift/reduce conflict in state 1 on EOF
~
~
3 shelf 2 0 0 0; menhir: cannot read t
0 shelf 3 all all 0
^
--check g.mly
~
A EOF
~
never reduced: x -> A
shift/reduce conflict in state 1 on EOF
~
~
0 shelf 2 all all 0
";

#[test]
fn examined_grammars(rt: HostRuntime) -> Result<(), Fail> {
    check_in_turn(&rt, rt.alloc(), EXAMINED, NO_WARNING)
}

// Nothing is written to `out`, and the last line on `err` reports the reason. If this line cannot be written whole, the
// status is that of a write fault.
const REFUSED: &str = "1 shelf 4 all all 0
1 input 1 all all 0
1 out 1 all all 0
4 err 1 0 before 0
4 err 2 0 before 0
1 err 3 all all 0
";

const REFUSALS: &str = "--compile-errors early g.mly
~
EOF
~
~
menhir: warning: conflict in state 1 on EOF
menhir: early:1: refused early at index 0
~
^
--compare-errors m --compare-errors n g.mly
~
EOF
~
~
menhir: warning: conflict in state 1 on EOF
menhir: state 0 of m is missing in n
~
^
--update-errors early g.mly
~
EOF
~
~
menhir: warning: conflict in state 1 on EOF
menhir: early:1: refused early at index 0
~
^
--echo-errors shape g.mly
~
EOF
~
~
menhir: warning: conflict in state 1 on EOF
menhir: shape:1: shape
~
^
--interpret --messages early g.mly
~
EOF
~
~
menhir: warning: conflict in state 1 on EOF
menhir: early:1: refused early at index 0
~
";

#[test]
fn refusals_of_modes(rt: HostRuntime) -> Result<(), Fail> {
    check_in_turn(&rt, rt.alloc(), REFUSALS, REFUSED)
}

// A refused table file is reported before the warnings.
const NO_TABLE: &str = "3 shelf 1 0 0 0; menhir: cannot read g.mly
3 shelf 2 0 0 0; menhir: cannot read other
1 shelf 3 all all 0
1 input 1 all all 0
1 out 1 all all 0
4 err 1 0 before 0
1 err 2 all all 0
";

const OTHER_TABLE: &str = "--interpret --tables other g.mly
~
A EOF
~
~
menhir: other: version
~
";

#[test]
fn a_table_that_is_refused(rt: HostRuntime) -> Result<(), Fail> {
    check_in_turn(&rt, rt.alloc(), OTHER_TABLE, NO_TABLE)
}

// The sentence on the first line has no entry.
const ONE_LINE: &str = "3 input 1 0 1 to; menhir: cannot read the input
1 input 2 all all 1
1 out 1 all all 1
4 err 1 0 before 0
4 err 2 0 before 1
1 err 3 all all 1
";

const NO_ENTRY: &str = "--interpret-error g.mly
~
EOF A
A A
~
~
menhir: warning: conflict in state 1 on EOF
menhir: input: refused early at index 0
~
";

#[test]
fn a_line_without_an_entry(rt: HostRuntime) -> Result<(), Fail> {
    check_in_turn(&rt, rt.alloc(), NO_ENTRY, ONE_LINE)
}

// No file and no line is read, and there is no warning.
const NOTHING_READ: &str = "0 shelf 1 all all 0
0 input 1 all all 0
4 out all before all 0
0 err 1 all all 0
";

const SAMPLED: &str = "--sample 0
~
A EOF
~
sample 0: tokens 6, productions 7, states 14, listed 8, accept 2059, overshoot 0, reject 941
~
~
";

#[test]
fn a_sample(rt: HostRuntime) -> Result<(), Fail> {
    check_in_turn(&rt, rt.alloc(), SAMPLED, NOTHING_READ)
}
