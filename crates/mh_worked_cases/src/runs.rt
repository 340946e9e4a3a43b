//! Cases as texts: the words, the files and the input of a run, and the texts that the tool writes.
use crate::devices::{AcceptedSize, Devices, FailingCalls};
use mh_worked_files::filled;
use std::alloc::Global;
use std::fmt::Write;
use std::test::Fail;

/// A grammar with one sentence, `A EOF`, as the file `g.mly`, which is added to the files of each case.
pub const ONE_SENTENCE_FILE: &str = "g.mly\n%token A EOF\n%start s\n%%\ns: A EOF {}\n";

/// Grammars of the worked examples, one a line.
pub const SMALL_GRAMMARS: &str = "%token A EOF %start s %% s: A EOF {}
%token A B EOF %start s %% s: A EOF {}
%token A B C D %start p q %% p: x A {} q: x B {} x: C D {}
%token INT EQ EOF %nonassoc EQ %start main %% main: e EOF {} e: INT {} | e EQ e {}
%token X SEMI EOF %start main %on_error_reduce s %% main: s EOF {} s: X {} | X SEMI {}
%token INT PLUS TIMES EOF %start main %% main: e EOF {} e: e PLUS t {} | t {} t: t TIMES INT {} | INT {}
%token A %start s %% s: {}";

/// The status of a run, and the texts on `out` and `err`.
#[derive(Drop)]
pub struct Outcome {
    pub status: u8,
    pub out: Vec<u8>,
    pub err: Vec<u8>,
}

/// Both values, if making the second did not fail.
pub fn beside<A: Drop, B>(value: A, other: Result<B, Fail>) -> Result<(A, B), Fail> {
    match other {
        Ok(other) => Ok((value, other)),
        Err(fail) => Err(fail),
    }
}

fn add_words(alloc: Global, words: &mut Vec<String>, text: &str) -> Result<(), Fail> {
    for word in text.split_ascii_whitespace() {
        let word = String::from_str(alloc, word)?;
        words.push(word)?;
    }
    Ok(())
}

/// The words of a text.
pub fn words_of(alloc: Global, text: &str) -> Result<Vec<String>, Fail> {
    let mut words = Vec::new(alloc);
    let added = add_words(alloc, &mut words, text);
    filled(words, added)
}

/// The outcome of a run: its status and the written texts.
fn outcome_of(alloc: Global, status: u8, out: &[u8], err: &[u8]) -> Result<Outcome, Fail> {
    let out = out.to_vec(alloc)?;
    let err = err.to_vec(alloc)?;
    Ok(Outcome { status, out, err })
}

fn run_given(alloc: Global, words: &[String], mut devices: Devices) -> Result<Outcome, Fail> {
    let status = devices.run(alloc, words);
    let outcome = outcome_of(alloc, status, devices.out.written(), devices.err.written());
    drop(devices);
    outcome
}

/// Runs the tool on the words of a text.
fn run(
    alloc: Global,
    words: &str,
    files: Vec<(Vec<u8>, Vec<u8>)>,
    input: Vec<u8>,
    fails: FailingCalls,
) -> Result<Outcome, Fail> {
    let devices = Devices::new(alloc, files, input, fails, AcceptedSize::Pieces)?;
    let (devices, given) = beside(devices, words_of(alloc, words))?;
    let outcome = run_given(alloc, &given, devices);
    drop(given);
    outcome
}

/// Runs the tool with the grammar file `g.mly`, without input.
pub fn run_on(alloc: Global, words: &str, grammar: &str) -> Result<Outcome, Fail> {
    run_with(alloc, words, grammar, &[])
}

/// Runs the tool with the grammar file `g.mly` on this input.
pub fn run_with(alloc: Global, words: &str, grammar: &str, input: &[u8]) -> Result<Outcome, Fail> {
    let mut files = Vec::new(alloc);
    let added = push_file(alloc, &mut files, "g.mly", grammar.as_bytes());
    run_files(alloc, words, filled(files, added)?, input)
}

/// Runs the tool with these files on this input.
pub fn run_files(
    alloc: Global,
    words: &str,
    files: Vec<(Vec<u8>, Vec<u8>)>,
    input: &[u8],
) -> Result<Outcome, Fail> {
    let (files, input) = beside(files, copied(alloc, input))?;
    run(alloc, words, files, input, FailingCalls::none(alloc))
}

pub fn copied(alloc: Global, bytes: &[u8]) -> Result<Vec<u8>, Fail> {
    Ok(bytes.to_vec(alloc)?)
}

/// Adds a file with this name and text.
pub fn push_file(
    alloc: Global,
    files: &mut Vec<(Vec<u8>, Vec<u8>)>,
    name: &str,
    text: &[u8],
) -> Result<(), Fail> {
    let name = copied(alloc, name.as_bytes())?;
    files.push(beside(name, copied(alloc, text))?)?;
    Ok(())
}

/// Appends a number, with at least three digits if `like` has three.
fn put_number(text: &mut String, number: u32, like: &str) {
    let _ = if like.len() == 3 {
        write!(text, "{number:03}")
    } else {
        write!(text, "{number}")
    };
}

/// Appends a part with the number in place of each `@`, and the next number in place of each `@+`.
fn put_numbered(text: &mut String, part: &str, number: u32, like: &str) {
    for (place, piece) in part.split('@').enumerate() {
        if place > 0 {
            let is_next = piece.starts_with('+');
            put_number(text, number.saturating_add(u32::from(is_next)), like);
        }
        let _ = text.push_str(piece.trim_start_matches('+'));
    }
}

/// Appends a part once for each number of a range. The range is written before the part.
fn push_repeated(text: &mut String, repeated: &str) -> Result<(), Fail> {
    let (numbers, part) = repeated.split_once(' ').ok_or("numbers without a part")?;
    let (first, end) = numbers.split_once("..").ok_or("a part without numbers")?;
    for number in first.parse::<u32>()?..end.parse::<u32>()? {
        put_numbered(text, part, number, first);
    }
    Ok(())
}

fn push_spelled(text: &mut String, short: &str) -> Result<(), Fail> {
    for (place, part) in short.split('`').enumerate() {
        if place % 2 == 0 {
            text.push_str(part)?;
        } else {
            push_repeated(text, part)?;
        }
    }
    Ok(())
}

/// Expands the short form of a text. Between two backquotes, the short form has `FIRST..END`, a space and a part. The
/// part is repeated for each number from FIRST to END - 1, with this number in place of `@` and the next number in
/// place of `@+`. If FIRST has three digits, so has each number.
fn spelled(alloc: Global, short: &str) -> Result<Vec<u8>, Fail> {
    let mut text = String::new(alloc);
    let added = push_spelled(&mut text, short);
    Ok(filled(text, added)?.into_bytes())
}

/// Adds a file from its name, on the first line, and its text.
fn add_file(alloc: Global, files: &mut Vec<(Vec<u8>, Vec<u8>)>, file: &str) -> Result<(), Fail> {
    let (name, short) = file.split_once('\n').ok_or("a file without a name")?;
    let text = spelled(alloc, short)?;
    let added = push_file(alloc, files, name, text.as_slice());
    drop(text);
    added
}

fn add_files(
    alloc: Global,
    files: &mut Vec<(Vec<u8>, Vec<u8>)>,
    shared: Option<&str>,
    named: &[&str],
) -> Result<(), Fail> {
    if let Some(shared) = shared {
        for file in shared.split("~\n") {
            add_file(alloc, files, file)?;
        }
    }
    for file in named {
        add_file(alloc, files, *file)?;
    }
    Ok(())
}

/// The shared files and those of a case.
pub fn given_files(
    alloc: Global,
    shared: Option<&str>,
    named: &[&str],
) -> Result<Vec<(Vec<u8>, Vec<u8>)>, Fail> {
    let mut files = Vec::new(alloc);
    let added = add_files(alloc, &mut files, shared, named);
    filled(files, added)
}

fn add_parts<'a>(parts: &mut Vec<&'a str>, case: &'a str) -> Result<(), Fail> {
    for part in case.split("~\n") {
        parts.push(part)?;
    }
    Ok(())
}

/// The parts of a case, which are separated by lines `~`.
pub fn parts_of(alloc: Global, case: &str) -> Result<Vec<&str>, Fail> {
    let mut parts = Vec::new(alloc);
    let added = add_parts(&mut parts, case);
    filled(parts, added)
}

/// Returns true if a text is the wanted one. If the last line of the wanted text is `...`, the text must only begin
/// with the lines before; if the first line is `...`, it must only end with the lines after.
fn is_wanted(found: &[u8], wanted: &[u8]) -> bool {
    if let Some(front) = wanted.strip_suffix(b"...\n") {
        return found.starts_with(front);
    }
    match wanted.strip_prefix(b"...\n") {
        Some(end) => found.ends_with(end),
        None => found == wanted,
    }
}

/// The first line of a text that another text does not have in the same place; an empty line if there is none.
fn first_other_line<'a>(text: &'a str, other: &str) -> &'a str {
    let mut others = other.lines();
    for line in text.lines() {
        if others.next() != Some(line) {
            return line;
        }
    }
    ""
}

/// A failure with the first line that is not the wanted one, and with the wanted line.
fn unlike(alloc: Global, found: &[u8], wanted: &[u8], case: &str) -> Fail {
    let found = str::from_utf8(found).unwrap_or("no text");
    let wanted = str::from_utf8(wanted).unwrap_or("no text");
    let line = first_other_line(found, wanted);
    let wanted_line = first_other_line(wanted, found);
    match format!(in alloc; "{line:?} in place of {wanted_line:?} in\n{case}") {
        Ok(text) => Fail::new(text),
        Err(_) => Fail::from("another text"),
    }
}

/// Fails if a text is not the wanted one.
fn check_text(alloc: Global, found: &[u8], wanted: &str, case: &str) -> Result<(), Fail> {
    let wanted = spelled(alloc, wanted)?;
    let result = if is_wanted(found, wanted.as_slice()) {
        Ok(())
    } else {
        Err(unlike(alloc, found, wanted.as_slice(), case))
    };
    drop(wanted);
    result
}

/// Fails if a status is not the wanted one.
fn check_status(alloc: Global, found: u8, wanted: u8, case: &str) -> Result<(), Fail> {
    if found == wanted {
        return Ok(());
    }
    match format!(in alloc; "status {found} in\n{case}") {
        Ok(text) => Err(Fail::new(text)),
        Err(_) => Err(Fail::from("another status")),
    }
}

/// Fails if the outcome of a run is not the wanted one.
fn check_outcome(
    alloc: Global,
    got: &Outcome,
    wanted: (u8, &str, &str),
    case: &str,
) -> Result<(), Fail> {
    check_text(alloc, &got.err, wanted.2, case)?;
    check_text(alloc, &got.out, wanted.1, case)?;
    check_status(alloc, got.status, wanted.0, case)
}

/// The status and the words of a case, and the calls that fail.
#[derive(Clone, Copy)]
struct Head<'a> {
    status: u8,
    words: &'a str,
    calls: &'a str,
}

fn head_of(text: &str) -> Result<Head<'_>, Fail> {
    let (order, calls) = text.split_once('\n').ok_or("a case without words")?;
    let (status, words) = order.split_once(' ').unwrap_or((order, ""));
    Ok(Head {
        status: status.parse()?,
        words,
        calls,
    })
}

/// The outcome of a case.
fn run_case(
    alloc: Global,
    head: Head,
    shared: Option<&str>,
    named: &[&str],
    input: &str,
) -> Result<Outcome, Fail> {
    let files = given_files(alloc, shared, named)?;
    let given = beside(files, FailingCalls::of_lines(alloc, head.calls))?;
    let ((files, fails), input) = beside(given, spelled(alloc, input))?;
    run(alloc, head.words, files, input, fails)
}

/// Runs one case of a text.
fn check_parts(
    alloc: Global,
    shared: Option<&str>,
    parts: &[&str],
    case: &str,
) -> Result<(), Fail> {
    let [head, named @ .., input, out, err] = parts else {
        return Err(Fail::from("a case lacks a part"));
    };
    let head = head_of(*head)?;
    let got = run_case(alloc, head, shared, named, *input)?;
    let result = check_outcome(alloc, &got, (head.status, *out, *err), case);
    drop(got);
    result
}

fn check_case(alloc: Global, shared: Option<&str>, case: &str) -> Result<(), Fail> {
    let parts = parts_of(alloc, case)?;
    let result = check_parts(alloc, shared, parts.as_slice(), case);
    drop(parts);
    result
}

/// Runs each case of a text. Lines `^` are between cases, and lines `~` between the parts of a case. The parts are: the
/// status and the words, with a line for each failing call of a device; each file, after a line with its name; the
/// input; the text on `out`; and the text on `err`. If a text ends with the line `...`, only its beginning is given; if
/// it begins with this line, only its end.
pub fn check_cases(alloc: Global, cases: &str) -> Result<(), Fail> {
    for case in cases.split("^\n") {
        check_case(alloc, None, case)?;
    }
    Ok(())
}

/// Runs each case of a text with these shared files in addition to its own. Each shared file begins with a line of its
/// name, and a line `~` is between two.
pub fn check_cases_with(alloc: Global, files: &str, cases: &str) -> Result<(), Fail> {
    for case in cases.split("^\n") {
        check_case(alloc, Some(files), case)?;
    }
    Ok(())
}
