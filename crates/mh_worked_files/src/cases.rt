//! Test cases as one text. A case is its given text, `~`, and the wanted text; `^` is between cases. If several files
//! are given, `#` is between them.
ghost use Rattle.std.specs.Prelude.{IfOk};
ghost use Rattle.mh_rules.specs.Ready.{IsModuleReady, AreModulesReady, IsJoinedReady};

use crate::devices::{put_counts, put_lines, put_pieces, put_shelf, put_trickled};
use crate::expanding::put_instances;
use crate::filling::put;
use crate::fronts::{put_front, put_line};
use crate::inlining::put_grammar;
use crate::joining::put_joined;
use crate::lexemes::put_lexemes;
use crate::lines::{Reading, put_reading};
use crate::modules::{put_costs, put_costs_again, put_depth, put_kept, put_printed};
use crate::places::put_places;
use crate::words::{put_read, put_words};
use mh_front::GrammarFault;
use mh_grammar::{Level, Name, Symbol};
use mh_join::{Joined, Prec, join};
use mh_reader::read_module;
use mh_reader_parser::Module;
use std::alloc::Global;
use std::test::Fail;

/// How the given text of a case is turned into the text to compare.
#[derive(Clone, Copy)]
pub enum Subject<'a> {
    /// The lexemes of a grammar file.
    Lexemes,
    /// Whether a grammar file spells a module, and whether printing this module and reading it again gives the same
    /// text.
    Kept,
    /// The names of a grammar file with their places.
    Places,
    /// Whether a grammar file of many brackets or suffixes spells a module.
    Depth,
    /// The printed module of a grammar file.
    Printed,
    /// The costs of the tokens of a grammar file.
    Costs,
    /// The costs of the tokens in the printed module of a grammar file.
    CostsAgain,
    /// A line or a messages file, read for a grammar with these start symbols.
    OfGrammar(Reading, &'a [u16]),
    /// The order that the words spell, or the usage fault.
    Words,
    /// The order or the fault of an empty command line.
    NoWords,
    /// The lines of an input.
    Lines,
    /// The results of writing pieces, when a write fails.
    Pieces,
    /// The part of `abcd` that a sink accepted.
    Trickled,
    /// The results of several reads from one shelf.
    Shelf,
    /// The numbers of bytes that reads return.
    Counts,
    /// The joined rules of files. The flag says whether the prelude is included.
    Joined(bool),
    /// The instances of the rules of files, without the prelude.
    Instances,
    /// The inlined grammar of files, without the prelude.
    Grammar,
    /// The grammar of files, or the line that reports their fault. The flag says whether the prelude is included.
    Front(bool),
    /// The line that reports that the front end ran out of memory.
    Memory,
}

/// Appends the text to compare for a case.
fn put_answer(
    alloc: Global,
    text: &mut Vec<u8>,
    subject: &Subject,
    given: &str,
) -> Result<(), Fail> {
    let bytes = given.as_bytes();
    match subject {
        Subject::Lexemes => put_lexemes(alloc, text, bytes),
        Subject::Kept => put_kept(alloc, text, bytes),
        Subject::Places => put_places(alloc, text, bytes),
        Subject::Depth => put_depth(alloc, text, given),
        Subject::Printed => put_printed(alloc, text, bytes),
        Subject::Costs => put_costs(alloc, text, bytes),
        Subject::CostsAgain => put_costs_again(alloc, text, bytes),
        Subject::OfGrammar(reading, starts) => put_reading(alloc, text, *reading, *starts, bytes),
        Subject::Words => put_words(alloc, text, given),
        Subject::NoWords => put_read(alloc, text, &[]),
        Subject::Lines => put_lines(alloc, text, given),
        Subject::Pieces => put_pieces(alloc, text),
        Subject::Trickled => put_trickled(alloc, text, given),
        Subject::Shelf => put_shelf(alloc, text, given)?,
        Subject::Counts => put_counts(alloc, text),
        Subject::Joined(prelude) => put_joined(alloc, text, given, *prelude)?,
        Subject::Instances => put_instances(alloc, text, given)?,
        Subject::Grammar => put_grammar(alloc, text, given)?,
        Subject::Front(prelude) => put_front(alloc, text, given, *prelude)?,
        Subject::Memory => put_line(alloc, text, &GrammarFault::Memory),
    }
    Ok(())
}

/// A failure with the found text and the given text of the case.
fn unlike(alloc: Global, found: &[u8], at: &str) -> Fail {
    let found = str::from_utf8(found).unwrap_or("no text");
    match format!(in alloc; "{found:?} at {at:?}") {
        Ok(text) => Fail::new(text),
        Err(_) => Fail::from("another text"),
    }
}

/// What a text must be.
#[derive(Clone, Copy)]
pub enum Wanted<'a> {
    /// Exactly this text.
    Whole(&'a str),
    /// A text with this number of bytes, this beginning and this end.
    Ends(usize, &'a str, &'a str),
}

fn is_wanted(found: &[u8], wanted: &Wanted) -> bool {
    match wanted {
        Wanted::Whole(text) => found == text.as_bytes(),
        Wanted::Ends(length, front, end) => {
            let has_ends = found.starts_with(front.as_bytes()) & found.ends_with(end.as_bytes());
            has_ends & (found.len() == *length)
        }
    }
}

/// Fails if a text is not the wanted one.
fn check(alloc: Global, found: &[u8], wanted: &Wanted, at: &str) -> Result<(), Fail> {
    if is_wanted(found, wanted) {
        Ok(())
    } else {
        Err(unlike(alloc, found, at))
    }
}

fn put_and_check(
    alloc: Global,
    text: &mut Vec<u8>,
    subject: &Subject,
    given: &str,
    wanted: &Wanted,
) -> Result<(), Fail> {
    put_answer(alloc, text, subject, given)?;
    check(alloc, text, wanted, given)
}

/// Fails if the result of one case is not the wanted one.
pub fn check_answer(
    alloc: Global,
    subject: &Subject,
    given: &str,
    wanted: &Wanted,
) -> Result<(), Fail> {
    let mut text = Vec::new(alloc);
    let result = put_and_check(alloc, &mut text, subject, given, wanted);
    drop(text);
    result
}

/// Does the same for files that were built by the test, and drops them.
pub fn check_built(
    alloc: Global,
    subject: &Subject,
    files: String,
    wanted: &Wanted,
) -> Result<(), Fail> {
    let result = check_answer(alloc, subject, &files, wanted);
    drop(files);
    result
}

fn check_case(alloc: Global, subject: &Subject, case: &str) -> Result<(), Fail> {
    match case.rsplit_once('~') {
        Some((given, wanted)) => check_answer(alloc, subject, given, &Wanted::Whole(wanted)),
        None => Err(Fail::from("a case without a `~`")),
    }
}

/// Fails if the result of some case is not the wanted one, or if the number of cases is not `count`.
pub fn check_cases(
    alloc: Global,
    subject: &Subject,
    cases: &str,
    count: usize,
) -> Result<(), Fail> {
    let mut left = count;
    for case in cases.split('^') {
        check_case(alloc, subject, case)?;
        left = left.wrapping_sub(1);
    }
    if left == 0 {
        Ok(())
    } else {
        Err(Fail::from("another count of cases"))
    }
}

/// The module of a short grammar file.
fn module_of(alloc: Global, file: &str) -> Result<Module, Fail>
    ensures { IfOk result IsModuleReady }
{
    if file.len() >= 10_000 {
        return Err(Fail::from("a long file"));
    }
    match read_module(alloc, file.as_bytes()) {
        Ok(module) => Ok(module),
        Err(_) => Err(Fail::from("a file that spells nothing")),
    }
}

/// The modules of short grammar files. Fails if one of them spells no module.
pub fn modules_of(alloc: Global, files: &str) -> Result<Vec<Module>, Fail>
    ensures { IfOk result (λ modules. AreModulesReady modules.items) }
{
    let mut modules = Vec::new(alloc);
    for file in files.split('#') {
        modules.push(module_of(alloc, file)?)?;
    }
    Ok(modules)
}

/// The joined rules of files. Fails if the files have a fault.
pub fn joined_of(alloc: Global, files: &str, prelude: bool) -> Result<Joined, Fail>
    ensures { IfOk result IsJoinedReady }
{
    let modules = modules_of(alloc, files)?;
    let joined = join(alloc, modules.as_slice(), prelude);
    drop(modules);
    Ok(joined?)
}

fn put_byte(out: &mut Vec<u8>, byte: u8) {
    let _ = out.push(byte);
}

/// The digit of a number below 10, and `?` for a greater number.
pub fn digit(number: u64) -> u8 {
    if number < 10 {
        b'0' + number as u8
    } else {
        b'?'
    }
}

pub fn push_digit(out: &mut Vec<u8>, number: u64) {
    put_byte(out, digit(number));
}

/// Appends a number.
pub fn put_number(alloc: Global, text: &mut Vec<u8>, number: u64) {
    if let Ok(digits) = format!(in alloc; "{number}") {
        put(text, digits.as_bytes());
        drop(digits);
    }
}

/// Appends a number below 100.
pub fn push_number(out: &mut Vec<u8>, number: u64) {
    if number >= 10 {
        push_digit(out, number / 10);
    }
    push_digit(out, number % 10);
}

/// Appends the kind of a fault and its name.
pub fn push_named(out: &mut Vec<u8>, kind: u8, name: &Name) {
    put_byte(out, kind);
    put(out, b" ");
    put(out, name.as_slice());
}

/// Appends `%`, the file of a level and its rank.
pub fn push_level(out: &mut Vec<u8>, level: Level) {
    put(out, b"%");
    push_digit(out, level.file);
    push_digit(out, level.rank);
}

/// Appends the level of a `%prec`, or `-` if it gives no level.
pub fn push_prec(out: &mut Vec<u8>, prec: Prec) {
    match prec {
        Prec::Absent => {}
        Prec::Given(None) => put(out, b"-"),
        Prec::Given(Some(level)) => push_level(out, level),
    }
}

/// Appends a token as `t0`, or a nonterminal as `n0`, with its number.
pub fn push_symbol(out: &mut Vec<u8>, symbol: Symbol) {
    let (kind, number) = match symbol {
        Symbol::T(number) => (b"t", number),
        Symbol::N(number) => (b"n", number),
    };
    put(out, kind);
    push_digit(out, u64::from(number));
}
