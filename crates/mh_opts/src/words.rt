//! Reads the order that the words spell.
ghost use Rattle.std.specs.Prelude.{◌≡◌, IfOk, Ok, not, option_map, map, string_bytes, codes};
ghost use Rattle.clap.specs.Walk.{is_empty};
ghost use Rattle.clap.specs.Words.{first_of, found_of, rows_of};
ghost use Rattle.mh_opts.specs.Orders as orders;
ghost use Rattle.mh_opts.specs.code.AllModes.{asked_in, only_of};
ghost use Rattle.mh_opts.specs.Orders.{EqualsUnlessMemory, IsWithinLimits, grammars_of, lacks, misplaced_in, mode_at, mode_in, order_in, order_of, order_renamed, plain_need, plain_needs, with_hyphens};
ghost use Rattle.mh_opts.specs.Options.{late_needs, needs, options};
ghost use Rattle.mh_opts.specs.App.{plain};

use crate::clap_result::{both, is_given, length_of, number_of, seed_of, value_of};
use crate::command::menhir_command;
use crate::jobs::{
    CANONICAL, COMMENT_EXPECTED, GRAMMARS, INTERPRET, INTERPRET_SHOW_CST, JobKind, LENGTH,
    MESSAGES, NO_STDLIB, Need, Opt, RANDOM_SENTENCE, SAMPLE, SHOW_EXPECTED, STRICT, TABLES, job_of,
    late_needs, needs, options,
};
use crate::modes::{FoundModes, with_next};
use crate::order::{Order, UsageFault};
use crate::repeated_option::{is_reserved, renamed};
use clap::ArgMatches;
use clap::error::ErrorKind;
use mh_grammar::{Memory, Name, Sequence, from_bytes};
use std::alloc::Global;

/// The mode of an option, if the words contain the option.
fn mode_of(matches: &ArgMatches<'_>, option: &Opt<&str>) -> Option<JobKind>
    ensures { result ≡ mode_at (rows_of (found_of matches.now)) (plain option.now (λ name. name.now)) }
{
    if is_given(matches, option.name) {
        option.mode
    } else {
        None
    }
}

/// The modes among the words.
fn modes_of(matches: &ArgMatches<'_>) -> FoundModes<JobKind>
    ensures { result ≡ asked_in (rows_of (found_of matches.now)) options }
{
    let options = options();
    let mut asked = FoundModes::Nothing;
    for option in options {
        asked = with_next(asked, mode_of(matches, option));
    }
    asked
}

/// The single mode, or the fault that there is none or more than one.
fn only(asked: FoundModes<JobKind>) -> Result<JobKind, UsageFault>
    ensures { result ≡ only_of asked }
{
    match asked {
        FoundModes::Nothing => Err(UsageFault::NoMode),
        FoundModes::One(mode) => Ok(mode),
        FoundModes::Several => Err(UsageFault::TwoModes),
    }
}

/// The single mode among the words.
fn only_mode(matches: &ArgMatches<'_>) -> Result<JobKind, UsageFault>
    ensures { EqualsUnlessMemory (mode_in (rows_of (found_of matches.now)) options) result }
{
    only(modes_of(matches))
}

/// Returns true if the option is given without the option that it needs.
fn is_lacking(matches: &ArgMatches<'_>, need: &Need<&str>) -> bool
    ensures { result ≡ lacks (rows_of (found_of matches.now)) (plain_need need.now (λ name. name.now)) }
{
    is_given(matches, need.option) && !is_given(matches, need.needs)
}

/// The first option that is given without the option that it needs.
fn misplaced<'a>(matches: &ArgMatches<'_>, needs: &[Need<&'a str>]) -> Option<&'a str>
    ensures { option_map (λ option. option.now) result ≡ misplaced_in (rows_of (found_of matches.now)) (plain_needs needs.now (λ name. name.now)) }
{
    for need in needs {
        if is_lacking(matches, need) {
            return Some(need.option);
        }
    }
    None
}

fn names_of(alloc: Global, words: &[&str]) -> Result<Sequence<Name>, Memory>
    ensures { IfOk result (λ names. names ≡ map (λ w. w.now) words.now) }
{
    let mut names = Sequence::new(alloc);
    for word in words {
        names.push(from_bytes(alloc, word.as_bytes())?)?;
    }
    Ok(names)
}

/// Returns true if a grammar file is among the words.
fn has_grammar(matches: &ArgMatches<'_>) -> bool
    ensures { result ≡ not (is_empty (grammars_of (rows_of (found_of matches.now)))) }
{
    match matches.get_strs(GRAMMARS) {
        Some(words) => !words.is_empty(),
        None => false,
    }
}

/// The grammar files, in the order of their words.
fn grammars(alloc: Global, matches: &ArgMatches<'_>) -> Result<Sequence<Name>, Memory>
    ensures { IfOk result (λ names. names ≡ grammars_of (rows_of (found_of matches.now))) }
{
    match matches.get_strs(GRAMMARS) {
        Some(words) => names_of(alloc, words),
        None => Ok(Sequence::new(alloc)),
    }
}

/// The option with its two hyphens.
fn written_name(alloc: Global, option: &str) -> Result<Name, Memory>
    ensures { IfOk result (λ name. name ≡ with_hyphens option.now) }
{
    let text = format!(in alloc; "--{option}")?;
    from_bytes(alloc, text.as_bytes())
}

/// The messages file and the table file, if they are given.
fn files_beside(
    alloc: Global,
    matches: &ArgMatches<'_>,
) -> Result<(Option<Name>, Option<Name>), Memory>
    ensures { IfOk result (λ files.
        (files.0 ≡ first_of (codes "messages") (rows_of (found_of matches.now))) × (files.1 ≡ first_of (codes "tables") (rows_of (found_of matches.now)))) }
{
    both(
        value_of(alloc, matches, MESSAGES),
        value_of(alloc, matches, TABLES),
    )
}

/// The order with the job of this mode and the values of all other options.
fn order_for(alloc: Global, matches: &ArgMatches<'_>, mode: JobKind) -> Result<Order, Memory>
    ensures { IfOk result (λ order. order ≡ orders.order_for (rows_of (found_of matches.now)) mode) }
{
    let (job, (grammars, (messages, tables))) = both(
        job_of(alloc, matches, mode),
        both(grammars(alloc, matches), files_beside(alloc, matches)),
    )?;
    Ok(Order {
        job,
        grammars,
        canonical: is_given(matches, CANONICAL),
        strict: is_given(matches, STRICT),
        stdlib: !is_given(matches, NO_STDLIB),
        show_cst: is_given(matches, INTERPRET_SHOW_CST),
        show_expected: is_given(matches, SHOW_EXPECTED),
        comment_expected: is_given(matches, COMMENT_EXPECTED),
        messages,
        tables,
    })
}

/// Returns true if an option that takes a number is given, but its value is not a number that this option allows.
fn lacks_number(matches: &ArgMatches<'_>) -> bool
    ensures { result ≡ orders.lacks_number (rows_of (found_of matches.now)) }
{
    (is_given(matches, SAMPLE) && number_of(matches).is_none())
        || (is_given(matches, RANDOM_SENTENCE) && seed_of(matches).is_none())
        || (is_given(matches, LENGTH) && length_of(matches).is_none())
}

/// Returns true if the mode has its own grammar.
fn is_sample(mode: JobKind) -> bool
    ensures { result ≡ orders.is_sample mode }
{
    matches!(mode, JobKind::Sample)
}

/// Returns true if a table file is given that would not be used: with a canonical table, because that is built, or with
/// a sample.
fn clashes(matches: &ArgMatches<'_>, mode: JobKind) -> bool
    ensures { result ≡ orders.clashes (rows_of (found_of matches.now)) mode }
{
    is_given(matches, TABLES) && (is_given(matches, CANONICAL) || is_sample(mode))
}

/// True if `--show-expected` is given without `--interpret`, or with `--messages`.
fn misplaces_show_expected(matches: &ArgMatches<'_>) -> bool
    ensures { result ≡ orders.misplaces_show_expected (rows_of (found_of matches.now)) }
{
    is_given(matches, SHOW_EXPECTED)
        && (!is_given(matches, INTERPRET) || is_given(matches, MESSAGES))
}

/// Returns true if the mode writes comment lines of failing sentences.
fn writes_comments(mode: JobKind) -> bool
    ensures { result ≡ orders.writes_comments mode }
{
    matches!(
        mode,
        JobKind::ListErrors
            | JobKind::UpdateErrors
            | JobKind::RebaseErrors
            | JobKind::InterpretError
    )
}

/// The order of a mode, or the first fault: a misplaced option, or no grammar.
fn order_unless_misplaced(
    alloc: Global,
    matches: &ArgMatches<'_>,
    mode: JobKind,
) -> Result<Order, UsageFault>
    ensures { let rows = rows_of (found_of matches.now) in EqualsUnlessMemory (orders.order_unless_misplaced rows mode (misplaced_in rows needs)) result }
{
    if let Some(option) = misplaced(matches, needs()) {
        return Err(UsageFault::Misplaced {
            option: written_name(alloc, option)?,
        });
    }
    if clashes(matches, mode) {
        return Err(UsageFault::Misplaced {
            option: written_name(alloc, TABLES)?,
        });
    }
    if is_sample(mode) && has_grammar(matches) {
        return Err(UsageFault::Misplaced {
            option: written_name(alloc, SAMPLE)?,
        });
    }
    if misplaces_show_expected(matches) {
        return Err(UsageFault::Misplaced {
            option: written_name(alloc, SHOW_EXPECTED)?,
        });
    }
    order_late(alloc, matches, mode)
}

/// Returns the order of the mode, after the checks of the options that clash with another word.
fn order_late(alloc: Global, matches: &ArgMatches<'_>, mode: JobKind) -> Result<Order, UsageFault>
    ensures { let rows = rows_of (found_of matches.now) in EqualsUnlessMemory (orders.order_late rows mode (misplaced_in rows late_needs)) result }
{
    if let Some(option) = misplaced(matches, late_needs()) {
        return Err(UsageFault::Misplaced {
            option: written_name(alloc, option)?,
        });
    }
    if is_given(matches, COMMENT_EXPECTED) && !writes_comments(mode) {
        return Err(UsageFault::Misplaced {
            option: written_name(alloc, COMMENT_EXPECTED)?,
        });
    }
    if !is_sample(mode) && !has_grammar(matches) {
        return Err(UsageFault::NoGrammar);
    }
    Ok(order_for(alloc, matches, mode)?)
}

/// The order that the matches spell, or the first fault. `Parse` is not among the faults: the words are parsed already.
fn matched_order(alloc: Global, matches: &ArgMatches<'_>) -> Result<Order, UsageFault>
    ensures { EqualsUnlessMemory (order_in (rows_of (found_of matches.now))) result }
{
    if lacks_number(matches) {
        return Err(UsageFault::Number);
    }
    match only_mode(matches) {
        Ok(mode) => order_unless_misplaced(alloc, matches, mode),
        Err(fault) => Err(fault),
    }
}

/// Returns the order that the words spell. Fails with `Parse` exactly if clap does not accept the words (also for
/// `--help`) or a word has the reserved name of the second `--compare-errors`; else with the first of `Number`,
/// `NoMode`, `TwoModes`, `Misplaced` with the option, and `NoGrammar`, each exactly if it holds; and with `Memory` only
/// if memory runs out.
pub fn read_words(alloc: Global, words: &[String]) -> Result<Order, UsageFault>
    ensures answers { EqualsUnlessMemory (order_of (map string_bytes words.now)) result }
    ensures limits { IfOk result (λ order. IsWithinLimits order.job) }
{
    if is_reserved(words) {
        return Err(UsageFault::Parse);
    }
    let renamed = renamed(alloc, words)?;
    read_renamed(alloc, renamed.as_slice())
}

/// Reads the order from the words. If `--compare-errors` occurs twice, its second use already has its other name.
fn read_renamed(alloc: Global, words: &[String]) -> Result<Order, UsageFault>
    ensures { EqualsUnlessMemory (order_renamed (map string_bytes words.now)) result }
{
    let command = menhir_command(alloc)?;
    match command.try_get_matches_from(words) {
        Ok(matches) => matched_order(alloc, &matches),
        Err(error) => match error.kind() {
            ErrorKind::OutOfMemory => Err(UsageFault::Memory),
            _ => Err(UsageFault::Parse),
        },
    }
}
