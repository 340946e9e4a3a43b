//! Reads clap's result.
ghost use Rattle.std.specs.Prelude.{◌≡◌, IfOk, Ok, unwrap_or};
ghost use Rattle.clap.specs.Takes as clap;
ghost use Rattle.clap.specs.Words.{first_of, found_of, rows_of};
ghost use Rattle.mh_opts.specs.Orders as orders;

use crate::jobs::{LENGTH, RANDOM_SENTENCE, SAMPLE};
use crate::numbers::{length_in, number_in, seed_in};
use clap::ArgMatches;
use clap::parser::ValueSource;
use mh_grammar::{Memory, Name, from_bytes};
use std::alloc::Global;

/// Returns true if the words contain the option or, for `GRAMMARS`, a file. A default value does not count as given.
pub(crate) fn is_given(matches: &ArgMatches<'_>, name: &str) -> bool
    ensures { result ≡ clap.is_given name.now (rows_of (found_of matches.now)) }
{
    match matches.value_source(name) {
        Some(ValueSource::CommandLine) => true,
        Some(ValueSource::DefaultValue) => false,
        None => matches.contains_id(name),
    }
}

/// The value of an option, if the words give one.
pub(crate) fn value_of(
    alloc: Global,
    matches: &ArgMatches<'_>,
    name: &str,
) -> Result<Option<Name>, Memory>
    ensures { IfOk result (λ value. value ≡ first_of name.now (rows_of (found_of matches.now))) }
{
    match matches.get_str(name) {
        Some(value) => Ok(Some(from_bytes(alloc, value.as_bytes())?)),
        None => Ok(None),
    }
}

/// The file of an option, or the empty name.
pub(crate) fn file_of(alloc: Global, matches: &ArgMatches<'_>, name: &str) -> Result<Name, Memory>
    ensures { IfOk result (λ file. file ≡ orders.file_of (rows_of (found_of matches.now)) name.now) }
{
    match matches.get_str(name) {
        Some(value) => from_bytes(alloc, value.as_bytes()),
        None => from_bytes(alloc, b""),
    }
}

/// The text of an option, or the empty text.
fn text_of<'a>(matches: &ArgMatches<'a>, name: &str) -> &'a str
    ensures { result.now ≡ orders.file_of (rows_of (found_of matches.now)) name.now }
{
    match matches.get_str(name) {
        Some(value) => value,
        None => "",
    }
}

/// The number of `--sample`, if it is one.
pub(crate) fn number_of(matches: &ArgMatches<'_>) -> Option<u32>
    ensures { result ≡ orders.number_of (rows_of (found_of matches.now)) }
{
    number_in(text_of(matches, SAMPLE))
}

/// The number of `--sample`. An order without this number is refused before this call.
pub(crate) fn sample_number(matches: &ArgMatches<'_>) -> u32
    ensures { result ≡ unwrap_or (orders.number_of (rows_of (found_of matches.now))) 0 }
{
    number_of(matches).unwrap_or(0)
}

/// The seed of the random sentence, if the value of `--random-sentence` is a number that this option allows.
pub(crate) fn seed_of(matches: &ArgMatches<'_>) -> Option<u64>
    ensures { result ≡ orders.seed_of (rows_of (found_of matches.now)) }
{
    seed_in(text_of(matches, RANDOM_SENTENCE))
}

/// The seed of the random sentence, or 0 if there is none. An order without a seed is refused before this call.
pub(crate) fn seed_number(matches: &ArgMatches<'_>) -> u64
    ensures { result ≡ unwrap_or (orders.seed_of (rows_of (found_of matches.now))) 0 }
{
    seed_of(matches).unwrap_or(0)
}

/// The most tokens of the random sentence, if the value of `--length` is a number that this option allows.
pub(crate) fn length_of(matches: &ArgMatches<'_>) -> Option<u32>
    ensures { result ≡ orders.length_of (rows_of (found_of matches.now)) }
{
    length_in(text_of(matches, LENGTH))
}

/// The most tokens of the random sentence, or 0 if there is none. An order without a length is refused before this
/// call.
pub(crate) fn length_number(matches: &ArgMatches<'_>) -> u32
    ensures { result ≡ unwrap_or (orders.length_of (rows_of (found_of matches.now))) 0 }
{
    length_of(matches).unwrap_or(0)
}

/// Both values, or `Memory`. The function is generic, because dropping values of known types on each way out would take
/// long to prove.
pub(crate) fn both<A: Drop, B: Drop>(
    first: Result<A, Memory>,
    second: Result<B, Memory>,
) -> Result<(A, B), Memory>
    ensures { IfOk result (λ pair. (first ≡ Ok pair.0) × (second ≡ Ok pair.1)) }
{
    let first = first?;
    let second = second?;
    Ok((first, second))
}
