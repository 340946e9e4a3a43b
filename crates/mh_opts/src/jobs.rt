//! The jobs of the program, and the table of the options that ask for them.
ghost use Rattle.std.specs.Prelude.{◌≡◌, IfOk};
ghost use Rattle.clap.specs.Words.{found_of, rows_of};
ghost use Rattle.mh_opts.specs.App.{plain_rows};
ghost use Rattle.mh_opts.specs.declared.jobs.JobKind.TheVariants as mode;
ghost use Rattle.mh_opts.specs.Options as table;
ghost use Rattle.mh_opts.specs.Orders.{job_for, plain_needs};

use crate::clap_result::{both, file_of, length_number, sample_number, seed_number};
use clap::{ArgAction, ArgMatches};
use mh_grammar::{Memory, Name};
use std::alloc::Global;

/// The name under which clap keeps the words that are not options.
pub(crate) const GRAMMARS: &str = "grammars";

pub(crate) const INTERPRET: &str = "interpret";

pub(crate) const INTERPRET_SHOW_CST: &str = "interpret-show-cst";

pub(crate) const SHOW_EXPECTED: &str = "show-expected";

pub(crate) const COMMENT_EXPECTED: &str = "comment-expected";

pub(crate) const CANONICAL: &str = "canonical";

pub(crate) const STRICT: &str = "strict";

pub(crate) const NO_STDLIB: &str = "no-stdlib";

pub(crate) const COMPILE_ERRORS: &str = "compile-errors";

pub(crate) const COMPARE_ERRORS: &str = "compare-errors";

/// The name of the second use of `--compare-errors` when clap reads the words.
pub(crate) const COMPARE_ERRORS_2: &str = "compare-errors-2";

pub(crate) const ECHO_ERRORS: &str = "echo-errors";

pub(crate) const UPDATE_ERRORS: &str = "update-errors";

pub(crate) const REBASE_ERRORS: &str = "rebase-errors";

pub(crate) const CHECK_ERRORS: &str = "check-errors";

pub(crate) const SAMPLE: &str = "sample";

pub(crate) const RANDOM_SENTENCE: &str = "random-sentence";

pub(crate) const LENGTH: &str = "length";

pub(crate) const MESSAGES: &str = "messages";

pub(crate) const TABLES: &str = "tables";

/// The job of the program.
#[derive(Drop)]
pub enum Job {
    /// `--interpret`: a verdict for each line of the input.
    Interpret,
    /// `--interpret-error`: the entry of the list of errors for the sentence on the first line of the input.
    InterpretError,
    /// `--session`: for each line of the input, the reply to a command on named branches.
    Session,
    /// `--show-automaton`: the automaton as text.
    ShowAutomaton,
    /// `--write-tables`: the table file.
    WriteTables,
    /// `--list-errors`: an entry for each state in which some sentence fails.
    ListErrors,
    /// `--compile-errors FILE`: the messages of a messages file, by state.
    CompileErrors { file: Name },
    /// `--compare-errors FILE`, twice: the states that the first messages file names and the second does not.
    CompareErrors { first: Name, second: Name },
    /// `--echo-errors FILE`: the sentences of a messages file, one a line.
    EchoErrors { file: Name },
    /// `--update-errors FILE`: a messages file with its comment lines made anew.
    UpdateErrors { file: Name },
    /// `--rebase-errors FILE`: a messages file for another version of the grammar, rebased onto this grammar.
    RebaseErrors { file: Name },
    /// `--check-errors FILE`: everything that is wrong with a messages file.
    CheckErrors { file: Name },
    /// `--check`: the faults of the grammar files, or the warnings on an accepted grammar.
    Check,
    /// `--sample N`: the counts of a sample, that is of a generated grammar.
    Sample { number: u32 },
    /// `--shortest-sentences`: the shortest word of each nonterminal.
    ShortestSentences,
    /// `--random-sentence SEED` with `--length LENGTH`: the random sentence of a seed, of at most `length` tokens.
    RandomSentence { seed: u64, length: u32 },
    /// `--explain`: for each conflict with a warning, the first sentence that runs into it, and its actions.
    Explain,
}

/// A mode: a job without its files and its numbers. The table of options has modes in place of jobs, because a constant
/// cannot own memory.
#[derive(Clone, Copy)]
pub enum JobKind {
    Interpret,
    InterpretError,
    Session,
    ShowAutomaton,
    WriteTables,
    ListErrors,
    CompileErrors,
    CompareErrors,
    EchoErrors,
    UpdateErrors,
    RebaseErrors,
    CheckErrors,
    Check,
    Sample,
    ShortestSentences,
    RandomSentence,
    Explain,
}

/// The job that compares two messages files.
fn compared(alloc: Global, matches: &ArgMatches<'_>) -> Result<Job, Memory>
    ensures { IfOk result (λ job. job ≡ job_for (rows_of (found_of matches.now)) mode.CompareErrors) }
{
    let (first, second) = both(
        file_of(alloc, matches, COMPARE_ERRORS),
        file_of(alloc, matches, COMPARE_ERRORS_2),
    )?;
    Ok(Job::CompareErrors { first, second })
}

/// The job of a mode, with its files or its number from the words.
pub(crate) fn job_of(alloc: Global, matches: &ArgMatches<'_>, mode: JobKind) -> Result<Job, Memory>
    ensures { IfOk result (λ job. job ≡ job_for (rows_of (found_of matches.now)) mode) }
{
    match mode {
        JobKind::Interpret => Ok(Job::Interpret),
        JobKind::InterpretError => Ok(Job::InterpretError),
        JobKind::Session => Ok(Job::Session),
        JobKind::ShowAutomaton => Ok(Job::ShowAutomaton),
        JobKind::WriteTables => Ok(Job::WriteTables),
        JobKind::ListErrors => Ok(Job::ListErrors),
        JobKind::CompileErrors => Ok(Job::CompileErrors {
            file: file_of(alloc, matches, COMPILE_ERRORS)?,
        }),
        JobKind::CompareErrors => compared(alloc, matches),
        JobKind::EchoErrors => Ok(Job::EchoErrors {
            file: file_of(alloc, matches, ECHO_ERRORS)?,
        }),
        JobKind::UpdateErrors => Ok(Job::UpdateErrors {
            file: file_of(alloc, matches, UPDATE_ERRORS)?,
        }),
        JobKind::RebaseErrors => Ok(Job::RebaseErrors {
            file: file_of(alloc, matches, REBASE_ERRORS)?,
        }),
        JobKind::CheckErrors => Ok(Job::CheckErrors {
            file: file_of(alloc, matches, CHECK_ERRORS)?,
        }),
        JobKind::Check => Ok(Job::Check),
        JobKind::Sample => Ok(Job::Sample {
            number: sample_number(matches),
        }),
        JobKind::ShortestSentences => Ok(Job::ShortestSentences),
        JobKind::RandomSentence => Ok(Job::RandomSentence {
            seed: seed_number(matches),
            length: length_number(matches),
        }),
        JobKind::Explain => Ok(Job::Explain),
    }
}

/// An option. The type of its name is a parameter: it is `&str` in the table `OPTIONS` and `Text` in the definitions,
/// which map each row of the table to a row with the text of the name.
pub struct Opt<T> {
    /// The name, without the two hyphens.
    pub name: T,
    /// `SetTrue` for an option without a value, `Set` for an option with one.
    pub action: ArgAction,
    /// The mode that the option selects, if it selects one.
    pub mode: Option<JobKind>,
}

/// An option that has no meaning without another: `option` needs `needs`.
pub struct Need<T> {
    pub option: T,
    pub needs: T,
}

const OPTIONS: [Opt<&str>; 27] = [
    Opt {
        name: INTERPRET,
        action: ArgAction::SetTrue,
        mode: Some(JobKind::Interpret),
    },
    Opt {
        name: "interpret-error",
        action: ArgAction::SetTrue,
        mode: Some(JobKind::InterpretError),
    },
    Opt {
        name: "session",
        action: ArgAction::SetTrue,
        mode: Some(JobKind::Session),
    },
    Opt {
        name: "show-automaton",
        action: ArgAction::SetTrue,
        mode: Some(JobKind::ShowAutomaton),
    },
    Opt {
        name: "write-tables",
        action: ArgAction::SetTrue,
        mode: Some(JobKind::WriteTables),
    },
    Opt {
        name: "list-errors",
        action: ArgAction::SetTrue,
        mode: Some(JobKind::ListErrors),
    },
    Opt {
        name: COMPILE_ERRORS,
        action: ArgAction::Set,
        mode: Some(JobKind::CompileErrors),
    },
    Opt {
        name: COMPARE_ERRORS,
        action: ArgAction::Set,
        mode: Some(JobKind::CompareErrors),
    },
    Opt {
        name: COMPARE_ERRORS_2,
        action: ArgAction::Set,
        mode: None,
    },
    Opt {
        name: ECHO_ERRORS,
        action: ArgAction::Set,
        mode: Some(JobKind::EchoErrors),
    },
    Opt {
        name: UPDATE_ERRORS,
        action: ArgAction::Set,
        mode: Some(JobKind::UpdateErrors),
    },
    Opt {
        name: REBASE_ERRORS,
        action: ArgAction::Set,
        mode: Some(JobKind::RebaseErrors),
    },
    Opt {
        name: CHECK_ERRORS,
        action: ArgAction::Set,
        mode: Some(JobKind::CheckErrors),
    },
    Opt {
        name: "check",
        action: ArgAction::SetTrue,
        mode: Some(JobKind::Check),
    },
    Opt {
        name: SAMPLE,
        action: ArgAction::Set,
        mode: Some(JobKind::Sample),
    },
    Opt {
        name: "shortest-sentences",
        action: ArgAction::SetTrue,
        mode: Some(JobKind::ShortestSentences),
    },
    Opt {
        name: RANDOM_SENTENCE,
        action: ArgAction::Set,
        mode: Some(JobKind::RandomSentence),
    },
    Opt {
        name: LENGTH,
        action: ArgAction::Set,
        mode: None,
    },
    Opt {
        name: "explain",
        action: ArgAction::SetTrue,
        mode: Some(JobKind::Explain),
    },
    Opt {
        name: MESSAGES,
        action: ArgAction::Set,
        mode: None,
    },
    Opt {
        name: TABLES,
        action: ArgAction::Set,
        mode: None,
    },
    Opt {
        name: INTERPRET_SHOW_CST,
        action: ArgAction::SetTrue,
        mode: None,
    },
    Opt {
        name: SHOW_EXPECTED,
        action: ArgAction::SetTrue,
        mode: None,
    },
    Opt {
        name: COMMENT_EXPECTED,
        action: ArgAction::SetTrue,
        mode: None,
    },
    Opt {
        name: CANONICAL,
        action: ArgAction::SetTrue,
        mode: None,
    },
    Opt {
        name: STRICT,
        action: ArgAction::SetTrue,
        mode: None,
    },
    Opt {
        name: NO_STDLIB,
        action: ArgAction::SetTrue,
        mode: None,
    },
];

/// The needs, in the order in which they are tested: the first option without the one that it needs is reported.
const NEEDS: [Need<&str>; 3] = [
    Need {
        option: INTERPRET_SHOW_CST,
        needs: INTERPRET,
    },
    Need {
        option: MESSAGES,
        needs: INTERPRET,
    },
    Need {
        option: COMPARE_ERRORS,
        needs: COMPARE_ERRORS_2,
    },
];

/// The options that need another option, checked after the options that clash with another word.
const LATE_NEEDS: [Need<&str>; 2] = [
    Need {
        option: RANDOM_SENTENCE,
        needs: LENGTH,
    },
    Need {
        option: LENGTH,
        needs: RANDOM_SENTENCE,
    },
];

/// The table of options.
pub(crate) fn options<'a>() -> &'a [Opt<&'a str>]
    ensures { plain_rows result.now (λ name. name.now) ≡ table.options }
{
    OPTIONS.as_slice()
}

/// The table of needs.
pub(crate) fn needs<'a>() -> &'a [Need<&'a str>]
    ensures { plain_needs result.now (λ name. name.now) ≡ table.needs }
{
    NEEDS.as_slice()
}

/// The table of the late needs.
pub(crate) fn late_needs<'a>() -> &'a [Need<&'a str>]
    ensures { plain_needs result.now (λ name. name.now) ≡ table.late_needs }
{
    LATE_NEEDS.as_slice()
}
