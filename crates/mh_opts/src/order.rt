//! The order that the words of the command line spell, and the usage faults.
ghost use Rattle.std.specs.Prelude.{◌≡◌};
ghost use Rattle.mh_opts.specs.declared.order.UsageFault.TheVariants as faults;

use crate::jobs::Job;
use mh_grammar::{Memory, Name, Sequence};
use std::alloc::AllocError;
use thiserror::Error;

/// An order: a job and its options.
pub struct Order {
    pub job: Job,
    /// The names of the grammar files, in the order of their words.
    pub grammars: Sequence<Name>,
    /// `--canonical`: true for the canonical automaton, false for the merged one.
    pub canonical: bool,
    /// `--strict`: true if a conflict is an error.
    pub strict: bool,
    /// True if the prelude may be used. `--no-stdlib` makes it false.
    pub stdlib: bool,
    /// `--interpret-show-cst`: true if the trees of accepted sentences are printed.
    pub show_cst: bool,
    /// `--show-expected`: true if the tokens expected in place of a refused token are listed.
    pub show_expected: bool,
    /// `--comment-expected`: true if the comment lines of a failing sentence end with the tokens that are expected in
    /// place of its last.
    pub comment_expected: bool,
    /// `--messages FILE`: the messages file for refused sentences, if given.
    pub messages: Option<Name>,
    /// `--tables FILE`: the table file to use in place of a built table, if given.
    pub tables: Option<Name>,
}

// The exit of a function drops this value by one call. With the derived destructor it would drop each field.
impl Drop for Order {
    fn drop(self) {
        let Order {
            job,
            grammars,
            canonical: _,
            strict: _,
            stdlib: _,
            show_cst: _,
            show_expected: _,
            comment_expected: _,
            messages,
            tables,
        } = self;
        drop(job);
        drop(grammars);
        drop(messages);
        drop(tables);
    }
}

/// Why the words are not an order. The faults are tested in the order of the variants, and the first is reported.
#[derive(Debug, Drop, Error)]
pub enum UsageFault {
    /// Clap does not accept the words.
    #[error("bad words")]
    Parse,
    /// The value of `--sample`, `--random-sentence` or `--length` is not a number that the option allows.
    #[error("bad number")]
    Number,
    /// No option selects a mode.
    #[error("no mode")]
    NoMode,
    /// Two or more options select a mode.
    #[error("two modes")]
    TwoModes,
    /// The option, with its two hyphens, has no meaning in this mode.
    #[error("misplaced option")]
    Misplaced { option: Name },
    /// No grammar file is given, and the mode needs one.
    #[error("no grammar")]
    NoGrammar,
    /// Memory ran out.
    #[error("out of memory")]
    Memory,
}

impl From<AllocError> for UsageFault {
    ghost from_gives = { λ _ fault. fault ≡ faults.Memory };

    fn from(_error: AllocError) -> UsageFault {
        UsageFault::Memory
    }
}

impl From<Memory> for UsageFault {
    ghost from_gives = { λ _ fault. fault ≡ faults.Memory };

    fn from(_error: Memory) -> UsageFault {
        UsageFault::Memory
    }
}
