//! The state of the mode of `--interpret`.
ghost use Rattle.std.specs.Prelude.{◌≡◌};
ghost use Rattle.mh_grammar.specs.Plain.{plain_of};
ghost use Rattle.mh_msgfile.specs.Sentences.{vocabulary_in, vocabulary_of};

use mh_check::Compiled;
use mh_grammar::Grammar;
use mh_msgfile::Lexicon;
use mh_tables_core::Halting;

/// The mode of `--interpret`: all that the answer to a line depends on.
pub(crate) struct Judging<'a> {
    /// True if an accepted sentence is shown with its tree.
    pub(crate) trees: bool,
    /// True if the tokens expected in place of a refused token are listed.
    pub(crate) expected: bool,
    pub(crate) grammar: &'a Grammar,
    pub(crate) lexicon: Lexicon,
    pub(crate) halting: &'a Halting,
    /// The messages for refused sentences, if the order has a messages file.
    pub(crate) messages: Option<Compiled>,
    ghost numbers: { vocabulary_in lexicon ≡ vocabulary_of grammar.now },
    ghost same: { halting.now.grammar ≡ plain_of grammar.now },
}

// The exit of a function drops this value by one call. With the derived destructor it would drop each field.
impl<'a> Drop for Judging<'a> {
    fn drop(self) {
        let Judging {
            trees: _,
            expected: _,
            grammar: _,
            lexicon,
            halting: _,
            messages,
        } = self;
        drop(lexicon);
        drop(messages);
    }
}
