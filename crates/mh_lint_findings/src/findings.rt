//! The types of findings.
ghost use Rattle.std.specs.Prelude.{◌≡◌};

use crate::finding_text::FindingText;
use mh_grammar::{Name, Sequence};

/// A grammar file: its name, as the command line gives it, and its bytes.
#[derive(Drop)]
pub struct GrammarFile {
    pub name: Name,
    pub bytes: Sequence<u8>,
}

/// Where a finding is: at a position of a file, in a whole file, or in the automaton. Files and positions are counted
/// from 0.
#[derive(Clone, Copy)]
pub enum Position {
    InFile { file: usize, start: usize },
    OfFile { file: usize },
    OfAutomaton,
}

/// A fault or a warning, with the text that reports it.
#[derive(Drop)]
pub struct Finding<'a> {
    pub at: Position,
    pub text: FindingText<'a>,
}

/// The finding with these words.
pub fn finding_at<'a>(at: Position, words: &'a [u8]) -> Finding<'a>
    ensures position { result.at ≡ at }
    ensures text { result.text ≡ words.now }
{
    Finding {
        at,
        text: FindingText::with_name(words, b""),
    }
}
