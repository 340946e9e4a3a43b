//! The type of the texts of findings.
ghost use Rattle.std.specs.Prelude.{◌≡◌, ◌++◌, OnOk};

use mh_grammar::{Memory, Sequence};
use std::marker::Model;

/// What the text is made of.
#[derive(Drop)]
enum Parts<'a> {
    /// Words, and a name after them. Both are lent: a file can have a warning on each line, and most warnings are a few
    /// words and a name of the file.
    Lent { words: &'a [u8], name: &'a [u8] },
    /// Bytes of its own.
    Own { bytes: Sequence<u8> },
}

/// The text of a finding: a byte string, which is lent or its own.
#[derive(Drop)]
pub struct FindingText<'a> {
    parts: Parts<'a>,
}

impl<'a> Model for FindingText<'a> {
    ghost use Rattle.std.specs.Prelude.{List, ℕ};
    ghost use Rattle.mh_lint_findings.specs.code.Parts.{parts_text};

    ghost Value = { List ℕ };

    ghost view = { λ t. parts_text t.parts };
}

impl<'a> FindingText<'a> {
    /// The text of these words with a name after them.
    pub fn with_name(words: &'a [u8], name: &'a [u8]) -> FindingText<'a>
        ensures { result ≡ words.now ++ name.now }
    {
        FindingText {
            parts: Parts::Lent { words, name },
        }
    }

    /// The text with the bytes of this vector.
    pub fn from_vec(bytes: Vec<u8>) -> FindingText<'a>
        ensures { result ≡ bytes.items }
    {
        FindingText {
            parts: Parts::Own {
                bytes: Sequence::from_vec(bytes),
            },
        }
    }

    /// Appends the text. Fails only if memory runs out.
    pub fn append_to(&self, text: &mut Vec<u8>) -> Result<(), Memory>
        ensures { OnOk result (text.new.items ≡ text.old.items ++ self.now) }
    {
        match &self.parts {
            Parts::Lent { words, name } => {
                text.extend_from_slice(words)?;
                text.extend_from_slice(name)?;
            }
            Parts::Own { bytes } => text.extend_from_slice(bytes.as_slice())?,
        }
        Ok(())
    }
}
