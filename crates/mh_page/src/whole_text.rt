//! The whole text that an output was given, though the output may keep only its first bytes. The text exists only for
//! proofs: it takes no memory, and its calls do nothing at run time.
ghost use Rattle.std.specs.Prelude.{◌≡◌, ℕ, List, [], ◌++◌};
ghost use Rattle.std.specs.Borrow.{ftrue};

use std::marker::Model;

/// A text that only contracts know.
#[derive(Drop)]
pub struct WholeText {
    pub ghost bytes: { List ℕ },
}

impl Model for WholeText {
    ghost also_owns = { λ _. ftrue };
}

/// A piece of a text.
#[derive(Clone, Copy)]
pub struct Piece<'a> {
    pub bytes: &'a [u8],
}

impl WholeText {
    /// The empty text.
    pub fn new() -> WholeText
        ensures { result.bytes ≡ [] }
    {
        WholeText {}
    }

    /// This text with a piece at its end.
    pub fn followed_by(&self, _piece: &Piece<'_>) -> WholeText
        ensures { result.bytes ≡ self.now.bytes ++ _piece.now.bytes.now }
    {
        WholeText {}
    }
}
