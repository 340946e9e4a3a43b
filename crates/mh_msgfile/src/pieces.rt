//! The pieces of a line: the texts between blanks.
ghost use Rattle.std.specs.Prelude.{◌≡◌, ◌≤◌, length};
ghost use Rattle.std.specs.List.{position_or_len, prefix_len};
ghost use Rattle.mh_msgfile.specs.Lines.{is_blank as is_blank_byte};
ghost use Rattle.mh_msgfile.specs.Sentences.{FirstPiece};

use crate::lines::is_blank;

/// The number of blanks at the front.
fn count_blanks(bytes: &[u8]) -> usize
    ensures value { result ≡ prefix_len is_blank_byte bytes.now }
    ensures within { result ≤ length bytes.now }
{
    bytes.iter().take_while(|&&byte| is_blank(byte)).count()
}

/// The number of bytes before the first blank.
fn size_of_piece(bytes: &[u8]) -> usize
    ensures value { result ≡ position_or_len is_blank_byte bytes.now }
    ensures within { result ≤ length bytes.now }
{
    bytes.iter().take_while(|&&byte| !is_blank(byte)).count()
}

/// Returns the first piece between blanks (spaces, tabs and CR), with the bytes after it; nothing if there are only
/// blanks.
pub fn first_piece(bytes: &[u8]) -> Option<(&[u8], &[u8])>
    ensures { FirstPiece is_blank_byte bytes.now result }
{
    let (_, text) = bytes.split_at(count_blanks(bytes));
    match size_of_piece(text) {
        0 => None,
        size => Some(text.split_at(size)),
    }
}
