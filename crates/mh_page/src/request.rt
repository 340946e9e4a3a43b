//! What a caller gives: the words, the files and the input.
ghost use Rattle.std.specs.Prelude.{◌≡◌, IsTrue, IsFalse, IfOk, map, string_bytes};
ghost use Rattle.std.specs.List.{AllByRecursion};
ghost use Rattle.std.specs.Str.{IsUtf8};
ghost use Rattle.mh_outside.specs.Shelf.{HasDistinctNames};
ghost use Rattle.mh_page.specs.Given.{words_given, files_given};

use crate::file_list::file_named;
use std::alloc::{AllocError, Global};

/// A file with its name.
#[repr(C)]
#[derive(Clone, Copy)]
pub struct PageFile<'a> {
    pub name: &'a [u8],
    pub text: &'a [u8],
}

/// What a caller gives: the words of the command line without the name of the program, the files that the words may
/// name, and the input.
#[derive(Clone, Copy)]
pub struct Request<'a> {
    pub words: &'a [&'a [u8]],
    pub files: &'a [PageFile<'a>],
    pub input: &'a [u8],
}

/// Whether each word is UTF-8.
pub fn are_utf8(words: &[&[u8]]) -> bool
    ensures yes { IsTrue result → AllByRecursion IsUtf8 (words_given words.now) }
    ensures no { IsFalse result → AllByRecursion IsUtf8 (words_given words.now) → ⊥ }
{
    let mut rest = words;
    while let [word, after @ ..] = rest {
        if str::from_utf8(word).is_err() {
            return false;
        }
        rest = after;
    }
    true
}

/// Whether no two files have the same name.
pub fn have_distinct_names(files: &[PageFile]) -> bool
    ensures yes { IsTrue result → HasDistinctNames (files_given files.now) }
    ensures no { IsFalse result → HasDistinctNames (files_given files.now) → ⊥ }
{
    let mut rest = files;
    while let [file, after @ ..] = rest {
        if file_named(after, file.name).is_some() {
            return false;
        }
        rest = after;
    }
    true
}

/// The words as strings.
pub fn strings_of(alloc: Global, words: &[&[u8]]) -> Result<Vec<String>, AllocError>
    requires { AllByRecursion IsUtf8 (words_given words.now) }
    ensures { IfOk result (λ strings. map string_bytes strings.items ≡ words_given words.now) }
{
    let mut strings = Vec::new(alloc);
    let mut rest = words;
    while let [word, after @ ..] = rest {
        let Ok(word) = str::from_utf8(word) else {
            unreachable!();
        };
        strings.push(String::from_str(alloc, word)?)?;
        rest = after;
    }
    Ok(strings)
}
