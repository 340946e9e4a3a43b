//! The program in memory: as one call over devices, and as one call over words, files and an input, as other languages
//! call it: lists of errors, verdicts, rooms that are too small, and calls that are refused.
use mh_outside::{MemShelf, MemSink, MemSource};
use mh_page::{PageFile, Request, run_in_memory};
use mh_top::menhir;
use std::alloc::Global;
use std::process::Abort;
use std::test::Fail;

/// A grammar whose only sentence is `A EOF`.
const GRAMMAR: &str = "%token A EOF\n%start s\n%%\ns: A EOF {}\n";

/// The list of its errors.
const ERRORS: &[u8] = b"s: EOF
##
## Ends in an error in state: 0.
##
## s' -> . s [ # ]
##
## The known suffix of the stack is as follows:
##
##

<YOUR SYNTAX ERROR MESSAGE HERE>

s: A A
##
## Ends in an error in state: 1.
##
## s -> A . EOF [ # ]
##
## The known suffix of the stack is as follows:
## A
##

<YOUR SYNTAX ERROR MESSAGE HERE>

";

/// A room for a text, and the number of bytes that were written.
#[derive(Drop)]
struct Room {
    bytes: Vec<u8>,
    len: u64,
}

impl Room {
    /// A room full of dots.
    fn new(alloc: Global, size: usize) -> Result<Room, Fail> {
        Ok(Room {
            bytes: vec![in alloc; b'.'; size]?,
            len: 0,
        })
    }

    /// Whether the room holds the first bytes of the text, and then dots, and the number is the length of the text.
    fn holds(&self, text: &[u8]) -> bool {
        let count = text.len().min(self.bytes.len());
        let (first, rest) = self.bytes.split_at(count);
        first == &text[..count]
            && rest.iter().all(|byte| *byte == b'.')
            && self.len == text.len() as u64
    }
}

/// The status, and the texts on out and err.
#[derive(Clone, Copy)]
struct Answer<'a> {
    status: u8,
    out: &'a [u8],
    err: &'a [u8],
}

/// Tests the answer to a request, with rooms of this size.
fn check(
    rt: &impl Abort,
    alloc: Global,
    request: &Request<'_>,
    size: usize,
    wanted: &Answer<'_>,
) -> Result<(), Fail> {
    let mut out = Room::new(alloc, size)?;
    let mut err = Room::new(alloc, size)?;
    let status = run_in_memory(
        alloc,
        request,
        &mut out.bytes,
        &mut out.len,
        &mut err.bytes,
        &mut err.len,
    );
    let is_wanted = [
        status == wanted.status,
        out.holds(wanted.out),
        err.holds(wanted.err),
    ] == [true, true, true];
    drop(out);
    drop(err);
    assert!(rt; is_wanted);
    Ok(())
}

/// The list of errors, in a room that holds the list, and in a room of ten bytes, which holds its first ten bytes.
#[test]
fn list_of_errors(rt: HostRuntime) -> Result<(), Fail> {
    let words = ["--list-errors".as_bytes(), "g.mly".as_bytes()];
    let files = [PageFile {
        name: "g.mly".as_bytes(),
        text: GRAMMAR.as_bytes(),
    }];
    let request = Request {
        words: &words,
        files: &files,
        input: b"",
    };
    let wanted = Answer {
        status: 0,
        out: ERRORS,
        err: b"",
    };
    check(&rt, rt.alloc(), &request, 1_000, &wanted)?;
    check(&rt, rt.alloc(), &request, 10, &wanted)
}

#[test]
fn verdicts(rt: HostRuntime) -> Result<(), Fail> {
    let words = ["--interpret".as_bytes(), "g.mly".as_bytes()];
    let files = [PageFile {
        name: "g.mly".as_bytes(),
        text: GRAMMAR.as_bytes(),
    }];
    let request = Request {
        words: &words,
        files: &files,
        input: b"A EOF\nA\nA A\n",
    };
    let wanted = Answer {
        status: 0,
        out: b"ACCEPT\nOVERSHOOT\nREJECT\n",
        err: b"",
    };
    check(&rt, rt.alloc(), &request, 100, &wanted)
}

/// A byte that begins no character of UTF-8.
#[test]
fn bad_word(rt: HostRuntime) -> Result<(), Fail> {
    let words = [b"\xff".as_slice()];
    let request = Request {
        words: &words,
        files: &[],
        input: b"",
    };
    let wanted = Answer {
        status: 2,
        out: b"",
        err: b"menhir: usage: bad words\n",
    };
    check(&rt, rt.alloc(), &request, 100, &wanted)
}

#[test]
fn two_files_of_one_name(rt: HostRuntime) -> Result<(), Fail> {
    let words = ["--list-errors".as_bytes(), "g.mly".as_bytes()];
    let file = PageFile {
        name: "g.mly".as_bytes(),
        text: GRAMMAR.as_bytes(),
    };
    let files = [file, file];
    let request = Request {
        words: &words,
        files: &files,
        input: b"",
    };
    let wanted = Answer {
        status: 2,
        out: b"",
        err: b"menhir: usage: two files of one name\n",
    };
    check(&rt, rt.alloc(), &request, 100, &wanted)
}

/// No file is given, so the grammar file cannot be read.
#[test]
fn no_file(rt: HostRuntime) -> Result<(), Fail> {
    let words = ["--list-errors".as_bytes(), "g.mly".as_bytes()];
    let request = Request {
        words: &words,
        files: &[],
        input: b"",
    };
    let wanted = Answer {
        status: 3,
        out: b"",
        err: b"menhir: cannot read g.mly\n",
    };
    check(&rt, rt.alloc(), &request, 100, &wanted)
}

/// No word and no file, and rooms that hold nothing.
#[test]
fn nothing(rt: HostRuntime) -> Result<(), Fail> {
    let request = Request {
        words: &[],
        files: &[],
        input: b"",
    };
    let wanted = Answer {
        status: 2,
        out: b"",
        err: b"menhir: usage: no mode\n",
    };
    check(&rt, rt.alloc(), &request, 0, &wanted)
}

/// The whole tool over devices in memory: status 2 and a line on `err`, because no word selects a mode.
#[test]
fn the_command(rt: HostRuntime) -> Result<(), Fail> {
    let alloc = rt.alloc();
    let mut shelf = MemShelf::new(Vec::new(alloc), Vec::new(alloc));
    let mut input = MemSource::new(Vec::new(alloc), Vec::new(alloc));
    let mut out = MemSink::new(alloc, Vec::new(alloc));
    let mut err = MemSink::new(alloc, Vec::new(alloc));
    let status = menhir(alloc, &[], &mut shelf, &mut input, &mut out, &mut err);
    assert!(rt; status == 2 && out.written().is_empty());
    assert!(rt; err.written() == "menhir: usage: no mode\n".as_bytes());
    drop(shelf);
    drop(input);
    drop(out);
    drop(err);
    Ok(())
}
