//! Messages files and how they are read and printed, worked out by hand.
ghost use Rattle.std.specs.Prelude.{◌<◌, ◌^◌, length};
ghost use Rattle.mh_grammar.specs.Plain.{plain_of, IsInRange};

use crate::cases::{Subject, check_cases, digit};
use crate::filling::put;
use crate::lines::{Reading, put_both};
use mh_grammar::{Grammar, Memory};
use mh_msgfile::{MsgFault, echo, print_messages, read_messages};
use std::alloc::Global;
use std::test::Fail;

/// Appends a fault with the digit of its line.
fn put_fault(text: &mut Vec<u8>, fault: &MsgFault) {
    let (words, line) = match fault {
        MsgFault::Shape { line } => ("shape ", *line),
        MsgFault::UnknownStart { line, .. } => ("no start ", *line),
        MsgFault::MissingStart { line } => ("missing start ", *line),
        MsgFault::UnknownToken { line, .. } => ("no token ", *line),
        MsgFault::Memory => ("no memory ", 0),
    };
    put_both(text, words, &[digit(u64::from(line))]);
}

/// Appends a text and drops it.
pub fn put_made(text: &mut Vec<u8>, made: Result<Vec<u8>, Memory>) {
    match made {
        Ok(made) => {
            put(text, &made);
            drop(made);
        }
        Err(_) => put(text, b"no memory"),
    }
}

/// Appends the printed text of the messages file that the bytes spell, or the fault with its line.
pub fn put_printed(alloc: Global, text: &mut Vec<u8>, grammar: &Grammar, bytes: &[u8])
    requires range { IsInRange (plain_of grammar.now) }
    requires size { length bytes.now < 2 ^ 31 }
{
    match read_messages(alloc, bytes, grammar) {
        Ok(file) => {
            put_made(text, print_messages(alloc, grammar, &file));
            drop(file);
        }
        Err(fault) => {
            put_fault(text, &fault);
            drop(fault);
        }
    }
}

/// Appends the sentences of the messages file, or the fault with its line.
pub fn put_echoed(alloc: Global, text: &mut Vec<u8>, grammar: &Grammar, bytes: &[u8])
    requires range { IsInRange (plain_of grammar.now) }
    requires size { length bytes.now < 2 ^ 31 }
{
    match read_messages(alloc, bytes, grammar) {
        Ok(file) => {
            put_made(text, echo(alloc, grammar, &file));
            drop(file);
        }
        Err(fault) => {
            put_fault(text, &fault);
            drop(fault);
        }
    }
}

/// Messages files, with `~` before the printed text and `^` between cases.
const FILES: &str = "~^\
     \n \n\t\r\n~^\
     # by hand\ns: EOF\n## Ends in an error in state: 0.\nExpected A.\n# inside\nNothing else begins a sentence.\n\nA A\n\nExpected EOF.~shape 4^\
     # by hand\ns: EOF\n## old\n\nExpected A.\n# inside\nNothing else.\n\nA A\n\nExpected EOF.~s: EOF\n\nExpected A.\nNothing else.\n\ns: A A\n\nExpected EOF.\n\n^\
     EOF\nA A\n\nM\n~s: EOF\ns: A A\n\nM\n\n^\
     EOF\r\n\r\nM\r\n N \r\n\r\n~s: EOF\n\nM\n N \n\n^\
     s:A\n \t\r\nM~s: A\n\nM\n\n^\
     EOF\n~shape 1^\
     \nEOF\nA\n~shape 2^\
     EOF\n\nM\n\nEOF\n#\nA~shape 5^\
     EOF\n\nM\n\n1\n~shape 5^\
     A Y\n~no token 1^\
     EOF\nr: A\n\nM\n~no start 2^\
     A Y\n\nM\n\nA 1\n~no token 1";

/// The sentences of a messages file, one a line.
const SENTENCES: &str = "EOF\n  A A\r\n\nM\n\ns : EOF A\n\nN\n~s: EOF\ns: A A\ns: EOF A\n";

/// A grammar with two start symbols: a sentence must name one.
const OF_TWO_STARTS: &str = "EOF A\n~missing start 1";

#[test]
fn files(rt: HostRuntime) -> Result<(), Fail> {
    let printed = Subject::OfGrammar(Reading::Printed, &[1]);
    check_cases(rt.alloc(), &printed, FILES, 14)?;
    let echoed = Subject::OfGrammar(Reading::Echoed, &[1]);
    check_cases(rt.alloc(), &echoed, SENTENCES, 1)?;
    let of_two = Subject::OfGrammar(Reading::Printed, &[1, 0]);
    check_cases(rt.alloc(), &of_two, OF_TWO_STARTS, 1)
}
