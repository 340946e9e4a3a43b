//! Tests of the devices in memory: what is read from them and written to them when each call fails in turn.
ghost use Rattle.std.specs.Prelude.{◌≡◌, IfOk, Some, ⊤};
ghost use Rattle.mh_outside.specs.Fakes.{sink_written, sink_calls};

use crate::cases::{Subject, Wanted, check_answer, check_cases, digit};
use crate::filling::put;
use mh_outside::{
    Failed, LineFault, MemShelf, MemSink, MemSource, Shelf, ShelfFault, Sink, Source, WriteFault,
    read_line, write_whole,
};
use std::alloc::{AllocError, Global};
use std::test::Fail;

/// A list of numbers. It is empty if memory runs out, and then the case fails.
fn calls(alloc: Global, numbers: &[u64]) -> Vec<u64> {
    let mut calls = Vec::new(alloc);
    let _ = calls.extend_from_slice(numbers);
    calls
}

fn source(alloc: Global, bytes: &[u8], fails: &[u64]) -> MemSource {
    let mut input = Vec::new(alloc);
    put(&mut input, bytes);
    MemSource::new(input, calls(alloc, fails))
}

/// Appends `>` and the next line of the input, or `!` if a read failed, or `+` if the line was too long. Returns false
/// at the end of the input.
fn push_line(alloc: Global, text: &mut Vec<u8>, input: &mut MemSource, limit: usize) -> bool {
    match read_line(alloc, input, limit) {
        Ok(None) => return false,
        Ok(Some(line)) => {
            put(text, b">");
            put(text, &line);
        }
        Err(LineFault::TooBig) => put(text, b"+"),
        Err(LineFault::Failed) => put(text, b"!"),
        Err(LineFault::Memory) => put(text, b"no memory"),
    }
    true
}

/// Appends all lines of an input.
fn put_read_lines(alloc: Global, text: &mut Vec<u8>, input: &mut MemSource, limit: usize) {
    for _ in 0..9 {
        if !push_line(alloc, text, input, limit) {
            break;
        }
    }
}

/// Appends the lines of an input. The given text is the limit of a line, the number of the read that fails, and the
/// bytes.
pub fn put_lines(alloc: Global, text: &mut Vec<u8>, given: &str) {
    let (limit, given) = given.split_once(' ').unwrap_or(("", given));
    let (fail, bytes) = given.split_once(' ').unwrap_or(("", given));
    let mut input = source(alloc, bytes.as_bytes(), &[fail.parse().unwrap_or(99)]);
    put_read_lines(alloc, text, &mut input, limit.parse().unwrap_or(99));
    drop(input);
}

/// The limit of a line in bytes, the number of the read that fails (0 for none) and the bytes; `~` is before the result
/// and `^` between cases. If a read fails, the bytes of the line that were already read are lost, and the next call
/// continues after them.
const LINES: &str = "9 0 ~^\
     9 0 \n~>^\
     9 0 ab~>ab^\
     9 0 ab\n~>ab^\
     9 0 ab\n\ncd~>ab>>cd^\
     2 0 ab\ncd\n~>ab>cd^\
     2 0 abc\nd~+>>d^\
     0 0 a~+^\
     9 1 ab\nc~!>ab>c^\
     9 2 ab\nc~!>b>c^\
     9 3 ab\nc~!>>c^\
     9 4 ab\nc~>ab!>c^\
     9 5 ab\nc~>ab!^\
     9 6 ab\nc~>ab>c!^\
     9 7 ab\nc~>ab>c";

/// Writes a piece, and appends `+` if the whole piece was written and `!` if a write failed.
fn put_write<S: Sink>(text: &mut Vec<u8>, sink: &mut S, piece: &[u8])
    requires { S.MayWrite sink.old }
{
    put(
        text,
        match write_whole(sink, piece) {
            Ok(()) => b"+",
            Err(WriteFault::Failed) => b"!",
        },
    );
}

/// Appends the results of writing several pieces when the second write fails, and then the bytes that were written.
pub fn put_pieces(alloc: Global, text: &mut Vec<u8>) {
    let mut sink = MemSink::new(alloc, calls(alloc, &[2]));
    for piece in [b"ab".as_slice(), b"cd", b"", b"ef"] {
        put_write(text, &mut sink, piece);
    }
    put(text, sink.written());
    drop(sink);
}

/// A sink that accepts one byte with each call.
#[derive(Drop)]
struct OneByteSink {
    sink: MemSink,
}

impl Sink for OneByteSink {
    ghost written = { λ s. Some (sink_written s.sink) };

    ghost faults = { λ s. (sink_calls s.sink).faults };

    ghost MayWrite = { λ _. ⊤ };

    fn write(&mut self, piece: &[u8]) -> Result<usize, Failed> {
        self.sink.write(&piece[..1])
    }
}

/// Appends the bytes of `abcd` that were written when one write fails, after `!` if some are missing.
pub fn put_trickled(alloc: Global, text: &mut Vec<u8>, fail: &str) {
    let fails = calls(alloc, &[fail.parse().unwrap_or(99)]);
    let mut trickle = OneByteSink {
        sink: MemSink::new(alloc, fails),
    };
    if write_whole(&mut trickle, b"abcd").is_err() {
        put(text, b"!");
    }
    put(text, trickle.sink.written());
    drop(trickle);
}

/// Each of four short writes fails in turn. The bytes before the failing one are written.
const WRITES: &str = "1~!^2~!a^3~!ab^4~!abc^5~abcd";

fn file(alloc: Global, name: &[u8], bytes: &[u8]) -> Result<(Vec<u8>, Vec<u8>), AllocError>
    ensures { IfOk result (λ file. (file.0.items ≡ name.now) × (file.1.items ≡ bytes.now)) }
{
    let name = name.to_vec(alloc)?;
    Ok((name, bytes.to_vec(alloc)?))
}

/// A shelf of two files, whose third read fails.
fn shelf(alloc: Global) -> Result<MemShelf, Fail> {
    let mut files = Vec::new(alloc);
    files.push(file(alloc, b"g", b"HELLO")?)?;
    files.push(file(alloc, b"h", b"")?)?;
    Ok(MemShelf::new(files, calls(alloc, &[3])))
}

fn fault_name(fault: ShelfFault) -> &'static [u8] {
    match fault {
        ShelfFault::TooBig => b"too big",
        ShelfFault::Failed => b"failed",
        ShelfFault::Absent => b"absent",
        ShelfFault::Memory => b"memory",
    }
}

/// Appends the bytes of a file, or the fault.
fn put_file(alloc: Global, text: &mut Vec<u8>, shelf: &mut MemShelf, name: &[u8], limit: usize) {
    match shelf.read_file(alloc, name, limit) {
        Ok(bytes) => {
            put(text, &bytes);
            drop(bytes);
        }
        Err(fault) => put(text, fault_name(fault)),
    }
}

/// The name of a file and the size limit in bytes, with `~` before the result and `^` between the calls.
const READS: &str = "g 5~HELLO^g 4~too big^g 5~failed^i 5~absent^h 0~";

/// Appends the result of one read.
fn put_read(alloc: Global, text: &mut Vec<u8>, shelf: &mut MemShelf, given: &str) {
    let (name, limit) = given.split_once(' ').unwrap_or(("", ""));
    let limit = limit.parse().unwrap_or(0);
    put_file(alloc, text, shelf, name.as_bytes(), limit);
}

/// Appends the given text of a call again, with the result of the call after `~`.
fn put_call(alloc: Global, text: &mut Vec<u8>, shelf: &mut MemShelf, case: &str) {
    let (given, _) = case.split_once('~').unwrap_or(("", ""));
    put(text, if text.is_empty() { b"" } else { b"^" });
    put(text, given.as_bytes());
    put(text, b"~");
    put_read(alloc, text, shelf, given);
}

/// Appends all calls to one shelf again, each with its result.
pub fn put_shelf(alloc: Global, text: &mut Vec<u8>, cases: &str) -> Result<(), Fail> {
    let mut shelf = shelf(alloc)?;
    for case in cases.split('^') {
        put_call(alloc, text, &mut shelf, case);
    }
    drop(shelf);
    Ok(())
}

/// Reads, and appends the number of bytes, or `!` if the read fails.
fn put_count(text: &mut Vec<u8>, input: &mut MemSource, buf: &mut [u8; 2]) {
    match input.read(buf) {
        Ok(count) => put(text, &[digit(count as u64)]),
        Err(Failed) => put(text, b"!"),
    }
}

/// Appends the results of four reads, and the final content of the buffer. A read returns as many bytes as fit into the
/// buffer, and 0 only at the end.
pub fn put_counts(alloc: Global, text: &mut Vec<u8>) {
    let mut input = source(alloc, b"abc", &[2]);
    let mut buf = [0u8; 2];
    for _ in 0..4 {
        put_count(text, &mut input, &mut buf);
    }
    put(text, &buf);
    drop(input);
}

#[test]
fn devices(rt: HostRuntime) -> Result<(), Fail> {
    check_cases(rt.alloc(), &Subject::Lines, LINES, 15)?;
    check_cases(rt.alloc(), &Subject::Pieces, "~+!++abef", 1)?;
    check_cases(rt.alloc(), &Subject::Trickled, WRITES, 5)?;
    check_answer(rt.alloc(), &Subject::Shelf, READS, &Wanted::Whole(READS))?;
    check_cases(rt.alloc(), &Subject::Counts, "~2!10cb", 1)
}
