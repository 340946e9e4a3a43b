//! Tests of real files, readers and writers as shelf, source and sink.
use crate::filling::put;
use mh_outside::{
    FileShelf, Shelf, ShelfFault, Sink, Source, StdSink, StdSource, WriteFault, read_line,
    write_whole,
};
use std::alloc::Global;
use std::fs;
use std::process::Abort;
use std::test::Fail;

/// The name of the file that the tests write.
const NAME: &str = "menhir-adapter-test.txt";

/// Fails if a text is not the wanted one, and drops the text.
fn check(rt: &impl Abort, text: Vec<u8>, wanted: &[u8]) {
    assert_eq!(rt; text.as_slice(), wanted);
}

fn fault_name(fault: ShelfFault) -> &'static [u8] {
    match fault {
        ShelfFault::TooBig => b"too big",
        ShelfFault::Failed => b"failed",
        ShelfFault::Absent => b"absent",
        ShelfFault::Memory => b"memory",
    }
}

/// Appends the bytes of a file or the fault, and a comma.
fn put_read(text: &mut Vec<u8>, read: Result<Vec<u8>, ShelfFault>) {
    match read {
        Ok(bytes) => {
            put(text, &bytes);
            drop(bytes);
        }
        Err(fault) => put(text, fault_name(fault)),
    }
    put(text, b",");
}

/// A file of five bytes is read with a limit of five bytes, but not with a limit of four, nor after it is removed.
#[test]
fn a_file_is_read(rt: HostRuntime) {
    let mut text = Vec::new(rt.alloc());
    let mut shelf = FileShelf::new(&rt);
    let is_written = fs::write(&rt, NAME, "HELLO").is_ok();
    put_read(&mut text, shelf.read_file(rt.alloc(), NAME.as_bytes(), 5));
    put_read(&mut text, shelf.read_file(rt.alloc(), NAME.as_bytes(), 4));
    let is_removed = fs::remove_file(&rt, NAME).is_ok();
    for absent in [NAME.as_bytes(), b"", b"\xff", b"."] {
        put_read(&mut text, shelf.read_file(rt.alloc(), absent, 5));
    }
    assert!(rt; is_written && is_removed);
    check(&rt, text, b"HELLO,too big,failed,failed,failed,failed,");
}

/// Appends `>` and the next line, or `.` at the end.
fn put_line<S: Source>(alloc: Global, text: &mut Vec<u8>, source: &mut S)
    requires { S.MayRead source.old }
{
    match read_line(alloc, source, 9) {
        Ok(Some(line)) => {
            put(text, b">");
            put(text, &line);
            drop(line);
        }
        Ok(None) => put(text, b"."),
        Err(_) => put(text, b"!"),
    }
}

#[test]
fn lines_are_read(rt: HostRuntime) -> Result<(), Fail> {
    let mut source = StdSource::new(rt.alloc(), b"ab\n\nc".as_slice())?;
    let mut text = Vec::new(rt.alloc());
    for _ in 0..4 {
        put_line(rt.alloc(), &mut text, &mut source);
    }
    drop(source);
    check(&rt, text, b">ab>>c.");
    Ok(())
}

/// Writes a piece, and appends `+` if it was written and `!` if the device fails.
fn put_write<S: Sink>(text: &mut Vec<u8>, sink: &mut S, piece: &[u8])
    requires { S.MayWrite sink.old }
{
    match write_whole(sink, piece) {
        Ok(()) => put(text, b"+"),
        Err(WriteFault::Failed) => put(text, b"!"),
    }
}

#[test]
fn pieces_are_written(rt: HostRuntime) {
    let mut told = Vec::new(rt.alloc());
    let mut text = Vec::new(rt.alloc());
    let mut sink = StdSink::new(&mut text);
    put_write(&mut told, &mut sink, b"ab");
    put_write(&mut told, &mut sink, b"c");
    put(&mut told, &text);
    drop(text);

    // This writer accepts two bytes and no more.
    let mut room = [0u8; 2];
    let mut sink = StdSink::new(room.as_mut_slice());
    put_write(&mut told, &mut sink, b"abc");
    put(&mut told, &room);
    check(&rt, told, b"++abc!ab");
}
