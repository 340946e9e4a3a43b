//! The devices of a run: files in memory, and devices whose contents contracts do not know, which are an input that
//! counts its reads, and outputs that accept whole pieces or single bytes. All runs use these devices, so the tool is
//! compiled once for the cases.
ghost use Rattle.std.specs.Prelude.{◌≡◌, ◌<◌, None, length, IfOk, IsFalse, IsTrue, ⊤};
ghost use Rattle.std.specs.Io.{WritesAtMost};
ghost use Rattle.std.specs.Io.KnownBytes.{WriteAppends};
ghost use Rattle.mh_outside.specs.Faults.{CountsFault};
ghost use Rattle.mh_outside.specs.Fakes.{sink_calls, source_calls};
ghost use Rattle.mh_outside.specs.Shelf.{file_at, files_of, HasDistinctNames};

use mh_outside::{Failed, MemShelf, MemSink, MemSource, Sink, Source};
use mh_top::menhir;
use mh_worked_files::filled;
use std::alloc::Global;
use std::test::Fail;

/// An input that counts its reads.
#[derive(Drop)]
pub struct CountedInput {
    input: MemSource,
    pub reads: u64,
}

impl CountedInput {
    pub fn new(bytes: Vec<u8>, fails: Vec<u64>) -> CountedInput {
        CountedInput {
            input: MemSource::new(bytes, fails),
            reads: 0,
        }
    }
}

impl Source for CountedInput {
    ghost left = { λ s. None };

    ghost faults = { λ s. (source_calls s.input).faults };

    ghost MayRead = { λ _. ⊤ };

    fn read(&mut self, buf: &mut [u8]) -> Result<usize, Failed> {
        self.reads = self.reads.saturating_add(1);
        self.input.read(buf)
    }
}

/// How much of a piece an output accepts with each call.
#[derive(Clone, Copy)]
pub enum AcceptedSize {
    Pieces,
    Bytes,
}

/// An output that accepts whole pieces, or one byte with each call.
#[derive(Drop)]
pub struct Output {
    sink: MemSink,
    takes: AcceptedSize,
}

impl Output {
    pub fn new(alloc: Global, takes: AcceptedSize, fails: Vec<u64>) -> Output {
        Output {
            sink: MemSink::new(alloc, fails),
            takes,
        }
    }

    pub fn written(&self) -> &[u8] {
        self.sink.written()
    }
}

impl Sink for Output {
    ghost written = { λ s. None };

    ghost faults = { λ s. (sink_calls s.sink).faults };

    ghost MayWrite = { λ _. ⊤ };

    fn write(&mut self, piece: &[u8]) -> Result<usize, Failed> {
        match self.takes {
            AcceptedSize::Pieces => self.sink.write(piece),
            AcceptedSize::Bytes => self.sink.write(&piece[..1]),
        }
    }
}

/// The calls of the devices that fail, by their numbers from 1.
#[derive(Drop)]
pub struct FailingCalls {
    shelf: Vec<u64>,
    input: Vec<u64>,
    out: Vec<u64>,
    err: Vec<u64>,
}

impl FailingCalls {
    pub fn none(alloc: Global) -> FailingCalls {
        FailingCalls {
            shelf: Vec::new(alloc),
            input: Vec::new(alloc),
            out: Vec::new(alloc),
            err: Vec::new(alloc),
        }
    }

    /// One failing call of one device.
    pub fn one(alloc: Global, device: &str, call: u64) -> Result<FailingCalls, Fail> {
        let mut fails = FailingCalls::none(alloc);
        let pushed = fails.push(device, call);
        filled(fails, pushed)
    }

    /// The failing calls of several lines, each with a device and the number of a call.
    pub fn of_lines(alloc: Global, lines: &str) -> Result<FailingCalls, Fail> {
        let mut fails = FailingCalls::none(alloc);
        let added = fails.add_all(lines);
        filled(fails, added)
    }

    /// Adds one failing call from a line with a device and the number of a call.
    fn add(&mut self, line: &str) -> Result<(), Fail> {
        let (device, call) = line.split_once(' ').ok_or("a device without a call")?;
        self.push(device, call.parse()?)
    }

    /// Adds the failing calls of several lines.
    fn add_all(&mut self, lines: &str) -> Result<(), Fail> {
        for line in lines.lines() {
            self.add(line)?;
        }
        Ok(())
    }

    /// Adds a failing call of a device.
    fn push(&mut self, device: &str, call: u64) -> Result<(), Fail> {
        match device {
            "shelf" => self.shelf.push(call)?,
            "input" => self.input.push(call)?,
            "out" => self.out.push(call)?,
            "err" => self.err.push(call)?,
            _ => return Err(Fail::from("an unknown device")),
        }
        Ok(())
    }
}

/// Returns true if a file has this name.
fn is_there(files: &[(Vec<u8>, Vec<u8>)], name: &[u8]) -> bool
    ensures { IsFalse result → file_at (files_of files.now) name.now ≡ None }
{
    match files {
        [] => false,
        [file, rest @ ..] => name == file.0.as_slice() || is_there(rest, name),
    }
}

/// Returns true if the names of the files are pairwise different.
fn are_distinct(files: &[(Vec<u8>, Vec<u8>)]) -> bool
    ensures { IsTrue result → HasDistinctNames (files_of files.now) }
{
    match files {
        [] => true,
        [file, rest @ ..] => !is_there(rest, file.0.as_slice()) && are_distinct(rest),
    }
}

/// The devices of a run.
#[derive(Drop)]
pub struct Devices {
    shelf: MemShelf,
    pub input: CountedInput,
    pub out: Output,
    pub err: Output,
}

impl Devices {
    /// Devices with these files and this input, of which these calls fail. Both outputs accept the same size.
    pub fn new(
        alloc: Global,
        files: Vec<(Vec<u8>, Vec<u8>)>,
        input: Vec<u8>,
        fails: FailingCalls,
        takes: AcceptedSize,
    ) -> Result<Devices, Fail> {
        if !are_distinct(&files) {
            drop(files);
            drop(input);
            drop(fails);
            return Err(Fail::from("two files have one name"));
        }
        Ok(Devices {
            shelf: MemShelf::new(files, fails.shelf),
            input: CountedInput::new(input, fails.input),
            out: Output::new(alloc, takes, fails.out),
            err: Output::new(alloc, takes, fails.err),
        })
    }

    /// Runs the tool on these words, and returns the status.
    pub fn run(&mut self, alloc: Global, words: &[String]) -> u8 {
        menhir(
            alloc,
            words,
            &mut self.shelf,
            &mut self.input,
            &mut self.out,
            &mut self.err,
        )
    }
}
