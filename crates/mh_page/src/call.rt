//! The call over what a caller gives.
ghost use Rattle.std.specs.Prelude.{◌≡◌, [], map, length, string_bytes, IfSome};
ghost use Rattle.mh_outside.specs.Shelf.{HasDistinctNames};
ghost use Rattle.mh_page.specs.Answers.{Answers, AreUtf8, IsRun};
ghost use Rattle.mh_page.specs.Devices.{text_written, KeepsFor};
ghost use Rattle.mh_page.specs.Given.{given, words_given, files_given};
ghost use Rattle.mh_page.specs.Headline.{HoldsErrorList};
ghost use Rattle.mh_page.specs.Rooms.{Holds};

use crate::file_list::FileList;
use crate::input::InputBytes;
use crate::request::{Request, are_utf8, have_distinct_names, strings_of};
use crate::room_sink::RoomSink;
use crate::rooms::fill;
use mh_top::{menhir, status};
use std::alloc::Global;

const BAD_WORDS: &[u8] = b"menhir: usage: bad words\n";

const TWO_FILES_OF_ONE_NAME: &[u8] = b"menhir: usage: two files of one name\n";

const NO_MEMORY: &[u8] = b"menhir: out of memory\n";

/// What a run has written, and its status.
#[derive(Drop)]
struct Ended {
    out: RoomSink,
    err: RoomSink,
    status: u8,
}

/// The sizes of the rooms for out and err.
#[derive(Clone, Copy)]
struct RoomSizes {
    out: usize,
    err: usize,
}

/// Runs the program on these words, over the files and the input of the request.
fn run(alloc: Global, words: &[String], request: &Request<'_>, rooms: RoomSizes) -> Ended
    requires { map string_bytes words.now ≡ words_given request.now.words.now }
    ensures { IsRun (given request.now.words.now request.now.files.now request.now.input.now)
        (text_written result.out) (text_written result.err) result.status }
{
    let mut shelf = FileList::new(request.files);
    let mut input = InputBytes::new(request.input);
    let mut out = RoomSink::new(alloc, rooms.out);
    let mut err = RoomSink::new(alloc, rooms.err);
    let status = menhir(alloc, words, &mut shelf, &mut input, &mut out, &mut err);
    Ended { out, err, status }
}

/// Runs the program over what the caller gives. The result is `None` if memory ran out for the words or for the bytes
/// that the rooms hold.
fn run_for_rooms(alloc: Global, request: &Request<'_>, rooms: RoomSizes) -> Option<Ended>
    requires { AreUtf8 (words_given request.now.words.now) }
    ensures ran { IfSome result (λ e. IsRun (given request.now.words.now request.now.files.now request.now.input.now)
        (text_written e.out) (text_written e.err) e.status) }
    ensures out { IfSome result (λ e. KeepsFor e.out rooms.out) }
    ensures err { IfSome result (λ e. KeepsFor e.err rooms.err) }
{
    let Ok(words) = strings_of(alloc, request.words) else {
        return None;
    };
    let ended = run(alloc, &words, request, rooms);
    drop(words);
    if ended.out.keeps_for(rooms.out) && ended.err.keeps_for(rooms.err) {
        Some(ended)
    } else {
        None
    }
}

/// Puts a line into the room for err, writes nothing on out, and gives the status.
fn refuse(line: &[u8], status: u8, out_len: &mut u64, err: &mut [u8], err_len: &mut u64) -> u8
    ensures status { result ≡ status }
    ensures out { out_len.new ≡ 0 }
    ensures err { Holds line.now err.old err.new err_len.new }
{
    *out_len = 0;
    fill(err, err_len, line);
    status
}

/// Does the work that the words ask for, over files and an input in memory, and gives the exit status, as
/// `mh_top::menhir` does. Each room gets the first bytes of what is written on out or err, as many as the room holds,
/// and the rest of the room stays as it was. `out_len` and `err_len` are set to the number of all bytes that are
/// written: if a number is greater than the size of its room, call again with a larger room.
///
/// If a word is not UTF-8, or two files have the same name, the status is 2, and a line on err gives the reason. The
/// status is 6 if memory runs out, also for the texts on out and err; then err may have one line alone, which says so.
/// The status is never 4.
pub fn run_in_memory(
    alloc: Global,
    request: &Request<'_>,
    out: &mut [u8],
    out_len: &mut u64,
    err: &mut [u8],
    err_len: &mut u64,
) -> u8
    // The full contract.
    ensures answer { Answers (given request.now.words.now request.now.files.now request.now.input.now)
        out.old out.new out_len.new err.old err.new err_len.new result }
    // The headline: a list of errors has an entry for a state exactly if some sentence is refused in this state.
    ensures errors { HoldsErrorList (given request.now.words.now request.now.files.now request.now.input.now)
        out.old out.new out_len.new result }
{
    if !are_utf8(request.words) {
        return refuse(BAD_WORDS, status::MISUSED, out_len, err, err_len);
    }
    if !have_distinct_names(request.files) {
        return refuse(
            TWO_FILES_OF_ONE_NAME,
            status::MISUSED,
            out_len,
            err,
            err_len,
        );
    }
    let rooms = RoomSizes {
        out: out.len(),
        err: err.len(),
    };
    match run_for_rooms(alloc, request, rooms) {
        Some(ended) => {
            ended.out.fill(out, out_len);
            ended.err.fill(err, err_len);
            ended.status
        }
        None => refuse(NO_MEMORY, status::OUT_OF_MEMORY, out_len, err, err_len),
    }
}
