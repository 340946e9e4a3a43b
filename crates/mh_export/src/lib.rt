//! The static library: the whole program as one C function.
#![tactic(auto)]

ghost use Rattle.mh_page.specs.Answers.{Answers};
ghost use Rattle.mh_page.specs.Given.{given};
ghost use Rattle.mh_page.specs.Headline.{HoldsErrorList};

use mh_page::{PageFile, Request, run_in_memory};
use std::alloc::Global;

/// `mh_page::run_in_memory` as a C function. Each slice is a pointer and a number (`library/menhir_page.h`).
#[unsafe(no_mangle)]
pub extern "C" fn menhir_page(
    alloc: Global,
    words: &[&[u8]],
    files: &[PageFile],
    input: &[u8],
    out: &mut [u8],
    out_len: &mut u64,
    err: &mut [u8],
    err_len: &mut u64,
) -> u8
    ensures answer { Answers (given words.now files.now input.now)
        out.old out.new out_len.new err.old err.new err_len.new result }
    ensures errors { HoldsErrorList (given words.now files.now input.now) out.old out.new out_len.new result }
{
    let request = Request {
        words,
        files,
        input,
    };
    run_in_memory(alloc, &request, out, out_len, err, err_len)
}
