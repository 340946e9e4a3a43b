//! The top call: the whole tool as one function.
ghost use Rattle.std.specs.Prelude.{◌≡◌, ◌≢◌, ◌≤◌, List, length, map, string_bytes};
ghost use Rattle.std.specs.List.{All};
ghost use Rattle.mh_grammar.specs.Plain.{plain_of, IsInRange};
ghost use Rattle.mh_opts.specs.Orders.{IsWithinLimits};
ghost use Rattle.mh_opts.specs.declared.jobs.Job.TheVariants.{Check};
ghost use Rattle.mh_top_load.specs.Modules.{grammar_files};
ghost use Rattle.mh_top_load.specs.Order.{staged_order};
ghost use Rattle.mh_top_plans.specs.Files.{files_of_mode};
ghost use Rattle.mh_top_prepare.specs.MayAskForTables.{MayAskForTables};
ghost use Rattle.mh_grammar.specs.Text.{Text};
ghost use Rattle.mh_top_drive.specs.StageResults.{Go};
ghost use Rattle.mh_top_claims.specs.MayAskForFiles.{MayAskForFiles};
ghost use Rattle.mh_top_claims.specs.Promises.{Promises};
ghost use Rattle.mh_top_claims.specs.Run.{world, Ran};
ghost use Rattle.mh_top_claims.specs.code.WorkBeforeLastLine.{IsWorkBeforeLastLine};
ghost use Rattle.mh_top.specs.code.Premises.{AllowsWork, MayRunMode};
ghost use Rattle.mh_top_load.specs.OrderAndGrammar.{IsOrderAndGrammar};
ghost use Rattle.mh_top_claims.specs.Preparing.{IsPrepared};
ghost use Rattle.mh_items.specs.Fitting.{FitsSets};
ghost use Rattle.mh_top_drive.specs.code.MayWriteAfter.{MayWriteAfter};
ghost use Rattle.mh_rules.specs.Limits.{max_tokens};

use crate::following::run_unless_refused;
use mh_opts::{Job, Order};
use mh_outside::{Shelf, Sink, Source};
use mh_sets::with_width;
use mh_top_check::check_grammar;
use mh_top_drive::{OrderAndGrammar, Prepared, Stop, status};
use mh_top_load::{order_in, with_grammar};
use mh_top_prepare::{prepare, report, warn};
use std::alloc::Global;

/// Writes the warnings, and then runs the mode or refuses the grammar.
fn work_with<F: Shelf, I: Source, O: Sink, E: Sink, const W: usize>(
    alloc: Global,
    prepared: &Prepared<W>,
    shelf: &mut F,
    input: &mut I,
    out: &mut O,
    err: &mut E,
) -> Result<(), Stop>
    requires mode { MayRunMode W prepared.now (F.MayAsk shelf.old) (I.MayRead input.old) (O.MayWrite out.old) }
    requires may_warn { E.MayWrite err.old }
    ensures kept { F.files shelf.new ≡ F.files shelf.old }
    ensures ran { (words : List Text) → IsPrepared words (F.files shelf.old) (Go prepared.now) → IsWorkBeforeLastLine words
        (world F.files F.faults I.left I.faults O.written O.faults E.written E.faults
        shelf.old input.old out.old err.old)
        (world F.files F.faults I.left I.faults O.written O.faults E.written E.faults
        shelf.new input.new out.new err.new)
        result }
    ensures may_warn_on { MayWriteAfter (E.MayWrite err.new) result }
{
    match warn(alloc, prepared, err) {
        Ok(()) => run_unless_refused(alloc, prepared, shelf, input, out),
        Err(stop) => Err(stop),
    }
}

/// Does the work after the grammar: the table, the warnings and the mode. `drop` frees the grammar and the table at
/// once, because freeing one field after the other at the end of the scope takes long to prove.
fn work_on<F: Shelf, I: Source, O: Sink, E: Sink, const W: usize>(
    alloc: Global,
    front: OrderAndGrammar,
    shelf: &mut F,
    input: &mut I,
    out: &mut O,
    err: &mut E,
) -> Result<(), Stop>
    requires fits { FitsSets W front.grammar }
    requires front { AllowsWork front (F.MayAsk shelf.old) }
    requires may_read { I.MayRead input.old }
    requires may_write { O.MayWrite out.old }
    requires may_warn { E.MayWrite err.old }
    ensures kept { F.files shelf.new ≡ F.files shelf.old }
    ensures ran { (words : List Text) → IsOrderAndGrammar words (F.files shelf.old) (Go front) → IsWorkBeforeLastLine words
        (world F.files F.faults I.left I.faults O.written O.faults E.written E.faults
        shelf.old input.old out.old err.old)
        (world F.files F.faults I.left I.faults O.written O.faults E.written E.faults
        shelf.new input.new out.new err.new)
        result }
    ensures may_warn_on { MayWriteAfter (E.MayWrite err.new) result }
{
    match prepare::<F, W>(alloc, front, shelf) {
        Ok(prepared) => {
            let ended = work_with(alloc, &prepared, shelf, input, out, err);
            drop(prepared);
            ended
        }
        Err(stop) => Err(stop),
    }
}

/// Does the work after the grammar, with the least width of lookahead sets that holds the tokens.
fn work_at_width<F: Shelf, I: Source, O: Sink, E: Sink>(
    alloc: Global,
    front: OrderAndGrammar,
    shelf: &mut F,
    input: &mut I,
    out: &mut O,
    err: &mut E,
) -> Result<(), Stop>
    requires tokens { length front.grammar.tokens ≤ max_tokens }
    requires range { IsInRange (plain_of front.grammar) }
    requires front { AllowsWork front (F.MayAsk shelf.old) }
    requires may_read { I.MayRead input.old }
    requires may_write { O.MayWrite out.old }
    requires may_warn { E.MayWrite err.old }
    ensures kept { F.files shelf.new ≡ F.files shelf.old }
    ensures ran { (words : List Text) → IsOrderAndGrammar words (F.files shelf.old) (Go front) → IsWorkBeforeLastLine words
        (world F.files F.faults I.left I.faults O.written O.faults E.written E.faults
        shelf.old input.old out.old err.old)
        (world F.files F.faults I.left I.faults O.written O.faults E.written E.faults
        shelf.new input.new out.new err.new)
        result }
    ensures may_warn_on { MayWriteAfter (E.MayWrite err.new) result }
{
    with_width!(front.grammar.tokens.len(); work_on; F, I, O, E; alloc, front, shelf, input, out, err)
}

/// Does the work after the order for every mode but `--check`: makes the grammar, and then the table.
fn work_on_order<F: Shelf, I: Source, O: Sink, E: Sink>(
    alloc: Global,
    order: Order,
    shelf: &mut F,
    input: &mut I,
    out: &mut O,
    err: &mut E,
) -> Result<(), Stop>
    requires job { order.job ≢ Check }
    requires limits { IsWithinLimits order.job }
    requires grammars { All (F.MayAsk shelf.old) (grammar_files order) }
    requires tables { MayAskForTables order (F.MayAsk shelf.old) }
    requires asked { All (F.MayAsk shelf.old) (files_of_mode order) }
    requires may_read { I.MayRead input.old }
    requires may_write { O.MayWrite out.old }
    requires may_warn { E.MayWrite err.old }
    ensures kept { F.files shelf.new ≡ F.files shelf.old }
    ensures ran { (words : List Text) → staged_order words ≡ Go order → IsWorkBeforeLastLine words
        (world F.files F.faults I.left I.faults O.written O.faults E.written E.faults
        shelf.old input.old out.old err.old)
        (world F.files F.faults I.left I.faults O.written O.faults E.written E.faults
        shelf.new input.new out.new err.new)
        result }
    ensures may_warn_on { MayWriteAfter (E.MayWrite err.new) result }
{
    match with_grammar(alloc, order, shelf) {
        Ok(front) => work_at_width(alloc, front, shelf, input, out, err),
        Err(stop) => Err(stop),
    }
}

/// Does all of the work but its last line on err.
fn work<F: Shelf, I: Source, O: Sink, E: Sink>(
    alloc: Global,
    words: &[String],
    shelf: &mut F,
    input: &mut I,
    out: &mut O,
    err: &mut E,
) -> Result<(), Stop>
    requires asked { MayAskForFiles (map string_bytes words.now) (F.MayAsk shelf.old) }
    requires may_read { I.MayRead input.old }
    requires may_write { O.MayWrite out.old }
    requires may_warn { E.MayWrite err.old }
    ensures kept { F.files shelf.new ≡ F.files shelf.old }
    ensures ran { IsWorkBeforeLastLine (map string_bytes words.now)
        (world F.files F.faults I.left I.faults O.written O.faults E.written E.faults
        shelf.old input.old out.old err.old)
        (world F.files F.faults I.left I.faults O.written O.faults E.written E.faults
        shelf.new input.new out.new err.new)
        result }
    ensures may_warn_on { MayWriteAfter (E.MayWrite err.new) result }
{
    match order_in(alloc, words) {
        Ok(order) => match order.job {
            Job::Check => check_grammar(alloc, order, shelf, input, out),
            _ => work_on_order(alloc, order, shelf, input, out, err),
        },
        Err(stop) => Err(stop),
    }
}

/// Does all of the work with its last line on err, and gives the exit status.
fn run<F: Shelf, I: Source, O: Sink, E: Sink>(
    alloc: Global,
    words: &[String],
    shelf: &mut F,
    input: &mut I,
    out: &mut O,
    err: &mut E,
) -> u8
    requires asked { MayAskForFiles (map string_bytes words.now) (F.MayAsk shelf.old) }
    requires may_read { I.MayRead input.old }
    requires may_write { O.MayWrite out.old }
    requires may_warn { E.MayWrite err.old }
    ensures kept { F.files shelf.new ≡ F.files shelf.old }
    ensures ran { Ran (map string_bytes words.now)
        (world F.files F.faults I.left I.faults O.written O.faults E.written E.faults
        shelf.old input.old out.old err.old)
        (world F.files F.faults I.left I.faults O.written O.faults E.written E.faults
        shelf.new input.new out.new err.new) result }
{
    match work(alloc, words, shelf, input, out, err) {
        Ok(()) => status::DONE,
        Err(stop) => report(err, stop),
    }
}

/// Does the work that the words of the command line ask for, over any shelf, input and outputs, and gives the exit
/// status, one of `status`: 0 done, 1 refused, 2 misused words, 3 a read failed or a file is missing, 4 a write failed,
/// 5 a file or the input is too big, 6 out of memory. The words are those after the program's name. The shelf is asked
/// only for the files that the words name. Each line of the input is answered before the next is read.
pub fn menhir<F: Shelf, I: Source, O: Sink, E: Sink>(
    alloc: Global,
    words: &[String],
    shelf: &mut F,
    input: &mut I,
    out: &mut O,
    err: &mut E,
) -> u8
    requires asked { MayAskForFiles (map string_bytes words.now) (F.MayAsk shelf.old) }
    requires may_read { I.MayRead input.old }
    requires may_write { O.MayWrite out.old }
    requires may_warn { E.MayWrite err.old }
    // The full contract: how each run ends.
    ensures ran { Ran (map string_bytes words.now)
        (world F.files F.faults I.left I.faults O.written O.faults E.written E.faults
        shelf.old input.old out.old err.old)
        (world F.files F.faults I.left I.faults O.written O.faults E.written E.faults
        shelf.new input.new out.new err.new) result }
    // What follows from it: the headline and all other promises, each with its name in the record `Promises`.
    ensures promises { Promises (map string_bytes words.now)
        (world F.files F.faults I.left I.faults O.written O.faults E.written E.faults
        shelf.old input.old out.old err.old)
        (world F.files F.faults I.left I.faults O.written O.faults E.written E.faults
        shelf.new input.new out.new err.new) result }
    // No file is changed.
    ensures files { F.files shelf.new ≡ F.files shelf.old }
{
    run(alloc, words, shelf, input, out, err)
}
