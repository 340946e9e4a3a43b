//! Runs the mode of each job.
ghost use Rattle.std.specs.Prelude.{◌≡◌};
ghost use Rattle.mh_top_drive.specs.code.ModeCalls.{InputAndOutCounts, ModeShelfCounts};
ghost use Rattle.mh_top_plans.specs.Files.{IsNextFileOfJob};
ghost use Rattle.mh_top_plans.specs.code.Modes.{OpenedAndRan};
ghost use Rattle.mh_top_plans.specs.Plan.{IsPlanOfJob};
ghost use Rattle.mh_top.specs.code.Premises.{MayRunMode};

use mh_opts::Job;
use mh_outside::{Shelf, Sink, Source};
use mh_top_drive::{Prepared, Stop};
use mh_top_lists::{ConflictExplanations, ErrorList, SampleCounts, check_errors, rebase_errors};
use mh_top_modes::{
    AutomatonText, FileText, RandomSentence, ShortestWords, TableFile, compare_errors, explain,
    interpret, run_session, text_from_file,
};
use mh_top_plans::{write_at_end, write_made};
use std::alloc::Global;

/// Runs the mode of the job. A mode that needs messages files reads them before it writes anything.
pub(crate) fn run_mode<F: Shelf, I: Source, O: Sink, const W: usize>(
    alloc: Global,
    prepared: &Prepared<W>,
    shelf: &mut F,
    input: &mut I,
    out: &mut O,
) -> Result<(), Stop>
    requires { MayRunMode W prepared.now (F.MayAsk shelf.old) (I.MayRead input.old) (O.MayWrite out.old) }
    ensures ran { OpenedAndRan (IsPlanOfJob prepared.now.order.job (F.files shelf.old) prepared.now)
        (IsNextFileOfJob prepared.now.order.job (F.files shelf.old) prepared.now)
        (I.left input.old) (I.left input.new) (O.written out.old) (O.written out.new) result }
    ensures counts { InputAndOutCounts (I.faults input.old) (I.faults input.new)
        (O.faults out.old) (O.faults out.new) result }
    ensures read { ModeShelfCounts (F.faults shelf.old) (F.faults shelf.new) result }
    ensures kept { F.files shelf.new ≡ F.files shelf.old }
{
    match &prepared.order.job {
        Job::Interpret => interpret(alloc, prepared, shelf, input, out),
        Job::InterpretError => explain(alloc, prepared, input, out),
        Job::Session => run_session(alloc, prepared, input, out),
        Job::ShowAutomaton => write_at_end(alloc, AutomatonText { prepared }, input, out),
        Job::WriteTables => write_at_end(alloc, TableFile { prepared }, input, out),
        Job::ListErrors => write_at_end(alloc, ErrorList { prepared }, input, out),
        Job::Sample { number } => {
            let number = *number;
            write_at_end(alloc, SampleCounts { prepared, number }, input, out)
        }
        Job::ShortestSentences => write_at_end(alloc, ShortestWords { prepared }, input, out),
        Job::RandomSentence { seed, length } => {
            let (seed, length) = (*seed, *length);
            let writer = RandomSentence {
                prepared,
                seed,
                length,
            };
            write_at_end(alloc, writer, input, out)
        }
        Job::Explain => write_at_end(alloc, ConflictExplanations { prepared }, input, out),
        Job::CompileErrors { file } => {
            let made = text_from_file(alloc, prepared, shelf, FileText::Compiled, file.as_slice());
            write_made(alloc, made, input, out)
        }
        Job::CompareErrors { first, second } => {
            let made = compare_errors(alloc, prepared, shelf, first.as_slice(), second.as_slice());
            write_made(alloc, made, input, out)
        }
        Job::EchoErrors { file } => {
            let made = text_from_file(alloc, prepared, shelf, FileText::Echoed, file.as_slice());
            write_made(alloc, made, input, out)
        }
        Job::UpdateErrors { file } => {
            let made = text_from_file(alloc, prepared, shelf, FileText::Updated, file.as_slice());
            write_made(alloc, made, input, out)
        }
        Job::RebaseErrors { file } => {
            rebase_errors(alloc, prepared, shelf, file.as_slice(), input, out)
        }
        Job::CheckErrors { file } => {
            check_errors(alloc, prepared, shelf, file.as_slice(), input, out)
        }
        // The top call does the work of this mode before there is a grammar.
        Job::Check => unreachable!(),
    }
}
