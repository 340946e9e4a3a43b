//! Gives the modules of an order: those of its grammar files, or for `--sample` the module of a generated grammar,
//! whose text is read like that of a file.
ghost use Rattle.std.specs.Prelude.{◌≡◌, ◌<◌, ◌^◌, ◌∷◌, [], List, ℕ, length, IfOk};
ghost use Rattle.std.specs.List.{All};
ghost use Rattle.mh_sample.specs.Texts.{grammar_text};
ghost use Rattle.mh_top_drive.specs.code.StageCalls.{FileStageGives, StageShelfCounts, StageGives, list_result};
ghost use Rattle.mh_top_load.specs.GrammarFile.{IsModule};
ghost use Rattle.mh_top_load.specs.Modules.{AreModules, IsSampleModule, grammar_files, sample_of as sample_in};
ghost use Rattle.mh_top_drive.specs.NextFile.{IsNextFile};

use crate::grammar_file::{GrammarFiles, module_in};
use mh_grammar::Memory;
use mh_opts::{Job, Order};
use mh_outside::Shelf;
use mh_reader_parser::Module;
use mh_sample::sample_grammar;
use mh_top_drive::{Stop, read_files};
use std::alloc::Global;

/// The number of the sample that a job asks for, if it asks for one.
fn sample_of(job: &Job) -> Option<u32>
    ensures { result ≡ sample_in job.now }
{
    match job {
        Job::Sample { number } => Some(*number),
        _ => None,
    }
}

/// The text of the grammar of a sample. It is short enough to be read.
fn sample_text(alloc: Global, number: u32) -> Result<Vec<u8>, Memory>
    ensures text { IfOk result (λ text. text.items ≡ grammar_text number) }
    ensures short { IfOk result (λ text. length text.items < 2 ^ 31) }
{
    sample_grammar(alloc, number)
}

/// A list of one module.
fn alone(alloc: Global, made: Module) -> Result<Vec<Module>, Memory>
    ensures { IfOk result (λ modules. modules.items ≡ made ∷ []) }
{
    let mut modules = Vec::new(alloc);
    modules.push(made)?;
    Ok(modules)
}

/// The module of a sample, as a list of one.
fn sample_modules(alloc: Global, number: u32) -> Result<Vec<Module>, Stop>
    ensures { StageGives (IsSampleModule number) (list_result result) }
{
    let text = sample_text(alloc, number)?;
    match module_in(alloc, b"sample", &text) {
        Ok(made) => Ok(alone(alloc, made)?),
        Err(stop) => Err(stop),
    }
}

/// Gives the modules of an order. Reads its grammar files, or none for a sample.
pub(crate) fn modules_of<F: Shelf>(
    alloc: Global,
    shelf: &mut F,
    order: &Order,
) -> Result<Vec<Module>, Stop>
    requires asked { All (F.MayAsk shelf.old) (grammar_files order.now) }
    ensures modules { FileStageGives (AreModules (F.files shelf.old) order.now)
        (IsNextFile (F.files shelf.old) IsModule (grammar_files order.now)) (list_result result) }
    ensures may_ask { IfOk result (λ items. (other : List ℕ) → F.MayAsk shelf.old other → F.MayAsk shelf.new other) }
    ensures kept { F.files shelf.new ≡ F.files shelf.old }
    ensures counts { StageShelfCounts (F.faults shelf.old) (F.faults shelf.new) result }
{
    match sample_of(&order.job) {
        Some(number) => sample_modules(alloc, number),
        None => read_files(alloc, shelf, &GrammarFiles, order.grammars.as_slice()),
    }
}
