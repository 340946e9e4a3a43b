//! Makes the grammar of modules, or the refusal of modules with a fault.
ghost use Rattle.std.specs.Prelude.{◌<◌, ◌≤◌, length, IfOk};
ghost use Rattle.mh_grammar.specs.Costs.{HaveCosts};
ghost use Rattle.mh_grammar.specs.Plain.{plain_of, IsInRange};
ghost use Rattle.std.specs.List.{All};
ghost use Rattle.mh_rules.specs.Ready.{AreModulesReady};
ghost use Rattle.mh_validate_valid.specs.Valid.{AreTokenNamesDistinct};
ghost use Rattle.mh_top_load.specs.GrammarNames.{HasFileNames};
ghost use Rattle.mh_top_load.specs.GrammarStage.{IsGrammarStage};
ghost use Rattle.mh_top_load.specs.code.CapitalTokens.{HasCapitalTokens};
ghost use Rattle.mh_top_load.specs.code.ModuleNames.{HasWordsAsNames};
ghost use Rattle.mh_top_load.specs.Texts.{refusal};
ghost use Rattle.mh_top_load.specs.code.GrammarFaultStops.{IsStopForGrammarFault};
ghost use Rattle.mh_top_drive.specs.code.StageCalls.{StageGives, StopsWith};
ghost use Rattle.mh_top_drive.specs.declared.stop.Cause.TheVariants.{Refused};
ghost use Rattle.mh_rules.specs.Limits.{max_tokens};

use mh_front::{GrammarFault, fault_line, grammar_of};
use mh_grammar::Grammar;
use mh_reader_parser::Module;
use mh_top_drive::{Stop, refused};
use std::alloc::Global;

/// The refusal of modules with a fault.
fn refused_by(alloc: Global, fault: &GrammarFault) -> Stop
    ensures { StopsWith (Refused (refusal fault.now)) result }
{
    match fault_line(alloc, fault) {
        Ok(line) => refused(alloc, b"menhir: ", &line, b"\n"),
        Err(_) => Stop::OutOfMemory,
    }
}

/// The reason to stop the work for a fault of the modules.
fn stop_of(alloc: Global, fault: &GrammarFault) -> Stop
    ensures { IsStopForGrammarFault fault.now result }
{
    match fault {
        GrammarFault::Memory => Stop::OutOfMemory,
        _ => refused_by(alloc, fault),
    }
}

/// Makes the grammar of the modules, with or without the prelude.
pub(crate) fn grammar_in(
    alloc: Global,
    modules: Vec<Module>,
    prelude: bool,
) -> Result<Grammar, Stop>
    requires ready { AreModulesReady modules.items }
    requires capitals { All HasCapitalTokens modules.items }
    requires words { All HasWordsAsNames modules.items }
    ensures grammar { StageGives (IsGrammarStage prelude modules.items) result }
    ensures range { IfOk result (λ grammar. IsInRange (plain_of grammar)) }
    ensures start { IfOk result (λ grammar. 0 < length grammar.starts) }
    ensures costs { IfOk result (λ grammar. HaveCosts grammar.tokens) }
    ensures tokens { IfOk result (λ grammar. length grammar.tokens ≤ max_tokens) }
    ensures distinct_names { IfOk result AreTokenNamesDistinct }
    ensures names { IfOk result HasFileNames }
{
    match grammar_of(alloc, modules, prelude) {
        Ok(grammar) => Ok(grammar),
        Err(fault) => {
            let stop = stop_of(alloc, &fault);
            drop(fault);
            Err(stop)
        }
    }
}
