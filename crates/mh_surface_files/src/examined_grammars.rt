//! Everything that is wrong with grammar files: the lines on their faults, or on the warnings on their grammar.
ghost use Rattle.std.specs.Prelude.{true};
ghost use Rattle.std.specs.List.{All};
ghost use Rattle.mh_grammar.specs.Plain.{plain_of};
ghost use Rattle.mh_items.specs.Fitting.{FitsSets};
ghost use Rattle.mh_items_kernels.specs.Automaton.{IsAutomaton};
ghost use Rattle.mh_lint_faults.specs.Stages.{Stages};
ghost use Rattle.mh_lint_faults.specs.code.Examining.{AreAcceptedReady, AreFaultsWithin, AreStages, IsExaminedAs, IsExaminedReady};
ghost use Rattle.mh_lint_findings.specs.Positions.{IsPositionWithin};
ghost use Rattle.mh_lint_findings.specs.code.Cursors.{AreShort};
ghost use Rattle.mh_resolve_cells.specs.Conflicts.{AreConflicts};
ghost use Rattle.mh_resolve_cells.specs.States.{IsTableOf};
ghost use Rattle.mh_resolve_cells.specs.declared.kinds.Mode.TheVariants.{Merged};

use crate::texts::check_written;
use mh_grammar::{Grammar, Sequence, from_bytes};
use mh_items::Automaton;
use mh_lint::{
    AcceptedFiles, BuiltGrammar, Cursor, Examined, Finding, GrammarFile, examine, warnings,
    write_finding,
};
use mh_resolve::{Mode, resolve};
use mh_surface::{automaton_of, is_small};
use std::alloc::Global;
use std::process::Abort;
use std::slice::from_ref;
use std::test::Fail;

/// A grammar with two faults.
const FAULTY: &str = "%token A A
%left B
%left B
%start s
%%
s: A C {}
";

/// A grammar with a token that nothing uses, and a rule that nothing reaches.
const UNUSED: &str = "%token A B
%start s
%%
s: A {}
t: A {}
";

/// The lines on both.
const FAULTS: &str = "f:3:7: duplicate: B
f:6:6: undefined: C
";

const WARNINGS: &str = "f:1:10: unused token: B
f:5:1: unreachable rule: t
";

fn check_lines(
    rt: &impl Abort,
    alloc: Global,
    named: &[GrammarFile],
    found: &[Finding<'_>],
    wanted: &str,
) -> Result<(), Fail>
    requires short { AreShort named.now }
    requires within { All (λ f. IsPositionWithin named.now f.at) found.now }
{
    let mut text = Vec::new(alloc);
    for finding in found {
        // A cursor that is kept would save time on a long file, and need a loop invariant.
        let mut cursor = Cursor::new(0);
        write_finding(&mut text, named, &mut cursor, finding)?;
    }
    check_written(rt, text, wanted);
    Ok(())
}

/// The warnings on a grammar with its automaton and its table.
fn check_warnings(
    rt: &impl Abort,
    alloc: Global,
    named: &[GrammarFile],
    files: &AcceptedFiles,
    built: &BuiltGrammar<'_, 1>,
) -> Result<(), Fail>
    requires short { AreShort named.now }
    requires ready { AreAcceptedReady files.now }
    requires stages { (s : Stages) × AreStages true named.now files.now built.now.grammar.now s }
    requires fits { FitsSets 1 built.now.grammar.now }
    requires automaton { IsAutomaton (plain_of built.now.grammar.now) built.now.automaton.now }
    requires table { IsTableOf built.now.grammar.now built.now.automaton.now Merged built.now.table.now }
    requires conflicts { AreConflicts built.now.grammar.now built.now.automaton.now built.now.conflicts.now }
{
    let found = warnings(alloc, named, files, built)?;
    let result = check_lines(rt, alloc, named, found.as_slice(), WARNINGS);
    drop(found);
    result
}

fn check_built(
    rt: &impl Abort,
    alloc: Global,
    named: &[GrammarFile],
    files: &AcceptedFiles,
    grammar: &Grammar,
    automaton: &Automaton<1>,
) -> Result<(), Fail>
    requires short { AreShort named.now }
    requires ready { AreAcceptedReady files.now }
    requires stages { (s : Stages) × AreStages true named.now files.now grammar.now s }
    requires fits { FitsSets 1 grammar.now }
    requires automaton { IsAutomaton (plain_of grammar.now) automaton.now }
{
    let (table, conflicts) = resolve(alloc, grammar, automaton, Mode::Merged)?;
    let built = BuiltGrammar {
        grammar,
        automaton,
        table: &table,
        conflicts: conflicts.as_slice(),
    };
    let result = check_warnings(rt, alloc, named, files, &built);
    drop(table);
    drop(conflicts);
    result
}

fn check_accepted(
    rt: &impl Abort,
    alloc: Global,
    named: &[GrammarFile],
    files: &AcceptedFiles,
    grammar: &Grammar,
) -> Result<(), Fail>
    requires short { AreShort named.now }
    requires ready { AreAcceptedReady files.now }
    requires stages { (s : Stages) × AreStages true named.now files.now grammar.now s }
{
    if !is_small(grammar) {
        return Err(Fail::from("a large grammar"));
    }
    let automaton = automaton_of(alloc, grammar)?;
    let result = check_built(rt, alloc, named, files, grammar, &automaton);
    drop(automaton);
    result
}

/// The lines on files that have faults, or a grammar.
fn check_examined(
    rt: &impl Abort,
    alloc: Global,
    named: &[GrammarFile],
    examined: &Examined,
) -> Result<(), Fail>
    requires short { AreShort named.now }
    requires examined { IsExaminedAs named.now true examined.now }
    requires within { AreFaultsWithin named.now examined.now }
    requires ready { IsExaminedReady examined.now }
{
    match examined {
        Examined::Faulty { findings } => {
            check_lines(rt, alloc, named, findings.as_slice(), FAULTS)
        }
        Examined::Accepted { files, grammar } => check_accepted(rt, alloc, named, files, grammar),
    }
}

fn check_files(rt: &impl Abort, alloc: Global, named: &[GrammarFile]) -> Result<(), Fail>
    requires { AreShort named.now }
{
    let examined = examine(alloc, named, true)?;
    let result = check_examined(rt, alloc, named, &examined);
    drop(examined);
    result
}

fn check_file(rt: &impl Abort, alloc: Global, file: &GrammarFile) -> Result<(), Fail> {
    if file.bytes.len() >= 1 << 31 {
        return Err(Fail::from("a long file"));
    }
    check_files(rt, alloc, from_ref(file))
}

/// Examines a text as the file `f`.
fn check_text(rt: &impl Abort, alloc: Global, text: &str) -> Result<(), Fail> {
    let file = GrammarFile {
        name: from_bytes(alloc, b"f")?,
        bytes: Sequence::from_vec(text.as_bytes().to_vec(alloc)?),
    };
    let result = check_file(rt, alloc, &file);
    drop(file);
    result
}

#[test]
fn examined_grammars(rt: HostRuntime) -> Result<(), Fail> {
    check_text(&rt, rt.alloc(), FAULTY)?;
    check_text(&rt, rt.alloc(), UNUSED)
}
