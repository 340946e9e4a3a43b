//! The front end for `--check`: the faults of the files of a grammar, or their grammar (see `examine`).
ghost use Rattle.std.specs.Prelude.{◌≡◌, ◌++◌, ◌∷◌, [], Bool, Err, List, cond, IfOk, OnOk};
ghost use Rattle.std.specs.List.{enumerate_from, flat_map};
ghost use Rattle.mh_expand.specs.Expansion.{IsExpanded};
ghost use Rattle.mh_expand.specs.declared.fault.ExpandFault.TheVariants as expanding;
ghost use Rattle.mh_front.specs.Stages.{HasCauseOrMemory, IsJoinedFault};
ghost use Rattle.mh_front.specs.Texts.{join_text};
ghost use Rattle.mh_front.specs.declared.fault.GrammarFault.TheVariants as faults;
ghost use Rattle.mh_join_names.specs.Joining.{Joins};
ghost use Rattle.mh_join_names.specs.Prelude as prelude_spec;
ghost use Rattle.mh_join_names.specs.code.SymbolTables.{HasMeanings, meanings_in};
ghost use Rattle.mh_reader_places.specs.declared.reading.PlacedModule.{PlacedModule as Placed};
ghost use Rattle.mh_rules.specs.Ready.{AreModulesReady, IsExpandedReady};
ghost use Rattle.mh_lint_faults.specs.FaultLines.{IsFaultAt, IsRulePosition, grammar_lines, join_lines, name_lines};
ghost use Rattle.mh_lint_faults.specs.Stages.{AreRead};
ghost use Rattle.mh_lint_faults.specs.code.Examining.{AreFaultsWithin, AreJoinedFiles, AreJoinedReady, IsExaminedAs, IsExaminedReady, ReportsAt};
ghost use Rattle.mh_lint_faults.specs.code.ReadFiles.{HasPlaces, IsSplit};
ghost use Rattle.mh_lint_faults.specs.code.RuleKinds.{HasRuleKinds};
ghost use Rattle.mh_lint_findings.specs.Lines.{line, lines_of};
ghost use Rattle.mh_lint_findings.specs.code.Cursors.{AreShort};
ghost use Rattle.mh_lint_findings.specs.declared.findings.GrammarFile.{GrammarFile as Given};
ghost use Rattle.mh_lint_findings.specs.declared.findings.Position.TheVariants as positions;

use crate::arity::term_position;
use crate::definitions::position_of;
use crate::name_faults::{file_names, put_fault, put_file_faults};
use crate::reading::{ReadFiles, read_files};
use mh_expand::{ExpandFault, expand};
use mh_front::GrammarFault;
use mh_grammar::{Grammar, Memory, Name};
use mh_inline::{InlineFault, inline_rules};
use mh_join::join_named;
use mh_join_names::{JoinFault, SymbolTables};
use mh_join_parts::{names_of, prelude_rules};
use mh_lint_findings::{Finding, GrammarFile, Position};
use mh_rules::{Expanded, Joined, MAX_TOKENS, Rule};
use std::alloc::Global;

/// The files of an accepted grammar at each stage of the front end, with the places of their names.
pub struct AcceptedFiles {
    pub read: ReadFiles,
    pub names: SymbolTables,
    pub joined: Joined,
    pub expanded: Expanded,
}

// The exit of a function drops this value by one call. With the derived destructor it would drop each field.
impl Drop for AcceptedFiles {
    fn drop(self) {
        let AcceptedFiles {
            read,
            names,
            joined,
            expanded,
        } = self;
        drop(read);
        drop(names);
        drop(joined);
        drop(expanded);
    }
}

/// The outcome of the examination of files.
#[derive(Drop)]
pub enum Examined {
    /// The files have these faults.
    Faulty {
        findings: Vec<Finding<'static>>,
    },
    /// The files have this grammar.
    Accepted {
        files: AcceptedFiles,
        grammar: Grammar,
    },
}

/// The position of a fault that belongs to all files together: its line names the first file.
const ALL_FILES: Position = Position::OfFile { file: 0 };

/// Appends the faults of names of all files.
fn put_all_file_faults(
    alloc: Global,
    read: &ReadFiles,
    names: &SymbolTables,
    findings: &mut Vec<Finding<'_>>,
) -> Result<(), Memory>
    requires places { HasPlaces read.now }
    requires kinds { HasRuleKinds names.now }
    ensures { OnOk result ((found : List Placed) → IsSplit found read.now → lines_of findings.new.items ≡ lines_of findings.old.items ++ flat_map (name_lines (meanings_in names.now)) (enumerate_from 0 found)) }
{
    for (at, contents) in read.modules.iter().enumerate() {
        let file = file_names(alloc, at as u64 + 1, contents)?;
        put_file_faults(alloc, names, &file, read.mentions[at].as_slice(), findings)?;
    }
    Ok(())
}

/// Appends a fault of all files together, if there is one.
fn put_if(
    alloc: Global,
    is_fault: bool,
    fault: JoinFault,
    findings: &mut Vec<Finding<'_>>,
) -> Result<(), Memory>
    ensures { OnOk result (lines_of findings.new.items ≡ lines_of findings.old.items ++ cond is_fault (line (positions.OfFile 0) (join_text fault) ∷ []) []) }
{
    if !is_fault {
        return Ok(());
    }
    put_fault(alloc, findings, ALL_FILES, &GrammarFault::Join(fault))
}

/// Appends the faults of all files together.
fn put_grammar_faults(
    alloc: Global,
    names: &SymbolTables,
    findings: &mut Vec<Finding<'_>>,
) -> Result<(), Memory>
    ensures { OnOk result (lines_of findings.new.items ≡ lines_of findings.old.items ++ grammar_lines (meanings_in names.now)) }
{
    let count = names.tokens.len();
    put_if(alloc, names.starts.is_empty(), JoinFault::NoStart, findings)?;
    put_if(
        alloc,
        count > MAX_TOKENS,
        JoinFault::TooManyTokens {
            count: count as u64,
        },
        findings,
    )
}

/// All faults for which the files cannot be joined.
fn join_findings(
    alloc: Global,
    read: &ReadFiles,
    names: &SymbolTables,
) -> Result<Vec<Finding<'static>>, Memory>
    requires places { HasPlaces read.now }
    requires kinds { HasRuleKinds names.now }
    ensures { IfOk result (λ findings. (found : List Placed) → IsSplit found read.now → lines_of findings.items ≡ join_lines (meanings_in names.now) found) }
{
    let mut findings = Vec::new(alloc);
    put_all_file_faults(alloc, read, names, &mut findings)?;
    put_grammar_faults(alloc, names, &mut findings)?;
    Ok(findings)
}

/// The finding of a fault.
fn one_fault(
    alloc: Global,
    at: Position,
    fault: &GrammarFault,
) -> Result<Vec<Finding<'static>>, Memory>
    ensures { IfOk result (λ findings. ReportsAt (λ p. p ≡ at) fault.now findings.items) }
{
    let mut findings = Vec::new(alloc);
    put_fault(alloc, &mut findings, at, fault)?;
    Ok(findings)
}

/// Joined files, with their names.
#[derive(Drop)]
struct JoinedFiles {
    read: ReadFiles,
    names: SymbolTables,
    joined: Joined,
}

/// The finding of a fault of instances that has this printed name.
fn named_fault(
    alloc: Global,
    files: &JoinedFiles,
    printed: &Name,
    fault: &GrammarFault,
) -> Result<Vec<Finding<'static>>, Memory>
    requires places { HasPlaces files.now.read }
    ensures { IfOk result (λ findings. (found : List Placed) → IsSplit found files.now.read → ReportsAt (IsRulePosition (meanings_in files.now.names) found files.now.joined printed.now) fault.now findings.items) }
{
    let at = position_of(
        alloc,
        &files.names,
        &files.read,
        &files.joined,
        printed.as_slice(),
    )?;
    one_fault(alloc, at, fault)
}

/// The finding of a wrong number of arguments of this term.
fn arity_fault(
    alloc: Global,
    files: &JoinedFiles,
    printed: &Name,
    fault: &GrammarFault,
) -> Result<Vec<Finding<'static>>, Memory>
    requires places { HasPlaces files.now.read }
    requires arity { fault.now ≡ faults.Expand (expanding.Arity printed.now) }
    ensures { IfOk result (λ findings. (found : List Placed) → IsSplit found files.now.read → ReportsAt (IsFaultAt (meanings_in files.now.names) found files.now.joined fault.now) fault.now findings.items) }
{
    match term_position(alloc, &files.read, &files.joined, printed.as_slice())? {
        Some(at) => one_fault(alloc, at, fault),
        None => named_fault(alloc, files, printed, fault),
    }
}

/// The finding of a fault of expansion.
fn expansion_finding(
    alloc: Global,
    files: &JoinedFiles,
    expansion: &ExpandFault,
    fault: &GrammarFault,
) -> Result<Vec<Finding<'static>>, Memory>
    requires places { HasPlaces files.now.read }
    requires expansion { fault.now ≡ faults.Expand expansion.now }
    ensures { IfOk result (λ findings. (found : List Placed) → IsSplit found files.now.read → ReportsAt (IsFaultAt (meanings_in files.now.names) found files.now.joined fault.now) fault.now findings.items) }
{
    match expansion {
        ExpandFault::Arity { instance } => arity_fault(alloc, files, instance, fault),
        ExpandFault::Expansion { name } => named_fault(alloc, files, name, fault),
        ExpandFault::Memory => Err(Memory),
    }
}

/// The finding of a fault of inlining.
fn inlining_finding(
    alloc: Global,
    files: &JoinedFiles,
    inlining: &InlineFault,
    fault: &GrammarFault,
) -> Result<Vec<Finding<'static>>, Memory>
    requires places { HasPlaces files.now.read }
    requires inlining { fault.now ≡ faults.Inline inlining.now }
    ensures { IfOk result (λ findings. (found : List Placed) → IsSplit found files.now.read → ReportsAt (IsFaultAt (meanings_in files.now.names) found files.now.joined fault.now) fault.now findings.items) }
{
    match inlining {
        InlineFault::InlineCycle { instance } => named_fault(alloc, files, instance, fault),
        InlineFault::InlineStart { name } => named_fault(alloc, files, name, fault),
        InlineFault::EmptyLanguage { name } => named_fault(alloc, files, name, fault),
        InlineFault::TooManyProductions => one_fault(alloc, ALL_FILES, fault),
        InlineFault::Memory => Err(Memory),
    }
}

/// The finding of a fault of instances.
fn instances_finding(
    alloc: Global,
    files: &JoinedFiles,
    fault: &GrammarFault,
) -> Result<Vec<Finding<'static>>, Memory>
    requires places { HasPlaces files.now.read }
    ensures { IfOk result (λ findings. (found : List Placed) → IsSplit found files.now.read → ReportsAt (IsFaultAt (meanings_in files.now.names) found files.now.joined fault.now) fault.now findings.items) }
{
    match fault {
        GrammarFault::Expand(expansion) => expansion_finding(alloc, files, expansion, fault),
        GrammarFault::Inline(inlining) => inlining_finding(alloc, files, inlining, fault),
        // Joined files have no fault of joining.
        GrammarFault::Join(_) | GrammarFault::Memory => Err(Memory),
    }
}

/// Files whose instances have this fault. `drop` frees the files and the fault at once, because freeing one field after
/// the other at the end of the scope takes long to prove.
fn instances_fault(
    alloc: Global,
    files: JoinedFiles,
    fault: GrammarFault,
) -> Result<Examined, Memory>
    requires places { HasPlaces files.read }
    requires cause { HasCauseOrMemory (IsJoinedFault files.joined) fault }
    ensures examined { IfOk result (λ e. (given : List Given) (prelude : Bool) (found : List Placed) → AreJoinedFiles prelude given found files → IsExaminedAs given prelude e) }
    ensures ready { IfOk result IsExaminedReady }
{
    let found = instances_finding(alloc, &files, &fault);
    drop(files);
    drop(fault);
    let findings = found?;
    Ok(Examined::Faulty { findings })
}

/// The grammar of expanded files, or the first fault of their instances.
fn with_expanded(alloc: Global, files: JoinedFiles, expanded: Expanded) -> Result<Examined, Memory>
    requires joined { AreJoinedReady files }
    requires expands { IsExpanded files.joined expanded }
    requires expanded { IsExpandedReady expanded }
    ensures examined { IfOk result (λ e. (given : List Given) (prelude : Bool) (found : List Placed) → AreJoinedFiles prelude given found files → IsExaminedAs given prelude e) }
    ensures ready { IfOk result IsExaminedReady }
{
    match inline_rules(alloc, &expanded) {
        Ok(grammar) => Ok(Examined::Accepted {
            files: AcceptedFiles {
                read: files.read,
                names: files.names,
                joined: files.joined,
                expanded,
            },
            grammar,
        }),
        Err(fault) => {
            drop(expanded);
            instances_fault(alloc, files, GrammarFault::from(fault))
        }
    }
}

/// The grammar of joined files, or the first fault of their instances.
fn with_joined(alloc: Global, files: JoinedFiles) -> Result<Examined, Memory>
    requires { AreJoinedReady files }
    ensures examined { IfOk result (λ e. (given : List Given) (prelude : Bool) (found : List Placed) → AreJoinedFiles prelude given found files → IsExaminedAs given prelude e) }
    ensures ready { IfOk result IsExaminedReady }
{
    match expand(alloc, &files.joined) {
        Ok(expanded) => with_expanded(alloc, files, expanded),
        Err(fault) => instances_fault(alloc, files, GrammarFault::from(fault)),
    }
}

/// Files that cannot be joined, with all faults of their names. Fails only if memory runs out, or ran out in joining.
fn names_fault(
    alloc: Global,
    read: &ReadFiles,
    names: &SymbolTables,
    fault: &JoinFault,
) -> Result<Examined, Memory>
    requires places { HasPlaces read.now }
    requires kinds { HasRuleKinds names.now }
    ensures examined { IfOk result (λ e. (given : List Given) (prelude : Bool) (found : List Placed) → AreRead given found → IsSplit found read.now → HasMeanings prelude read.now.modules.items names.now
        → Joins prelude read.now.modules.items (Err fault.now) → IsExaminedAs given prelude e) }
    ensures ready { IfOk result IsExaminedReady }
{
    if let JoinFault::Memory = fault {
        return Err(Memory);
    }
    let findings = join_findings(alloc, read, names)?;
    Ok(Examined::Faulty { findings })
}

/// The grammar of files whose names are gathered, or their faults.
fn with_names(
    alloc: Global,
    read: ReadFiles,
    names: SymbolTables,
    prelude: bool,
    from_prelude: &[Rule],
) -> Result<Examined, Memory>
    requires places { HasPlaces read }
    requires names { HasMeanings prelude read.modules.items names }
    requires ready { AreModulesReady read.modules.items }
    requires from_prelude { from_prelude.now ≡ prelude_spec.prelude_rules prelude }
    ensures examined { IfOk result (λ e. (given : List Given) (found : List Placed) → AreRead given found → IsSplit found read → IsExaminedAs given prelude e) }
    ensures ready { IfOk result IsExaminedReady }
{
    match join_named(
        alloc,
        &names,
        read.modules.as_slice(),
        prelude,
        from_prelude,
    ) {
        Ok(joined) => with_joined(
            alloc,
            JoinedFiles {
                read,
                names,
                joined,
            },
        ),
        Err(fault) => {
            let examined = names_fault(alloc, &read, &names, &fault);
            drop(read);
            drop(names);
            drop(fault);
            examined
        }
    }
}

/// The grammar of files that were read, or their faults.
fn examine_read(
    alloc: Global,
    read: ReadFiles,
    prelude: bool,
    from_prelude: &[Rule],
) -> Result<Examined, Memory>
    requires places { HasPlaces read }
    requires ready { AreModulesReady read.modules.items }
    requires from_prelude { from_prelude.now ≡ prelude_spec.prelude_rules prelude }
    ensures examined { IfOk result (λ e. (given : List Given) (found : List Placed) → AreRead given found → IsSplit found read → IsExaminedAs given prelude e) }
    ensures ready { IfOk result IsExaminedReady }
{
    let names = names_of(alloc, read.modules.as_slice(), prelude, from_prelude)?;
    with_names(alloc, read, names, prelude, from_prelude)
}

/// Examines the files of a grammar, with the prelude or without, and returns their grammar or their faults: the first
/// syntax fault of each file; if there is none, all faults for which the files cannot be joined, each at its place; if
/// there is none, the first fault of the instances. Files that are accepted meet the conditions of the calls that
/// report on them. Fails only if memory runs out.
pub fn examine(alloc: Global, files: &[GrammarFile], prelude: bool) -> Result<Examined, Memory>
    requires { AreShort files.now }
    ensures examined { IfOk result (IsExaminedAs files.now prelude) }
    ensures within { IfOk result (AreFaultsWithin files.now) }
    ensures ready { IfOk result IsExaminedReady }
{
    let mut findings = Vec::new(alloc);
    let read = read_files(alloc, files, &mut findings)?;
    if !findings.is_empty() {
        return Ok(Examined::Faulty { findings });
    }
    let from_prelude = prelude_rules(alloc, prelude)?;
    examine_read(alloc, read, prelude, from_prelude.as_slice())
}
