//! The mode of `--check`: it reads the grammar files, examines them, and then writes the lines on them.
ghost use Rattle.std.specs.Prelude.{◌≡◌, ◌≤◌, ◌||◌, ◌&&◌, ◌∷◌, [], Bool, true, length, map, IfOk};
ghost use Rattle.std.specs.List.{All};
ghost use Rattle.mh_join_names.specs.Faults.{has_some, meanings};
ghost use Rattle.mh_lint_faults.specs.Stages.{Stages, modules_of};
ghost use Rattle.mh_lint.specs.Warnings.{AreWarningLines};
ghost use Rattle.mh_grammar.specs.Plain.{plain_of, IsInRange};
ghost use Rattle.mh_items.specs.Fitting.{FitsSets};
ghost use Rattle.mh_lint_faults.specs.code.Examining.{AreAcceptedReady, AreStages};
ghost use Rattle.mh_lint_findings.specs.Lines.{lines_of};
ghost use Rattle.mh_lint_findings.specs.Positions.{IsPositionWithin};
ghost use Rattle.mh_lint_findings.specs.code.Cursors.{AreShort};
ghost use Rattle.mh_lint_findings.specs.declared.findings.Position.TheVariants.{OfAutomaton};
ghost use Rattle.mh_opts.specs.Orders.{IsWithinLimits};
ghost use Rattle.mh_opts.specs.declared.jobs.Job.TheVariants.{Check};
ghost use Rattle.mh_rules.specs.Limits.{max_tokens};
ghost use Rattle.mh_top_check.specs.Examination.{IsBareLine, IsNextOfCheck, IsPlanOfCheck, built_of};
ghost use Rattle.mh_top_check.specs.code.Findings.{AllowsTable, AreTablesNext, ExaminesAutomaton, GivesFinding, IsAcceptedBy, IsPlanOfFiles};
ghost use Rattle.mh_top_drive.specs.code.ModeCalls.{InputAndOutCounts, ModeShelfCounts};
ghost use Rattle.mh_top_drive.specs.declared.stop.Stop.TheVariants.{Halted};
ghost use Rattle.mh_top_plans.specs.code.Modes.{OpenedAndRan};
ghost use Rattle.mh_top_prepare.specs.MayAskForTables.{MayAskForTables};
ghost use Rattle.mh_top_drive.specs.code.Prepared.{IsConsistent};

use crate::writing::write_findings;
use mh_grammar::{Memory, Sequence, from_bytes};
use mh_lint::{
    AcceptedFiles, BuiltGrammar, Examined, Finding, FindingText, GrammarFile, Position, examine,
    warnings,
};
use mh_opts::Order;
use mh_outside::{Shelf, Sink, Source};
use mh_sets::with_width;
use mh_top_drive::{Cause, FileFormat, OrderAndGrammar, Prepared, Stop, read_files, refused};
use mh_top_plans::{Writer, write_at_end};
use mh_top_prepare::prepare;
use std::alloc::Global;

/// The form of files that are examined: any bytes are a file.
#[derive(Drop)]
struct ExaminedFiles;

impl FileFormat<GrammarFile> for ExaminedFiles {
    ghost use Rattle.mh_top_check.specs.Examination.{IsGrammarFile};

    ghost Spells = { λ s. IsGrammarFile };

    fn spell(&self, alloc: Global, name: &[u8], bytes: Vec<u8>) -> Result<GrammarFile, Stop> {
        Ok(GrammarFile {
            name: from_bytes(alloc, name)?,
            bytes: Sequence::from_vec(bytes),
        })
    }
}

/// What was found in the grammar files.
#[derive(Drop)]
struct Found<'a> {
    /// Whether the findings are faults; otherwise they are warnings.
    are_faults: bool,
    findings: Vec<Finding<'a>>,
}

/// The mode of `--check`, as a writer of the lines on the grammar files.
#[derive(Drop)]
struct GrammarFindings<'a> {
    files: &'a [GrammarFile],
    found: Found<'a>,
    strict: bool,
}

/// Returns true if the work is refused: if the findings are faults, and under `--strict` if there is a finding.
fn is_refused(found: &Found<'_>, strict: bool) -> bool
    ensures { result ≡ (found.now.are_faults || (strict && has_some found.now.findings.items)) }
{
    found.are_faults || (strict && !found.findings.is_empty())
}

impl<'a> Writer for GrammarFindings<'a> {
    ghost use Rattle.mh_lint_findings.specs.Lines.{lines_of};
    ghost use Rattle.mh_top_check.specs.code.Findings.{AreReportable};
    ghost use Rattle.mh_top_plans.specs.Plan.{Findings};

    ghost is_ready = { λ s. AreReportable s.files.now s.found.findings.items };

    ghost end = { λ s. Findings s.files.now s.strict s.found.are_faults (lines_of s.found.findings.items) };

    fn write<O: Sink>(self, alloc: Global, out: &mut O) -> Result<(), Stop> {
        let findings = self.found.findings.as_slice();
        match write_findings(alloc, self.files, findings, out) {
            Ok(()) if is_refused(&self.found, self.strict) => Err(refused(alloc, b"", b"", b"")),
            Ok(()) => Ok(()),
            Err(stop) => Err(stop),
        }
    }
}

/// The line on err of a refusal, without the name of the program and the end of the line. A line that lacks either is
/// returned as it is.
fn bare_line(line: &[u8]) -> &[u8]
    ensures { IsBareLine line.now result.now }
{
    let Some(rest) = line.strip_prefix(b"menhir: ") else {
        return line;
    };
    match rest.strip_suffix(b"\n") {
        Some(bare) => bare,
        None => line,
    }
}

/// The finding for a refusal with this line.
fn refusal_finding<'a>(alloc: Global, line: &[u8]) -> Result<Finding<'a>, Memory>
    ensures { IfOk result (λ found. (found.at ≡ OfAutomaton) × IsBareLine line.now found.text) }
{
    Ok(Finding {
        at: Position::OfAutomaton,
        text: FindingText::from_vec(bare_line(line).to_vec(alloc)?),
    })
}

/// The finding for a cause that refuses the grammar's automaton; any other cause stops the work.
fn finding_of_cause<'a>(alloc: Global, cause: Cause) -> Result<Finding<'a>, Stop>
    ensures { GivesFinding (Halted cause) result }
{
    match cause {
        Cause::Refused { line } => Ok(refusal_finding(alloc, line.as_slice())?),
        cause => Err(Stop::Halted { cause }),
    }
}

/// The finding for a stop that refuses the grammar's automaton; any other stop as it is.
fn finding_of<'a>(alloc: Global, stop: Stop) -> Result<Finding<'a>, Stop>
    ensures { GivesFinding stop result }
{
    match stop {
        Stop::Halted { cause } => finding_of_cause(alloc, cause),
        stop => Err(stop),
    }
}

/// What is found if the files have one fault.
fn one_fault<'a>(alloc: Global, finding: Finding<'a>) -> Result<Found<'a>, Memory>
    ensures { IfOk result (λ found. (found.are_faults ≡ true) × (found.findings.items ≡ finding.entry ∷ [])) }
{
    let mut findings = Vec::new(alloc);
    findings.push(finding)?;
    Ok(Found {
        are_faults: true,
        findings,
    })
}

/// The warnings on a prepared grammar. `named` has the names and bytes of the files, and `files` what was read in them.
fn warnings_of<'a, const W: usize>(
    alloc: Global,
    prepared: &Prepared<W>,
    named: &[GrammarFile],
    files: &'a AcceptedFiles,
) -> Result<Vec<Finding<'a>>, Memory>
    requires fits { FitsSets W prepared.now.grammar }
    requires consistent { IsConsistent prepared.now }
    requires ready { AreAcceptedReady files.now }
    ensures lines { (prelude : Bool) (s : Stages) → AreStages prelude named.now files.now prepared.now.grammar s
        → IfOk result (λ found. AreWarningLines (map (λ file. file.name) named.now) s (built_of prepared.now) (meanings prelude (modules_of s.found)) (lines_of found.items)) }
    ensures within { (prelude : Bool) (s : Stages) → AreStages prelude named.now files.now prepared.now.grammar s → IfOk result (λ found. All (λ f. IsPositionWithin named.now f.at) found.items) }
{
    let built = BuiltGrammar {
        grammar: &prepared.grammar,
        automaton: &prepared.tabled.automaton,
        table: prepared.tabled.halting.table(),
        conflicts: prepared.tabled.conflicts.as_slice(),
    };
    warnings(alloc, named, files, &built)
}

/// What is found in a grammar whose files have no fault: why the grammar has no table, or the warnings. `drop` frees
/// the table at once, because freeing one field after the other at the end of the scope takes long to prove.
fn examine_automaton<'a, F: Shelf, const W: usize>(
    alloc: Global,
    front: OrderAndGrammar,
    shelf: &mut F,
    named: &[GrammarFile],
    files: &'a AcceptedFiles,
) -> Result<Found<'a>, Stop>
    requires fits { FitsSets W front.grammar }
    requires front { AllowsTable front }
    requires tables { MayAskForTables front.order (F.MayAsk shelf.old) }
    requires accepted { IsAcceptedBy named.now files.now front }
    ensures found { ExaminesAutomaton (F.files shelf.old) front named.now result }
    ensures counts { ModeShelfCounts (F.faults shelf.old) (F.faults shelf.new) result }
    ensures kept { F.files shelf.new ≡ F.files shelf.old }
{
    match prepare::<F, W>(alloc, front, shelf) {
        Ok(prepared) => {
            let warned = warnings_of(alloc, &prepared, named, files);
            drop(prepared);
            let findings = warned?;
            Ok(Found {
                are_faults: false,
                findings,
            })
        }
        Err(stop) => match finding_of(alloc, stop) {
            Ok(finding) => Ok(one_fault(alloc, finding)?),
            Err(stop) => Err(stop),
        },
    }
}

/// What is found in a grammar, with the least width of lookahead sets that holds the tokens.
fn examine_at_width<'a, F: Shelf>(
    alloc: Global,
    front: OrderAndGrammar,
    shelf: &mut F,
    named: &[GrammarFile],
    files: &'a AcceptedFiles,
) -> Result<Found<'a>, Stop>
    requires tokens { length front.grammar.tokens ≤ max_tokens }
    requires range { IsInRange (plain_of front.grammar) }
    requires front { AllowsTable front }
    requires tables { MayAskForTables front.order (F.MayAsk shelf.old) }
    requires accepted { IsAcceptedBy named.now files.now front }
    ensures found { ExaminesAutomaton (F.files shelf.old) front named.now result }
    ensures counts { ModeShelfCounts (F.faults shelf.old) (F.faults shelf.new) result }
    ensures kept { F.files shelf.new ≡ F.files shelf.old }
{
    with_width!(front.grammar.tokens.len(); examine_automaton; F; alloc, front, shelf, named, files)
}

/// Examines grammar files that were read, and writes the lines on them. `drop` frees the accepted files at once, because
/// freeing one field after the other at the end of the scope takes long to prove.
fn check_files<F: Shelf, I: Source, O: Sink>(
    alloc: Global,
    order: Order,
    shelf: &mut F,
    named: &[GrammarFile],
    input: &mut I,
    out: &mut O,
) -> Result<(), Stop>
    requires short { AreShort named.now }
    requires limits { IsWithinLimits order.job }
    requires tables { MayAskForTables order (F.MayAsk shelf.old) }
    requires may_read { I.MayRead input.old }
    requires may_write { O.MayWrite out.old }
    ensures ran { OpenedAndRan (IsPlanOfFiles (F.files shelf.old) order named.now) (AreTablesNext order named.now)
        (I.left input.old) (I.left input.new) (O.written out.old) (O.written out.new) result }
    ensures counts { InputAndOutCounts (I.faults input.old) (I.faults input.new)
        (O.faults out.old) (O.faults out.new) result }
    ensures read { ModeShelfCounts (F.faults shelf.old) (F.faults shelf.new) result }
    ensures kept { F.files shelf.new ≡ F.files shelf.old }
{
    let strict = order.strict;
    match examine(alloc, named, order.stdlib)? {
        Examined::Faulty { findings } => {
            drop(order);
            let found = Found {
                are_faults: true,
                findings,
            };
            let mode = GrammarFindings {
                files: named,
                found,
                strict,
            };
            write_at_end(alloc, mode, input, out)
        }
        Examined::Accepted { files, grammar } => {
            let front = OrderAndGrammar { order, grammar };
            let ran = match examine_at_width(alloc, front, shelf, named, &files) {
                Ok(found) => {
                    let mode = GrammarFindings {
                        files: named,
                        found,
                        strict,
                    };
                    write_at_end(alloc, mode, input, out)
                }
                Err(stop) => Err(stop),
            };
            drop(files);
            ran
        }
    }
}

/// Reads the grammar files of the order, and runs the mode that writes a line for each fault of the files; if there is
/// none, for each warning. The work is refused if there is a fault, and under `--strict` if there is a line.
pub fn check_grammar<F: Shelf, I: Source, O: Sink>(
    alloc: Global,
    order: Order,
    shelf: &mut F,
    input: &mut I,
    out: &mut O,
) -> Result<(), Stop>
    requires job { order.job ≡ Check }
    requires limits { IsWithinLimits order.job }
    requires asked { All (F.MayAsk shelf.old) order.grammars }
    requires tables { MayAskForTables order (F.MayAsk shelf.old) }
    requires may_read { I.MayRead input.old }
    requires may_write { O.MayWrite out.old }
    ensures ran { OpenedAndRan (IsPlanOfCheck order (F.files shelf.old)) (IsNextOfCheck order (F.files shelf.old))
        (I.left input.old) (I.left input.new) (O.written out.old) (O.written out.new) result }
    ensures counts { InputAndOutCounts (I.faults input.old) (I.faults input.new)
        (O.faults out.old) (O.faults out.new) result }
    ensures read { ModeShelfCounts (F.faults shelf.old) (F.faults shelf.new) result }
    ensures kept { F.files shelf.new ≡ F.files shelf.old }
{
    let files = match read_files(alloc, shelf, &ExaminedFiles, order.grammars.as_slice()) {
        Ok(files) => files,
        Err(stop) => {
            drop(order);
            return Err(stop);
        }
    };
    check_files(alloc, order, shelf, files.as_slice(), input, out)
}
