//! The warnings on an accepted grammar.
ghost use Rattle.std.specs.Prelude.{◌≡◌, ◌<◌, ◌≤◌, ◌+◌, ◌++◌, ◌↔◌, ◌⊎◌, ◌||◌, ◌∷◌, [], Bool, false, true, List, Some, length, map, take, drop, codes, position, slice_get, IfOk, IsTrue, OnOk};
ghost use Rattle.std.specs.List.{All, Contains, enumerate_from};
ghost use Rattle.std.specs.HashMap.{get};
ghost use Rattle.std.specs.HashSet.{contains};
ghost use Rattle.mh_grammar.specs.Plain.{plain_of};
ghost use Rattle.mh_items.specs.Fitting.{FitsSets};
ghost use Rattle.mh_items_kernels.specs.Automaton.{IsAutomaton};
ghost use Rattle.mh_join_names.specs.Faults.{meanings, text_of as text_of_ref};
ghost use Rattle.mh_join_names.specs.code.SymbolTables.{meanings_in};
ghost use Rattle.mh_lint_faults.specs.FaultLines as faults;
ghost use Rattle.mh_lint.specs.declared.warning_walk.ActualOf.{ActualOf as Actual};
ghost use Rattle.mh_resolve_cells.specs.Conflicts.{AreConflicts};
ghost use Rattle.mh_resolve_cells.specs.States.{IsTableOf};
ghost use Rattle.mh_resolve_cells.specs.declared.kinds.Mode.{Mode};
ghost use Rattle.mh_lint_faults.specs.Stages.{Stages, modules_of};
ghost use Rattle.mh_lint.specs.Warnings.{AreWarningLines};
ghost use Rattle.mh_lint_faults.specs.code.Examining.{AreAcceptedReady, AreStages};
ghost use Rattle.mh_lint_faults.specs.code.ReadFiles.{HasPlaces, IsSplit};
ghost use Rattle.mh_lint_findings.specs.Lines.{lines_of};
ghost use Rattle.mh_lint_findings.specs.Positions.{IsPositionWithin};
ghost use Rattle.mh_lint_findings.specs.LinesInOrder.{AreInOrder};
ghost use Rattle.mh_lint_findings.specs.code.AppendedLines.{AppendsLines};
ghost use Rattle.mh_grammar.specs.Text.{Text};
ghost use Rattle.mh_join_names.specs.Names as names_spec;
ghost use Rattle.mh_join_names.specs.Names.{marks_public, same};
ghost use Rattle.mh_lint_states.specs.code.Marks.{AreMarked, Marks};
ghost use Rattle.mh_lint_states.specs.code.ShownStates.{AreFlagsOf};
ghost use Rattle.mh_reader_places.specs.declared.mentions.Mention.{Mention as MentionOf};
ghost use Rattle.mh_reader_places.specs.declared.reading.PlacedModule.{PlacedModule as Placed};
ghost use Rattle.mh_lint.specs.Warnings.{AreLinesOfFile, AreNameLines, IsNoneBefore, cost_line};
ghost use Rattle.mh_lint.specs.code.LevelUses.{PutsOwn};
ghost use Rattle.mh_lint.specs.code.Uses.{IsTokenInUse};
ghost use Rattle.mh_lint.specs.code.MentionUses.{IsActualWarning, AreLinesOfFileAt, AreUses, AreUsesAfterFile, Checked, IsBefore, IsBeforeFile, IsInFile, IsShownBy, IsUnusedDeclaration, IsUnusedPrec, IsWarningFound, flag_at, level_text, next_file, repeated_lines, text_unless_set, warning_lines};

use crate::levels::{UsedLevels, put_own, used_levels};
use crate::on_error::{DeclaredName, declared_name, used_declarations};
use crate::sources::level_sources;
use crate::uses::{prec_tokens, used_rules, used_tokens};
use mh_grammar::{Grammar, Memory, Name};
use mh_items_kernels::Automaton;
use mh_join_names::{Aliases, SymbolTables, name_by, put_name};
use mh_lint_faults::{AcceptedFiles, FileNames, file_names, has_key, put_key, rule_at, text_of};
use mh_lint_findings::{Finding, FindingText, GrammarFile, Position, finding_at};
use mh_lint_states::{ShownByStates, automaton_findings, shown_by_states};
use mh_reader_places::{Mention, Role};
use mh_resolve_cells::Conflict;
use mh_rules::{Joined, Ref};
use mh_tables_core::Table;
use std::alloc::Global;
use std::collections::HashSet;

/// A grammar with its automaton, its table and the conflicts.
#[derive(Drop)]
pub struct BuiltGrammar<'a, const W: usize> {
    pub grammar: &'a Grammar,
    pub automaton: &'a Automaton<W>,
    pub table: &'a Table,
    pub conflicts: &'a [Conflict],
}

/// An actual of an `%on_error_reduce` declaration of a file; both are counted from 0.
#[derive(Clone, Copy, PartialEq, Eq, Hash, Drop)]
struct ActualOf {
    rank: u64,
    item: u64,
}

/// What the names of the files are used for, during the walk over the mentions. The walk sets the flag of a token after
/// its first declaration, and the flag of a rule after its first definition, so that only this mention gets a warning.
struct Uses {
    tokens: Vec<bool>,
    rules: Vec<bool>,
    levels: UsedLevels,
    declarations: HashSet<DeclaredName>,
    /// The number of `%on_error_reduce` declarations of the files before.
    declarations_before: usize,
    /// The alternatives of the current file that have a `%prec` of their own so far.
    own: HashSet<u64>,
    /// The actuals of the `%on_error_reduce` declarations of the current file so far.
    actuals: HashSet<ActualOf>,
}

// The exit of a function drops this value by one call. With the derived destructor it would drop each field.
impl Drop for Uses {
    fn drop(self) {
        let Uses {
            tokens,
            rules,
            levels,
            declarations,
            declarations_before: _,
            own,
            actuals,
        } = self;
        drop(tokens);
        drop(rules);
        drop(levels);
        drop(declarations);
        drop(own);
        drop(actuals);
    }
}

/// Whether there is a flag with this number that is not set.
fn is_unset(flags: &[bool], number: usize) -> bool
    ensures { IsTrue result ↔ (slice_get flags.now number ≡ Some false) }
{
    match flags.get(number) {
        Some(is_set) => !*is_set,
        None => false,
    }
}

/// The warning, if there is a flag with this number that is not set. Sets the flag.
fn warning_unless_set<'a>(
    flags: &mut [bool],
    number: Option<usize>,
    words: &'a [u8],
    name: &'a [u8],
) -> Option<FindingText<'a>>
    ensures warning { result ≡ text_unless_set (flag_at flags.old number) (words.now ++ name.now) }
    ensures flags { Marks (λ n. (number ≡ Some n) × (n < length flags.old)) flags.old flags.new }
{
    let Some(number) = number else {
        return None;
    };
    if is_unset(flags, number) {
        flags[number] = true;
        return Some(FindingText::with_name(words, name));
    }
    None
}

/// The warning on a name or string in a level declaration.
fn level_warning<'a>(
    aliases: &'a Aliases,
    levels: &UsedLevels,
    reference: &'a Ref,
) -> Option<FindingText<'a>>
    ensures { result ≡ level_text (λ x. contains same levels.now.names x) (names_spec.name_by (λ a. get same aliases.now a) reference.now) }
{
    let name = name_by(aliases, reference)?;
    if levels.has_name(name) {
        return None;
    }
    Some(FindingText::with_name(b"level without use: ", name.as_slice()))
}

/// The warning on a name or string after `%prec`.
fn prec_warning<'a>(
    levels: &UsedLevels,
    file: u64,
    own: &mut HashSet<u64>,
    mention: &'a Mention,
) -> Result<Option<FindingText<'a>>, Memory>
    ensures warning { IfOk result (IsUnusedPrec levels.now.alternatives.keys file own.old.keys mention.now) }
    ensures own { OnOk result (PutsOwn mention.now.role own.old.keys own.new.keys) }
{
    let is_used = levels.has_prec(file, own, mention.role);
    put_own(own, mention.role)?;
    if is_used {
        return Ok(None);
    }
    let name = text_of(&mention.name);
    Ok(Some(FindingText::with_name(b"level without use: %prec ", name.as_slice())))
}

/// The warning on an actual of an `%on_error_reduce` declaration.
fn declaration_warning<'a>(
    alloc: Global,
    joined: &Joined,
    declarations: &HashSet<DeclaredName>,
    before: usize,
    actual: ActualOf,
) -> Result<Option<FindingText<'a>>, Memory>
    ensures { IfOk result (IsUnusedDeclaration joined.now declarations.now.keys before actual.rank actual.item) }
{
    let Some(found) = declared_name(alloc, joined, before, actual.rank, actual.item)? else {
        return Ok(None);
    };
    if has_key(declarations, &found) {
        return Ok(None);
    }
    let mut text = Vec::new(alloc);
    text.extend_from_slice(b"reduction on errors without use: ")?;
    text.extend_from_slice(found.name.as_slice())?;
    Ok(Some(FindingText::from_vec(text)))
}

/// The warning on a head of an actual of an `%on_error_reduce` declaration. Only the first head of an actual has one.
fn on_error_warning<'a>(
    alloc: Global,
    joined: &Joined,
    declarations: &HashSet<DeclaredName>,
    before: usize,
    actuals: &mut HashSet<ActualOf>,
    actual: ActualOf,
) -> Result<Option<FindingText<'a>>, Memory>
    ensures warning { IfOk result (IsActualWarning joined.now declarations.now.keys before actuals.old.keys actual) }
    ensures actuals { OnOk result ((a : Actual) → Contains actuals.new.keys a ↔ (Contains actuals.old.keys a ⊎ (a ≡ actual))) }
{
    if !put_key(actuals, actual)? {
        return Ok(None);
    }
    declaration_warning(alloc, joined, declarations, before, actual)
}

/// The warning on a declared token.
fn token_warning<'a>(
    flags: &mut [bool],
    names: &SymbolTables,
    name: &'a Name,
) -> Option<FindingText<'a>>
    ensures warning { result ≡ text_unless_set (flag_at flags.old (position (same name.now) names.now.tokens.keys)) (codes "unused token: " ++ name.now) }
    ensures flags { Marks (λ n. (position (same name.now) names.now.tokens.keys ≡ Some n) × (n < length flags.old)) flags.old flags.new }
{
    let number = names.tokens.place_of(name);
    warning_unless_set(flags, number, b"unused token: ", name.as_slice())
}

/// The number of a rule as an index.
fn index_of(number: Option<u64>) -> Option<usize>
    ensures { result ≡ number }
{
    match number {
        Some(number) => Some(number as usize),
        None => None,
    }
}

/// The warning on the name of a rule.
fn rule_warning<'a>(
    flags: &mut [bool],
    names: &SymbolTables,
    file: &FileNames<'_>,
    mention: &'a Mention,
) -> Option<FindingText<'a>>
    requires public { (x : Text) → contains same file.now.public x ≡ marks_public file.now.module.now.rules x }
    ensures warning { result ≡ text_unless_set (flag_at flags.old (faults.rule_at (meanings_in names.now) file.now.number file.now.module.now mention.now)) (codes "unreachable rule: " ++ text_of_ref mention.now.name) }
    ensures flags { Marks (λ n. (faults.rule_at (meanings_in names.now) file.now.number file.now.module.now mention.now ≡ Some n) × (n < length flags.old)) flags.old flags.new }
{
    let number = index_of(rule_at(names, file, mention));
    let name = text_of(&mention.name);
    warning_unless_set(flags, number, b"unreachable rule: ", name.as_slice())
}

impl Uses {
    /// The warning at a mention, if there is one. The uses are those after the mention from then on.
    fn warning_at<'a>(
        &mut self,
        alloc: Global,
        files: &'a AcceptedFiles,
        file: &FileNames<'_>,
        mention: &'a Mention,
    ) -> Result<Option<FindingText<'a>>, Memory>
        requires public { (x : Text) → contains same file.now.public x ≡ marks_public file.now.module.now.rules x }
        ensures warning { (c : Checked) (before : List MentionOf) → IsBefore c files.now file.now.number file.now.module.now before mention.now self.old → IfOk result (IsWarningFound c.stages c.built c.meanings c.file before mention.now) }
        ensures uses { (c : Checked) (before : List MentionOf) → IsBefore c files.now file.now.number file.now.module.now before mention.now self.old → OnOk result (AreUses c.stages c.built c.meanings c.file (before ++ mention.now ∷ []) self.new) }
    {
        match mention.role {
            Role::Token => {
                let name = text_of(&mention.name);
                Ok(token_warning(&mut self.tokens, &files.names, name))
            }
            Role::Rule => Ok(rule_warning(&mut self.rules, &files.names, file, mention)),
            Role::Level { .. } => Ok(level_warning(
                &files.names.aliases,
                &self.levels,
                &mention.name,
            )),
            Role::Prec { .. } | Role::GroupPrec { .. } => {
                prec_warning(&self.levels, file.number, &mut self.own, mention)
            }
            Role::OnError { rank, item } => on_error_warning(
                alloc,
                &files.joined,
                &self.declarations,
                self.declarations_before,
                &mut self.actuals,
                ActualOf { rank, item },
            ),
            _ => Ok(None),
        }
    }
}

/// Returns how many of these rising positions come before a place.
fn costs_before(costs: &[usize], place: usize) -> usize
    ensures within { result ≤ length costs.now }
    ensures before { All (λ start. start < place) (take result costs.now) }
    ensures none { IsNoneBefore (drop result costs.now) place }
{
    for (count, start) in costs.iter().enumerate() {
        if *start >= place {
            return count;
        }
    }
    costs.len()
}

/// Appends the warning on an attribute that begins with `[@cost` and gives no cost.
fn put_cost(file: usize, start: usize, findings: &mut Vec<Finding<'_>>) -> Result<(), Memory>
    ensures { OnOk result (lines_of findings.new.items ≡ lines_of findings.old.items ++ cost_line file start ∷ []) }
{
    let at = Position::InFile { file, start };
    findings.push(finding_at(at, b"attribute without a cost"))?;
    Ok(())
}

/// Appends the warnings on the attributes at these positions, which give no cost.
fn put_costs(file: usize, costs: &[usize], findings: &mut Vec<Finding<'_>>) -> Result<(), Memory>
    ensures { OnOk result (lines_of findings.new.items ≡ lines_of findings.old.items ++ map (cost_line file) costs.now) }
{
    for start in costs {
        put_cost(file, *start, findings)?;
    }
    Ok(())
}

/// Appends a warning at a place of a file, if there is one.
fn put_warning<'a>(
    file: usize,
    start: usize,
    found: Option<FindingText<'a>>,
    findings: &mut Vec<Finding<'a>>,
) -> Result<(), Memory>
    ensures { OnOk result (lines_of findings.new.items ≡ lines_of findings.old.items ++ warning_lines file start found.entry) }
{
    let Some(text) = found else {
        return Ok(());
    };
    findings.push(Finding {
        at: Position::InFile { file, start },
        text,
    })?;
    Ok(())
}

/// Appends the lines of a file, in the order of places. The uses are those before the first mention of the file.
fn put_mention_lines<'a>(
    alloc: Global,
    uses: &mut Uses,
    files: &'a AcceptedFiles,
    file: &FileNames<'_>,
    at: usize,
    findings: &mut Vec<Finding<'a>>,
) -> Result<(), Memory>
    requires public { (x : Text) → contains same file.now.public x ≡ marks_public file.now.module.now.rules x }
    requires places { HasPlaces files.now.read }
    requires at { at < length files.now.read.modules.items }
    requires number { file.now.number ≡ at + 1 }
    ensures lines { (c : Checked) → IsInFile c files.now file.now.number file.now.module.now [] uses.old → OnOk result (AppendsLines (AreLinesOfFileAt c at) findings.old.items findings.new.items) }
    ensures uses { (c : Checked) → IsInFile c files.now file.now.number file.now.module.now [] uses.old → OnOk result (AreUsesAfterFile c uses.new) }
{
    let mut costs = files.read.bad_costs[at].as_slice();
    for mention in files.read.mentions[at].as_slice() {
        let (before, after) = costs.split_at(costs_before(costs, mention.start));
        put_costs(at, before, findings)?;
        costs = after;
        let found = uses.warning_at(alloc, files, file, mention)?;
        put_warning(at, mention.start, found, findings)?;
    }
    put_costs(at, costs, findings)
}

/// The number of declarations of all files up to a file with this number of declarations, which is no greater than the
/// number of all declarations.
fn declarations_after(before: usize, count: usize, all: usize) -> usize
    ensures { before + count ≤ all → result ≡ before + count }
{
    before.saturating_add(count).min(all)
}

/// Appends the lines of a file, in the order of places. The uses are those after the file from then on.
fn put_file_lines<'a>(
    alloc: Global,
    uses: &mut Uses,
    files: &'a AcceptedFiles,
    at: usize,
    findings: &mut Vec<Finding<'a>>,
) -> Result<(), Memory>
    requires places { HasPlaces files.now.read }
    requires at { at < length files.now.read.modules.items }
    ensures lines { (c : Checked) → IsBeforeFile c files.now at uses.old → OnOk result (AppendsLines (AreLinesOfFileAt c at) findings.old.items findings.new.items) }
    ensures uses { (c : Checked) → IsBeforeFile c files.now at uses.old → OnOk result (IsBeforeFile (next_file c) files.now (at + 1) uses.new) }
{
    let file = file_names(alloc, at as u64 + 1, &files.read.modules[at])?;
    uses.own = HashSet::new(alloc);
    uses.actuals = HashSet::new(alloc);
    put_mention_lines(alloc, uses, files, &file, at, findings)?;
    uses.declarations_before = declarations_after(
        uses.declarations_before,
        file.module.on_error.len(),
        files.joined.on_error.len(),
    );
    Ok(())
}

/// For each token whether some alternative has it, or a `%prec` of the files has its name.
fn tokens_in_use(alloc: Global, files: &AcceptedFiles) -> Result<Vec<bool>, Memory>
    requires { AreAcceptedReady files.now }
    ensures len { IfOk result (λ used. length used.items ≡ length files.now.names.tokens.keys) }
    ensures used { (found : List Placed) → IsSplit found files.now.read → IfOk result (λ used. AreMarked (IsTokenInUse files.now.joined files.now.names.tokens.keys (λ a. get same files.now.names.aliases a) found) used.items) }
{
    let mut used = used_tokens(alloc, &files.joined)?;
    let named = prec_tokens(alloc, &files.names, &files.read)?;
    mark_names(&mut used, files.names.tokens.as_slice(), &named);
    Ok(used)
}

/// What the names of the files are used for.
fn uses_of(
    alloc: Global,
    files: &AcceptedFiles,
    grammar: &Grammar,
    shown: &ShownByStates,
) -> Result<Uses, Memory>
    requires ready { AreAcceptedReady files.now }
    requires flags { AreFlagsOf grammar.now shown.now }
    ensures { (c : Checked) → c.file ≡ 0 → IsShownBy c files.now grammar.now shown.now → IfOk result (IsBeforeFile c files.now 0) }
{
    let tokens = tokens_in_use(alloc, files)?;
    let rules = used_rules(alloc, &files.joined, &files.expanded)?;
    let sources = level_sources(alloc, &files.expanded)?;
    let levels = used_levels(
        alloc,
        &files.names,
        &files.read,
        sources.as_slice(),
        &shown.compared,
        grammar.starts.len(),
    )?;
    let declarations = used_declarations(alloc, grammar, shown.on_errors.as_slice())?;
    Ok(Uses {
        tokens,
        rules,
        levels,
        declarations,
        declarations_before: 0,
        own: HashSet::new(alloc),
        actuals: HashSet::new(alloc),
    })
}

/// Marks a token, if its name is one of these.
fn mark_name(used: &mut [bool], token: usize, name: &Name, names: &HashSet<Name>)
    requires { token < length used.old }
    ensures { Marks (λ z. (z ≡ token) × (contains same names.now name.now ≡ true)) used.old used.new }
{
    if names.contains(name) {
        used[token] = true;
    }
}

/// Marks the tokens that have one of these names.
fn mark_names(used: &mut [bool], tokens: &[Name], names: &HashSet<Name>)
    requires { length used.old ≡ length tokens.now }
    ensures { Marks (λ z. (x : Text) × (slice_get tokens.now z ≡ Some x) × (contains same names.now x ≡ true)) used.old used.new }
{
    for (token, name) in tokens.iter().enumerate() {
        mark_name(used, token, name, names);
    }
}

/// Appends the lines of all files.
fn put_lines<'a>(
    alloc: Global,
    files: &'a AcceptedFiles,
    grammar: &Grammar,
    shown: &ShownByStates,
    findings: &mut Vec<Finding<'a>>,
) -> Result<(), Memory>
    requires ready { AreAcceptedReady files.now }
    requires flags { AreFlagsOf grammar.now shown.now }
    ensures { (c : Checked) → c.file ≡ 0 → IsShownBy c files.now grammar.now shown.now → OnOk result (AppendsLines (AreInOrder (AreLinesOfFile c.stages c.built c.meanings) (enumerate_from 0 c.stages.found)) findings.old.items findings.new.items) }
{
    let mut uses = uses_of(alloc, files, grammar, shown)?;
    for at in 0..files.read.modules.len() {
        put_file_lines(alloc, &mut uses, files, at, findings)?;
    }
    Ok(())
}

/// Appends the warning on a file, if an earlier file has its name. Records the name.
fn put_if_repeated(
    seen: &mut HashSet<Name>,
    file: usize,
    name: &Name,
    findings: &mut Vec<Finding<'_>>,
) -> Result<(), Memory>
    ensures names { OnOk result ((x : Text) → contains same seen.new x ≡ (contains same seen.old x || same x name.now)) }
    ensures lines { OnOk result (lines_of findings.new.items ≡ lines_of findings.old.items ++ repeated_lines (contains same seen.old name.now) file) }
{
    if put_name(seen, name)? {
        return Ok(());
    }
    let at = Position::OfFile { file };
    findings.push(finding_at(at, b"file named twice"))?;
    Ok(())
}

/// Appends the warnings on the files whose name an earlier file has.
fn put_repeated(
    alloc: Global,
    named: &[GrammarFile],
    findings: &mut Vec<Finding<'_>>,
) -> Result<(), Memory>
    ensures { OnOk result (AppendsLines (AreInOrder (AreNameLines (map (λ file. file.name) named.now)) (enumerate_from 0 (map (λ file. file.name) named.now))) findings.old.items findings.new.items) }
{
    let mut seen = HashSet::new(alloc);
    for (number, file) in named.iter().enumerate() {
        put_if_repeated(&mut seen, number, &file.name, findings)?;
    }
    Ok(())
}

/// Returns the warnings on an accepted grammar, of its files and of its automaton. `named` has the names and bytes of
/// the files, and `files` what was read in them, which lends its names to the texts. Fails only if memory runs out.
pub fn warnings<'a, const W: usize>(
    alloc: Global,
    named: &[GrammarFile],
    files: &'a AcceptedFiles,
    built: &BuiltGrammar<'_, W>,
) -> Result<Vec<Finding<'a>>, Memory>
    requires files { AreAcceptedReady files.now }
    requires fits { FitsSets W built.now.grammar.now }
    requires automaton { IsAutomaton (plain_of built.now.grammar.now) built.now.automaton.now }
    requires table { (mode : Mode) × IsTableOf built.now.grammar.now built.now.automaton.now mode built.now.table.now }
    requires conflicts { AreConflicts built.now.grammar.now built.now.automaton.now built.now.conflicts.now }
    ensures within { (prelude : Bool) (s : Stages) → AreStages prelude named.now files.now built.now.grammar.now s → IfOk result (λ found. All (λ f. IsPositionWithin named.now f.at) found.items) }
    ensures lines { (prelude : Bool) (s : Stages) → AreStages prelude named.now files.now built.now.grammar.now s
        → IfOk result (λ found. AreWarningLines (map (λ file. file.name) named.now) s (record { automaton = built.now.automaton.now; table = built.now.table.now; conflicts = built.now.conflicts.now }) (meanings prelude (modules_of s.found)) (lines_of found.items)) }
{
    let shown = shown_by_states(alloc, built.grammar, built.automaton, built.table)?;
    let mut findings = Vec::new(alloc);
    put_lines(alloc, files, built.grammar, &shown, &mut findings)?;
    put_repeated(alloc, named, &mut findings)?;
    automaton_findings(
        alloc,
        built.grammar,
        built.automaton,
        built.conflicts,
        shown.reduced.as_slice(),
        &mut findings,
    )?;
    Ok(findings)
}
