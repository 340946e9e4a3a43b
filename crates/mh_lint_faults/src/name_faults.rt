//! The faults of names, each at the place of its name: the faults of which `join` reports the first.
ghost use Rattle.std.specs.Prelude.{◌≡◌, ◌<◌, ◌≤◌, ◌-◌, ◌++◌, ◌∷◌, [], ◌||◌, ◌&&◌, ◌↔◌, not, false, true, ℕ, List, Some, map, slice_get, if◌then◌else◌, IfOk, IsTrue, OnOk};
ghost use Rattle.std.specs.List.{Contains};
ghost use Rattle.std.specs.HashSet.{contains};
ghost use Rattle.mh_grammar.specs.declared.types.Assoc.TheVariants.{Left};
ghost use Rattle.mh_grammar.specs.Text.{Text};
ghost use Rattle.mh_join_names.specs.Names as names_spec;
ghost use Rattle.mh_join_names.specs.Names.{formal_number, level_in, marks_public, same};
ghost use Rattle.mh_join_names.specs.Faults as spec;
ghost use Rattle.mh_join_names.specs.Faults.{error_token, meant_by, other_kind, other_level, other_token, undefined, undefined_start, unknown_string, unless, unlevelled};
ghost use Rattle.mh_join_names.specs.code.SymbolTables.{formals_in, is_public_in, meanings_in};
ghost use Rattle.mh_reader_places.specs.declared.mentions.Mention.{Mention as MentionOf};
ghost use Rattle.mh_reader_places.specs.declared.mentions.Role.TheVariants as roles;
ghost use Rattle.mh_rules.specs.declared.modules.Ref.TheVariants.{Plain};
ghost use Rattle.mh_rules.specs.declared.modules.Module.{Module as ModuleOf};
ghost use Rattle.mh_front.specs.Texts.{grammar_fault_text, join_text};
ghost use Rattle.mh_lint_findings.specs.Lines.{line, lines_of};
ghost use Rattle.mh_lint_faults.specs.FaultLines.{fault_lines};
ghost use Rattle.mh_lint_faults.specs.NameFaults.{faults_in_role, name_faults, rule_faults, rules_in};
ghost use Rattle.mh_lint_faults.specs.NameFaults.{takes_group_prec as takes_prec};
ghost use Rattle.mh_lint_faults.specs.code.FoundFaults.{listed};
ghost use Rattle.mh_lint_faults.specs.code.MentionContexts.{HasOwnPrecs, IsContext, has_lent, rule_agrees};
ghost use Rattle.mh_lint_faults.specs.code.RuleKinds.{HasRuleKinds};

use crate::keys::{has_key, put_key};
use mh_front::{GrammarFault, fault_line};
use mh_grammar::{Level, Memory, Name, from_bytes};
use mh_join_names::{
    Formals, JoinFault, NameKind, Outline, SymbolTables, formals_of, is_public, marked_public,
    name_by, put_name,
};
use mh_lint_findings::{Finding, FindingText, Position};
use mh_reader_places::{Mention, Role};
use mh_rules::{Module, Ref, Rule};
use std::alloc::Global;
use std::collections::HashSet;

/// A file of the grammar, with the names that are marked `%public` in it.
#[derive(Drop)]
pub struct FileNames<'a> {
    /// The number of the file, from 1.
    pub number: u64,
    pub module: &'a Module,
    pub public: HashSet<Name>,
}

/// What the earlier mentions of the file say about the next mention.
struct Context<'a> {
    /// The token that was declared last.
    token: Name,
    /// The private rules so far.
    own: HashSet<&'a Name>,
    /// The number of rules so far.
    rules: usize,
    /// The formals of the current rule so far, and the numbers of all its formals.
    seen: HashSet<Name>,
    formals: Formals,
    /// The alternatives that have a `%prec` of their own.
    precs: HashSet<u64>,
}

// The exit of a function drops this value by one call. With the derived destructor it would drop each field.
impl<'a> Drop for Context<'a> {
    fn drop(self) {
        let Context {
            token,
            own,
            rules: _,
            seen,
            formals,
            precs,
        } = self;
        drop(token);
        drop(own);
        drop(seen);
        drop(formals);
        drop(precs);
    }
}

pub fn text_of(reference: &Ref) -> &Name
    ensures { result.now ≡ spec.text_of reference.now }
{
    match reference {
        Ref::Plain(text) | Ref::Alias(text) => text,
    }
}

fn is_error(reference: &Ref) -> bool
    ensures { result ≡ spec.is_error reference.now }
{
    match reference {
        Ref::Plain(name) => b"error".as_slice() == name.as_slice(),
        Ref::Alias(_) => false,
    }
}

/// The fault that the name is undefined, unless the name is defined.
fn undefined_unless(is_defined: bool, name: &Name) -> Result<Option<JoinFault>, Memory>
    ensures { IfOk result (λ found. listed found ≡ unless is_defined (JoinFault.Undefined name.now)) }
{
    if is_defined {
        return Ok(None);
    }
    Ok(Some(JoinFault::Undefined {
        name: name.clone()?,
    }))
}

/// The fault that the name has two meanings, unless this use agrees with the first one.
fn duplicate_unless(agrees: bool, name: &Name) -> Result<Option<JoinFault>, Memory>
    ensures { IfOk result (λ found. listed found ≡ unless agrees (JoinFault.Duplicate name.now)) }
{
    if agrees {
        return Ok(None);
    }
    Ok(Some(JoinFault::Duplicate {
        name: name.clone()?,
    }))
}

/// Whether the kind of a name agrees with that of its first definition.
fn agrees_in_kind(names: &SymbolTables, kind: NameKind, name: &Name) -> bool
    ensures { result ≡ spec.agrees spec.same_kind ((meanings_in names.now).kind name.now) kind }
{
    match names.kinds.get(name) {
        Some(first) => *first == kind,
        None => true,
    }
}

/// Whether a name may be that of a rule: the first definition of the name, if there is one, is a rule. Few names are
/// those of tokens, so most names are not looked up among all names.
fn agrees_in_rule_kind(names: &SymbolTables, name: &Name) -> bool
    requires { HasRuleKinds names.now }
    ensures { result ≡ spec.agrees spec.same_kind ((meanings_in names.now).kind name.now) NameKind.Rule }
{
    !names.tokens.contains(name) || agrees_in_kind(names, NameKind::Rule, name)
}

/// The fault of the name of a declared token.
fn token_fault(names: &SymbolTables, name: &Name) -> Result<Option<JoinFault>, Memory>
    ensures { IfOk result (λ found. listed found ≡ other_kind (meanings_in names.now) NameKind.Token name.now) }
{
    duplicate_unless(agrees_in_kind(names, NameKind::Token, name), name)
}

/// The fault of the alias of this token.
fn alias_fault(
    names: &SymbolTables,
    token: &[u8],
    alias: &Name,
) -> Result<Option<JoinFault>, Memory>
    ensures { IfOk result (λ found. listed found ≡ other_token (meanings_in names.now) token.now (Some alias.now)) }
{
    let agrees = match names.aliases.get(alias) {
        Some(first) => first.as_slice() == token,
        None => true,
    };
    duplicate_unless(agrees, alias)
}

/// The fault of a declared start symbol.
fn start_fault(names: &SymbolTables, name: &Name) -> Result<Option<JoinFault>, Memory>
    ensures { IfOk result (λ found. listed found ≡ undefined_start (meanings_in names.now) name.now) }
{
    undefined_unless(names.numbering.number_of(None, name).is_some(), name)
}

/// The fault of a string that is no alias.
fn string_fault(names: &SymbolTables, reference: &Ref) -> Result<Option<JoinFault>, Memory>
    ensures { IfOk result (λ found. listed found ≡ unknown_string (meanings_in names.now).aliased reference.now) }
{
    match reference {
        Ref::Plain(_) => Ok(None),
        Ref::Alias(alias) => undefined_unless(names.aliases.contains_key(alias), alias),
    }
}

/// Whether the level declaration of this rank is the one that gives a level.
fn gives_level(level: &Level, file: u64, rank: u64) -> bool
    ensures { result ≡ spec.same_level level.now (level_in file rank Left) }
{
    level.file == file && level.rank == rank
}

/// Whether the first level of a name, if there is one, is that of this declaration.
fn agrees_in_level(names: &SymbolTables, file: u64, rank: u64, name: &Name) -> bool
    ensures { result ≡ spec.agrees spec.same_level ((meanings_in names.now).level name.now) (level_in file rank Left) }
{
    match names.levels.get(name) {
        Some(level) => gives_level(level, file, rank),
        None => true,
    }
}

/// The fault of a name or string in a level declaration.
fn level_fault(
    names: &SymbolTables,
    file: u64,
    rank: u64,
    reference: &Ref,
) -> Result<Option<JoinFault>, Memory>
    ensures { IfOk result (λ found. listed found ≡ unknown_string (meanings_in names.now).aliased reference.now
        ++ other_level (meanings_in names.now) (level_in file rank Left) (names_spec.name_by (meanings_in names.now).aliased reference.now)) }
{
    match name_by(&names.aliases, reference) {
        Some(name) => duplicate_unless(agrees_in_level(names, file, rank, name), name),
        None => string_fault(names, reference),
    }
}

/// Whether a definition has the `%inline` and the number of formals of its rule's first definition.
fn has_shape(first: &Outline, rule: &Rule) -> bool
    ensures { result ≡ spec.same_shape first.now rule.now }
{
    first.inlined == rule.inlined && first.formals == rule.formals.len() as u64
}

/// Whether the definition of a public rule agrees with the first one in `%inline` and in the number of formals.
fn has_first_shape(names: &SymbolTables, rule: &Rule) -> bool
    ensures { result ≡ spec.agrees spec.same_shape ((meanings_in names.now).joined rule.now.name) rule.now }
{
    let Some(number) = names.numbering.public.get(&rule.name) else {
        return true;
    };
    match names.numbering.rules.get(*number as usize) {
        Some(first) => has_shape(first, rule),
        None => true,
    }
}

/// Adds a name to a set of lent names, and returns true if the name is new. Fails only if memory runs out.
fn put_lent<'a>(names: &mut HashSet<&'a Name>, name: &'a Name) -> Result<bool, Memory>
    ensures names { OnOk result ((x : Text) → has_lent names.new x ≡ (has_lent names.old x || same x name.now)) }
    ensures is_new { IfOk result (λ b. b ≡ not (has_lent names.old name.now)) }
{
    let is_new = names.insert(name)?;
    Ok(is_new)
}

/// Whether a rule agrees with the definitions before: a private rule is the first in its file; a public one has the
/// shape of the first of all files. The name of a private rule is recorded.
fn agrees_with_first<'a>(
    names: &SymbolTables,
    public: &HashSet<Name>,
    own: &mut HashSet<&'a Name>,
    rule: &'a Rule,
) -> Result<bool, Memory>
    ensures agrees { IfOk result (λ agrees. agrees ≡ rule_agrees (is_public_in names.now public.now rule.now.name)
        (spec.agrees spec.same_shape ((meanings_in names.now).joined rule.now.name) rule.now) (has_lent own.old rule.now.name)) }
    ensures own { OnOk result ((x : Text) → has_lent own.new x ≡ (has_lent own.old x || (not (is_public_in names.now public.now rule.now.name) && same x rule.now.name))) }
{
    if is_public(&names.starts, public, &rule.name) {
        return Ok(has_first_shape(names, rule));
    }
    put_lent(own, &rule.name)
}

/// The fault of the name of a rule.
fn rule_fault<'a>(
    names: &SymbolTables,
    file: &FileNames<'a>,
    own: &mut HashSet<&'a Name>,
    rule: &'a Rule,
) -> Result<Option<JoinFault>, Memory>
    requires { HasRuleKinds names.now }
    ensures fault { IfOk result (λ found. listed found ≡ unless (rule_agrees (is_public_in names.now file.now.public rule.now.name)
        (spec.agrees spec.same_shape ((meanings_in names.now).joined rule.now.name) rule.now) (has_lent own.old rule.now.name)
        && spec.agrees spec.same_kind ((meanings_in names.now).kind rule.now.name) NameKind.Rule) (JoinFault.Duplicate rule.now.name)) }
    ensures own { OnOk result ((x : Text) → has_lent own.new x ≡ (has_lent own.old x || (not (is_public_in names.now file.now.public rule.now.name) && same x rule.now.name))) }
{
    let agrees = agrees_with_first(names, &file.public, own, rule)?;
    let has_kind = agrees_in_rule_kind(names, &rule.name);
    duplicate_unless(agrees && has_kind, &rule.name)
}

/// The fault of a head in a rule with these formals.
fn head_fault(
    names: &SymbolTables,
    file: u64,
    formals: &Formals,
    head: &Ref,
) -> Result<Option<JoinFault>, Memory>
    ensures { IfOk result (λ found. listed found ≡ undefined true (meant_by (meanings_in names.now) file (formals_in formals.now)) head.now ++ error_token head.now) }
{
    if is_error(head) {
        return Ok(Some(JoinFault::ErrorToken));
    }
    undefined_unless(names.defines(file, formals, head), text_of(head))
}

/// The fault of a head in an `%on_error_reduce` declaration.
fn on_error_fault(
    alloc: Global,
    names: &SymbolTables,
    file: u64,
    head: &Ref,
) -> Result<Option<JoinFault>, Memory>
    ensures { IfOk result (λ found. listed found ≡ undefined false (meant_by (meanings_in names.now) file (formal_number [])) head.now) }
{
    let none = formals_of(alloc, &[])?;
    undefined_unless(names.defines(file, &none, head), text_of(head))
}

/// The fault of a name after a `%prec` that may not follow it.
fn unlevelled_fault(names: &SymbolTables, name: &Name) -> Result<Option<JoinFault>, Memory>
    ensures { IfOk result (λ found. listed found ≡ unlevelled (meanings_in names.now) (Some (Plain name.now))) }
{
    if names.may_follow_prec(name) {
        return Ok(None);
    }
    Ok(Some(JoinFault::UnknownLevel {
        name: name.clone()?,
    }))
}

/// The fault of a name or string after a `%prec`.
fn prec_fault(names: &SymbolTables, reference: &Ref) -> Result<Option<JoinFault>, Memory>
    ensures { IfOk result (λ found. listed found ≡ unknown_string (meanings_in names.now).aliased reference.now ++ unlevelled (meanings_in names.now) (Some reference.now)) }
{
    match reference {
        Ref::Plain(name) => unlevelled_fault(names, name),
        Ref::Alias(alias) => undefined_unless(names.aliases.contains_key(alias), alias),
    }
}

/// Whether some alternative of a group has no `%prec` of its own.
fn takes_group_prec(precs: &HashSet<u64>, first: u64, last: u64) -> bool
    ensures { IsTrue result ↔ ((n : ℕ) × (first ≤ n) × (n ≤ last) × (Contains precs.now.keys n → ⊥)) }
{
    for alternative in first..last {
        if !has_key(precs, &alternative) {
            return true;
        }
    }
    first <= last && !has_key(precs, &last)
}

/// The fault of a name or string after the `%prec` of a group. If each alternative of the group has a `%prec` of its
/// own, that of the group means nothing.
fn group_prec_fault(
    names: &SymbolTables,
    precs: &HashSet<u64>,
    first: u64,
    last: u64,
    reference: &Ref,
) -> Result<Option<JoinFault>, Memory>
    ensures { (before : List MentionOf) → HasOwnPrecs before precs.now.keys → IfOk result (λ found. listed found
        ≡ (if takes_prec before first last then unknown_string (meanings_in names.now).aliased reference.now ++ unlevelled (meanings_in names.now) (Some reference.now) else [])) }
{
    if !takes_group_prec(precs, first, last) {
        return Ok(None);
    }
    prec_fault(names, reference)
}

impl<'a> Context<'a> {
    /// The context of the first mention of a file with this number of rules.
    fn new(alloc: Global, rules: usize) -> Result<Context<'a>, Memory>
        ensures { (starts : List Text) (m : ModuleOf) → IfOk result (IsContext starts m []) }
    {
        Ok(Context {
            token: from_bytes(alloc, b"")?,
            own: HashSet::with_capacity(alloc, rules)?,
            rules: 0,
            seen: HashSet::new(alloc),
            formals: formals_of(alloc, &[])?,
            precs: HashSet::new(alloc),
        })
    }

    /// The fault of the name of the next rule. The context is that of the rule from then on.
    fn rule_fault(
        &mut self,
        alloc: Global,
        names: &SymbolTables,
        file: &FileNames<'a>,
    ) -> Result<Option<JoinFault>, Memory>
        requires public { (x : Text) → contains same file.now.public x ≡ marks_public file.now.module.now.rules x }
        requires rules { self.old.rules < usize.MAX }
        requires kinds { HasRuleKinds names.now }
        ensures fault { (before : List MentionOf) → IsContext names.now.starts.keys file.now.module.now before self.old
            → IfOk result (λ found. listed found ≡ rule_faults (meanings_in names.now) file.now.module.now (rules_in before) (slice_get file.now.module.now.rules (rules_in before))) }
        ensures context { (before : List MentionOf) (x : MentionOf) → x.role ≡ roles.Rule → IsContext names.now.starts.keys file.now.module.now before self.old
            → OnOk result (IsContext names.now.starts.keys file.now.module.now (before ++ x ∷ []) self.new) }
    {
        let number = self.rules;
        self.rules += 1;
        self.seen = HashSet::new(alloc);
        let Some(rule) = file.module.rules.get(number) else {
            self.formals = formals_of(alloc, &[])?;
            return Ok(None);
        };
        self.formals = formals_of(alloc, rule.formals.as_slice())?;
        rule_fault(names, file, &mut self.own, rule)
    }

    /// The fault of a mention, if the mention has one. The context is that after the mention from then on.
    fn fault_of(
        &mut self,
        alloc: Global,
        names: &SymbolTables,
        file: &FileNames<'a>,
        mention: &Mention,
    ) -> Result<Option<JoinFault>, Memory>
        requires public { (x : Text) → contains same file.now.public x ≡ marks_public file.now.module.now.rules x }
        requires rules { self.old.rules < usize.MAX }
        requires kinds { HasRuleKinds names.now }
        ensures fault { (before : List MentionOf) → IsContext names.now.starts.keys file.now.module.now before self.old
            → IfOk result (λ found. listed found ≡ faults_in_role (meanings_in names.now) file.now.number file.now.module.now before mention.now.name mention.now.role) }
        ensures context { (before : List MentionOf) → IsContext names.now.starts.keys file.now.module.now before self.old
            → OnOk result (IsContext names.now.starts.keys file.now.module.now (before ++ mention.now ∷ []) self.new) }
    {
        let name = text_of(&mention.name);
        match mention.role {
            Role::Token => {
                self.token = name.clone()?;
                token_fault(names, name)
            }
            Role::Alias => alias_fault(names, self.token.as_slice(), name),
            Role::Start => start_fault(names, name),
            Role::Level { rank } => level_fault(names, file.number, rank, &mention.name),
            Role::OnError { .. } => on_error_fault(alloc, names, file.number, &mention.name),
            Role::Rule => self.rule_fault(alloc, names, file),
            Role::Formal => duplicate_unless(put_name(&mut self.seen, name)?, name),
            Role::Head { .. } => head_fault(names, file.number, &self.formals, &mention.name),
            Role::Prec { alternative } => {
                put_key(&mut self.precs, alternative)?;
                prec_fault(names, &mention.name)
            }
            Role::GroupPrec { first, last } => {
                group_prec_fault(names, &self.precs, first, last, &mention.name)
            }
        }
    }
}

/// Appends a fault at a position.
pub(crate) fn put_fault(
    alloc: Global,
    findings: &mut Vec<Finding<'_>>,
    at: Position,
    fault: &GrammarFault,
) -> Result<(), Memory>
    ensures { OnOk result (lines_of findings.new.items ≡ lines_of findings.old.items ++ line at (grammar_fault_text fault.now) ∷ []) }
{
    let text = fault_line(alloc, fault)?;
    findings.push(Finding {
        at,
        text: FindingText::from_vec(text),
    })?;
    Ok(())
}

/// Appends the line for a fault of a name, if there is one.
fn put_found(
    alloc: Global,
    findings: &mut Vec<Finding<'_>>,
    at: Position,
    found: Option<JoinFault>,
) -> Result<(), Memory>
    ensures { OnOk result (lines_of findings.new.items ≡ lines_of findings.old.items ++ map (λ fault. line at (join_text fault)) (listed found)) }
{
    match found {
        Some(fault) => put_fault(alloc, findings, at, &GrammarFault::Join(fault)),
        None => Ok(()),
    }
}

/// The names of a file.
pub fn file_names(alloc: Global, number: u64, contents: &Module) -> Result<FileNames<'_>, Memory>
    ensures number { IfOk result (λ file. file.number ≡ number) }
    ensures contents { IfOk result (λ file. file.module.now ≡ contents.now) }
    ensures public { IfOk result (λ file. (x : Text) → contains same file.public x ≡ marks_public contents.now.rules x) }
{
    Ok(FileNames {
        number,
        module: contents,
        public: marked_public(alloc, contents.rules.as_slice())?,
    })
}

/// Appends the faults of the names of a file, in the order of the text.
pub(crate) fn put_file_faults(
    alloc: Global,
    names: &SymbolTables,
    file: &FileNames<'_>,
    mentions: &[Mention],
    findings: &mut Vec<Finding<'_>>,
) -> Result<(), Memory>
    requires number { 0 < file.now.number }
    requires kinds { HasRuleKinds names.now }
    requires public { (x : Text) → contains same file.now.public x ≡ marks_public file.now.module.now.rules x }
    ensures { OnOk result (lines_of findings.new.items ≡ lines_of findings.old.items
        ++ fault_lines (file.now.number - 1) (name_faults (meanings_in names.now) file.now.number file.now.module.now mentions.now)) }
{
    let mut context = Context::new(alloc, file.module.rules.len())?;
    for mention in mentions {
        let at = Position::InFile {
            file: file.number as usize - 1,
            start: mention.start,
        };
        let found = context.fault_of(alloc, names, file, mention)?;
        put_found(alloc, findings, at, found)?;
    }
    Ok(())
}
