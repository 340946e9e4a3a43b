//! The first definitions of rules.
ghost use Rattle.std.specs.Prelude.{◌≡◌, ◌↔◌, List, Some, IfOk, IsTrue};
ghost use Rattle.std.specs.HashSet.{contains};
ghost use Rattle.mh_grammar.specs.Text.{Text};
ghost use Rattle.mh_join_names.specs.Names.{marks_public, same};
ghost use Rattle.mh_join_names.specs.code.SymbolTables.{meanings_in};
ghost use Rattle.mh_reader_places.specs.declared.reading.PlacedModule.{PlacedModule as Placed};
ghost use Rattle.mh_lint_faults.specs.FaultLines as spec;
ghost use Rattle.mh_lint_faults.specs.FaultLines.{IsNamePart};
ghost use Rattle.mh_lint_faults.specs.code.FirstMentions.{IsDefinedAt, IsFirstWith};
ghost use Rattle.mh_lint_faults.specs.code.ReadFiles.{HasPlaces, IsSplit};

use crate::name_faults::{FileNames, file_names, text_of};
use crate::reading::ReadFiles;
use mh_grammar::Memory;
use mh_join_names::{SymbolTables, owner_in};
use mh_lint_findings::Position;
use mh_reader_places::{Mention, Role};
use mh_rules::Joined;
use std::alloc::Global;

/// The number of the rule that a mention defines, if the mention is the name of a definition.
pub fn rule_at(names: &SymbolTables, file: &FileNames<'_>, mention: &Mention) -> Option<u64>
    requires public { (x : Text) → contains same file.now.public x ≡ marks_public file.now.module.now.rules x }
    ensures { result ≡ spec.rule_at (meanings_in names.now) file.now.number file.now.module.now mention.now }
{
    let name = text_of(&mention.name);
    match mention.role {
        Role::Rule => {
            let owner = owner_in(&names.starts, &file.public, file.number, name);
            names.numbering.number_of(owner, name)
        }
        _ => None,
    }
}

/// The position of the first definition of a rule in a file.
fn definition_in(
    names: &SymbolTables,
    file: &FileNames<'_>,
    mentions: &[Mention],
    number: u64,
) -> Option<usize>
    requires public { (x : Text) → contains same file.now.public x ≡ marks_public file.now.module.now.rules x }
    ensures { IsFirstWith (λ x. spec.rule_at (meanings_in names.now) file.now.number file.now.module.now x ≡ Some number) mentions.now result }
{
    for mention in mentions {
        if rule_at(names, file, mention) == Some(number) {
            return Some(mention.start);
        }
    }
    None
}

/// The position of the first definition of a rule.
fn first_definition(
    alloc: Global,
    names: &SymbolTables,
    read: &ReadFiles,
    number: u64,
) -> Result<Option<Position>, Memory>
    requires places { HasPlaces read.now }
    ensures { (found : List Placed) → IsSplit found read.now → IfOk result (IsDefinedAt (meanings_in names.now) found number) }
{
    for (at, module) in read.modules.iter().enumerate() {
        let file = file_names(alloc, at as u64 + 1, module)?;
        if let Some(start) = definition_in(names, &file, read.mentions[at].as_slice(), number) {
            return Ok(Some(Position::InFile { file: at, start }));
        }
    }
    Ok(None)
}

/// Returns true if a printed name is this name, alone or with arguments in brackets after it.
fn begins_with_name(printed: &[u8], name: &[u8]) -> bool
    ensures { IsTrue result ↔ IsNamePart name.now printed.now }
{
    if !printed.starts_with(name) {
        return false;
    }
    match printed.get(name.len()) {
        Some(byte) => *byte == b'(',
        None => true,
    }
}

/// The position of the first definition of the rule with which a printed name begins; the first file, if no file
/// defines such a rule.
pub(crate) fn position_of(
    alloc: Global,
    names: &SymbolTables,
    read: &ReadFiles,
    joined: &Joined,
    printed: &[u8],
) -> Result<Position, Memory>
    requires places { HasPlaces read.now }
    ensures { (found : List Placed) → IsSplit found read.now → IfOk result (spec.IsRulePosition (meanings_in names.now) found joined.now printed.now) }
{
    for (number, rule) in joined.rules.as_slice().iter().enumerate() {
        if begins_with_name(printed, rule.name.as_slice()) {
            if let Some(at) = first_definition(alloc, names, read, number as u64)? {
                return Ok(at);
            }
        }
    }
    Ok(Position::OfFile { file: 0 })
}
