//! The places of terms with a wrong number of arguments.
ghost use Rattle.std.specs.Prelude.{◌≡◌, ◌↔◌, ◌⊎◌, List, IfOk, IsTrue, OnOk};
ghost use Rattle.std.specs.List.{Contains};
ghost use Rattle.mh_reader_places.specs.declared.reading.PlacedModule.{PlacedModule as Placed};
ghost use Rattle.mh_lint_faults.specs.code.FirstMentions.{IsFirstWith, IsWrongAt};
ghost use Rattle.mh_lint_faults.specs.code.Producers.{IsProducerMention, IsWrongApplied, IsWrongProducer, IsWrongProducerOf};
ghost use Rattle.mh_lint_faults.specs.code.ReadFiles.{IsSplit};
ghost use Rattle.mh_lint_faults.specs.declared.arity.ProducerOf.{ProducerOf as Producer};

use crate::keys::{has_key, put_key};
use crate::reading::ReadFiles;
use crate::terms::{has_formals, has_right_arity, write_term};
use mh_grammar::Memory;
use mh_lint_findings::Position;
use mh_reader_places::{Mention, Role};
use mh_rules::{Applied, Joined, JoinedAlternative};
use std::alloc::Global;
use std::collections::HashSet;

/// A producer of an alternative of a file. Files are counted from 1; alternatives among all of the file, producers
/// among those of the alternative.
#[derive(Clone, Copy, PartialEq, Eq, Hash, Drop)]
struct ProducerOf {
    file: u64,
    alternative: u64,
    producer: u64,
}

/// Returns true if a term has no formals, a wrong number of arguments, and this printed name.
fn is_wrong(alloc: Global, joined: &Joined, term: &Applied, printed: &[u8]) -> Result<bool, Memory>
    ensures { IfOk result (λ is. IsTrue is ↔ IsWrongApplied joined.now printed.now term.now) }
{
    if has_formals(term) || has_right_arity(joined, term) {
        return Ok(false);
    }
    let mut name = Vec::new(alloc);
    write_term(&mut name, joined, term)?;
    Ok(name.as_slice() == printed)
}

/// Adds the producers of an alternative that are terms without formals, with a wrong number of arguments and with this
/// printed name.
fn put_wrong(
    alloc: Global,
    joined: &Joined,
    alternative: &JoinedAlternative,
    printed: &[u8],
    found: &mut HashSet<ProducerOf>,
) -> Result<(), Memory>
    ensures { OnOk result ((p : Producer) → Contains found.new.keys p ↔ (Contains found.old.keys p ⊎ IsWrongProducerOf joined.now printed.now alternative.now p)) }
{
    for (producer, term) in alternative.producers.as_slice().iter().enumerate() {
        if is_wrong(alloc, joined, term, printed)? {
            let place = ProducerOf {
                file: alternative.file,
                alternative: alternative.place,
                producer: producer as u64,
            };
            put_key(found, place)?;
        }
    }
    Ok(())
}

/// The producers that are terms without formals, with a wrong number of arguments and with this printed name.
fn wrong_producers(
    alloc: Global,
    joined: &Joined,
    printed: &[u8],
) -> Result<HashSet<ProducerOf>, Memory>
    ensures { IfOk result (λ found. (p : Producer) → Contains found.keys p ↔ IsWrongProducer joined.now printed.now p) }
{
    let mut found = HashSet::new(alloc);
    for rule in joined.rules.as_slice() {
        for alternative in rule.alternatives.as_slice() {
            put_wrong(alloc, joined, alternative, printed, &mut found)?;
        }
    }
    Ok(found)
}

/// The position of the first head of these producers in a file.
fn first_in_file(found: &HashSet<ProducerOf>, file: u64, mentions: &[Mention]) -> Option<usize>
    ensures { IsFirstWith (IsProducerMention found.now.keys file) mentions.now result }
{
    for mention in mentions {
        if let Role::Head {
            alternative,
            producer,
        } = mention.role
        {
            let place = ProducerOf {
                file,
                alternative,
                producer,
            };
            if has_key(found, &place) {
                return Some(mention.start);
            }
        }
    }
    None
}

/// The first place in the files at which this printed name is written as a term with a wrong number of arguments.
pub(crate) fn term_position(
    alloc: Global,
    read: &ReadFiles,
    joined: &Joined,
    printed: &[u8],
) -> Result<Option<Position>, Memory>
    ensures { (found : List Placed) → IsSplit found read.now → IfOk result (IsWrongAt found joined.now printed.now) }
{
    let found = wrong_producers(alloc, joined, printed)?;
    for (at, mentions) in read.mentions.iter().enumerate() {
        if let Some(start) = first_in_file(&found, at as u64 + 1, mentions.as_slice()) {
            return Ok(Some(Position::InFile { file: at, start }));
        }
    }
    Ok(None)
}
