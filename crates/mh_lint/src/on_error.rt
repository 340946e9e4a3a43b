//! The `%on_error_reduce` declarations by which the table reduces.
ghost use Rattle.std.specs.Prelude.{◌≡◌, ◌+◌, ◌↔◌, ◌⊎◌, ℕ, length, IfOk, OnOk};
ghost use Rattle.std.specs.List.{Contains};
ghost use Rattle.mh_grammar.specs.Text.{Text};
ghost use Rattle.mh_lint.specs.code.Declarations.{HasRank, IsDeclaredAt, IsUsedDeclaration, declared, number_below};

use mh_grammar::{Grammar, Memory, Name, NontermInfo, from_bytes};
use mh_lint_faults::{put_key, write_term};
use mh_rules::Joined;
use std::alloc::Global;
use std::collections::HashSet;

/// The printed name of an actual of an `%on_error_reduce` declaration. The declarations of all files are counted from
/// 0.
#[derive(Drop, PartialEq, Eq, Hash)]
pub(crate) struct DeclaredName {
    pub(crate) declaration: u64,
    pub(crate) name: Name,
}

/// The number of the declaration that comes this many declarations after the first `before`, if there is one.
fn declaration_at(joined: &Joined, before: usize, rank: u64) -> Option<usize>
    ensures { result ≡ number_below (length joined.now.on_error) (before + rank) }
{
    let count = joined.on_error.len();
    match before.checked_add(rank as usize) {
        Some(number) => (number < count).then_some(number),
        None => None,
    }
}

/// The printed name of this actual, with the number of its declaration, if there is this actual.
pub(crate) fn declared_name(
    alloc: Global,
    joined: &Joined,
    before: usize,
    rank: u64,
    item: u64,
) -> Result<Option<DeclaredName>, Memory>
    ensures { IfOk result (IsDeclaredAt joined.now before rank item) }
{
    let Some(number) = declaration_at(joined, before, rank) else {
        return Ok(None);
    };
    let Some(actual) = joined.on_error[number].get(item as usize) else {
        return Ok(None);
    };
    let mut name = Vec::new(alloc);
    write_term(&mut name, joined, actual)?;
    Ok(Some(DeclaredName {
        declaration: number as u64,
        name: from_bytes(alloc, name.as_slice())?,
    }))
}

/// Records the printed name of a nonterminal with the declaration that gives its rank, if one does.
fn put_declaration(
    used: &mut HashSet<DeclaredName>,
    nonterminal: &NontermInfo,
) -> Result<(), Memory>
    ensures { OnOk result ((n : ℕ) (name : Text) → Contains used.new.keys (declared n name) ↔ (Contains used.old.keys (declared n name) ⊎ HasRank nonterminal.now n name)) }
{
    let Some(declaration) = nonterminal.on_error else {
        return Ok(());
    };
    let key = DeclaredName {
        declaration,
        name: nonterminal.name.clone()?,
    };
    put_key(used, key)?;
    Ok(())
}

/// The printed names of the nonterminals that the table reduces on errors, each with the declaration that gives its
/// rank.
pub(crate) fn used_declarations(
    alloc: Global,
    grammar: &Grammar,
    reduced: &[bool],
) -> Result<HashSet<DeclaredName>, Memory>
    requires { length reduced.now ≡ length grammar.now.nonterminals }
    ensures { IfOk result (λ used. (n : ℕ) (name : Text) → Contains used.keys (declared n name) ↔ IsUsedDeclaration grammar.now reduced.now n name) }
{
    let mut used = HashSet::new(alloc);
    for (number, nonterminal) in grammar.nonterminals.as_slice().iter().enumerate() {
        if reduced[number] {
            put_declaration(&mut used, nonterminal)?;
        }
    }
    Ok(used)
}
