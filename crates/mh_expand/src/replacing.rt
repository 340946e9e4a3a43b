//! Replaces the formals in actuals.
ghost use Rattle.std.specs.Prelude.{◌≡◌, ◌<◌, length, slice_get, IfOk};
ghost use Rattle.std.specs.List.{All};
ghost use Rattle.mh_expand.specs.Terms.{replaced, replaced_head, term_of};
ghost use Rattle.mh_expand.specs.code.SharedTerms.{terms_of, terms_at, IsExtendedBy, IsNode};

use crate::applications::Application;
use crate::terms::Terms;
use mh_grammar::{Memory, Sequence};
use mh_rules::{Applied, Head};
use std::alloc::Global;

/// The number of the term of an actual in which the formals are replaced by these terms. The recursion is as deep as
/// the actual, at most `MAX_DEPTH` for the rules that `expand` is given.
pub(crate) fn replace(
    alloc: Global,
    terms: &mut Terms,
    formals: &[usize],
    applied: &Applied,
) -> Result<usize, Memory>
    requires { All (λ n. n < length (terms_of terms.old.nodes.keys)) formals.now }
    ensures grows { IfOk result (λ _. IsExtendedBy (terms_of terms.old.nodes.keys) (terms_of terms.new.nodes.keys)) }
    ensures term { IfOk result (λ n. slice_get (terms_of terms.new.nodes.keys) n
        ≡ Some (replaced (terms_at (terms_of terms.old.nodes.keys) formals.now) (term_of applied.now))) }
{
    let mut node = replace_head(alloc, terms, formals, applied.head)?;
    for arg in applied.args.as_slice() {
        let number = replace(alloc, terms, formals, arg)?;
        node.add_argument(number)?;
    }
    Ok(terms.insert(node)?)
}

/// The head and first arguments of a term: a formal is replaced by its term with the arguments of that term; a token or
/// rule stays.
fn replace_head(
    alloc: Global,
    terms: &Terms,
    formals: &[usize],
    head: Head,
) -> Result<Application, Memory>
    requires { All (λ n. n < length (terms_of terms.now.nodes.keys)) formals.now }
    ensures { IfOk result (λ n. IsNode (terms_of terms.now.nodes.keys) n
        (replaced_head (terms_at (terms_of terms.now.nodes.keys) formals.now) head)) }
{
    if let Head::Formal(place) = head {
        if let Some(number) = formals.get(place as usize) {
            let node = terms.at(*number).copied()?;
            return Ok(node);
        }
    }
    Ok(Application {
        head,
        args: Sequence::new(alloc),
    })
}
