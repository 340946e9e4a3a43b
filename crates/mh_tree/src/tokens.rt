//! The tokens at the leaves of a tree.
ghost use Rattle.std.specs.Prelude.{◌≡◌, ◌++◌, IfOk, OnOk};
ghost use Rattle.mh_grammar.specs.Trees as spec;
ghost use Rattle.mh_grammar.specs.Trees.{forest_yield, forest_of};

use crate::tree::{Shape, Tree};
use mh_grammar::{Memory, Token};
use std::alloc::Global;

/// The tokens at the leaves of the tree, from left to right: its yield (Aho, Lam, Sethi and Ullman). Fails only if
/// memory runs out.
pub fn yield_of(alloc: Global, tree: &Tree) -> Result<Vec<Token>, Memory>
    ensures { IfOk result (λ v. v.items ≡ spec.yield_of tree.now) }
{
    let mut tokens = Vec::new(alloc);
    push_tokens(&mut tokens, tree)?;
    Ok(tokens)
}

#[cycle(yields)]
fn push_tokens(tokens: &mut Vec<Token>, tree: &Tree) -> Result<(), Memory>
    ensures { OnOk result (tokens.new.items ≡ tokens.old.items ++ spec.yield_of tree.now) }
{
    match tree.shape() {
        Shape::Leaf(token) => tokens.push(*token)?,
        Shape::Node(_, children) => push_children(tokens, children.as_slice())?,
    }
    Ok(())
}

#[cycle(yields)]
fn push_children(tokens: &mut Vec<Token>, children: &[Tree]) -> Result<(), Memory>
    ensures { OnOk result (tokens.new.items ≡ tokens.old.items ++ forest_yield (forest_of children.now)) }
{
    for child in children {
        push_tokens(tokens, child)?;
    }
    Ok(())
}
