//! The text that shows a tree.
ghost use Rattle.std.specs.Prelude.{◌≡◌, ◌++◌, IfOk, OnOk};
ghost use Rattle.mh_grammar.specs.Trees.{tree_text, forest_text, forest_of};

use crate::tree::{Shape, Tree};
use mh_grammar::{Grammar, Memory, left_side_name, token_name};
use std::alloc::Global;

/// The text of a tree on one line, as `--interpret-show-cst` of the Menhir manual prints it: a leaf is the name of its
/// token; a node is `[`, the name of its left side, `:`, each child after a space, and `]`. Fails only if memory runs
/// out.
pub fn print_tree(alloc: Global, grammar: &Grammar, tree: &Tree) -> Result<Vec<u8>, Memory>
    ensures { IfOk result (λ v. v.items ≡ tree_text grammar.now tree.now) }
{
    let mut text = Vec::new(alloc);
    write_tree(&mut text, grammar, tree)?;
    Ok(text)
}

#[cycle(texts)]
fn write_tree(text: &mut Vec<u8>, grammar: &Grammar, tree: &Tree) -> Result<(), Memory>
    ensures { OnOk result (text.new.items ≡ text.old.items ++ tree_text grammar.now tree.now) }
{
    match tree.shape() {
        Shape::Leaf(token) => text.extend_from_slice(token_name(grammar, *token))?,
        Shape::Node(production, children) => {
            text.push(b'[')?;
            text.extend_from_slice(left_side_name(grammar, *production))?;
            text.push(b':')?;
            write_children(text, grammar, children.as_slice())?;
            text.push(b']')?;
        }
    }
    Ok(())
}

#[cycle(texts)]
fn write_children(text: &mut Vec<u8>, grammar: &Grammar, children: &[Tree]) -> Result<(), Memory>
    ensures { OnOk result (text.new.items ≡ text.old.items ++ forest_text grammar.now (forest_of children.now)) }
{
    for child in children {
        text.push(b' ')?;
        write_tree(text, grammar, child)?;
    }
    Ok(())
}
