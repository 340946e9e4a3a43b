//! Trees with their heights, tokens and texts, worked out by hand.
ghost use Rattle.std.specs.Prelude.{◌≡◌, ◌<◌, IfOk};
ghost use Rattle.mh_grammar.specs.Trees.{height_of, Node, Cons, Nil};
ghost use Rattle.mh_grammar.specs.Limits.{max_height};

use crate::run_cases::check_cases;
use mh_grammar::{Grammar, Memory};
use mh_tree::{Tree, leaf, node, print_tree, yield_of};
use mh_worked_grammars::put_bytes;
use std::alloc::Global;
use std::fmt::Write;
use std::test::Fail;

fn pair(alloc: Global, production: u32, first: Tree, second: Tree) -> Result<Tree, Memory>
    requires first { height_of first < max_height }
    requires second { height_of second < max_height }
    ensures { IfOk result (λ t. t ≡ Node production (Cons first (Cons second Nil))) }
{
    let mut children = Vec::new(alloc);
    children.push(first)?;
    children.push(second)?;
    node(alloc, production, children)
}

fn two_leaves(alloc: Global) -> Result<Tree, Memory>
    ensures { IfOk result (λ t. height_of t < max_height) }
{
    let first = leaf(alloc, 0)?;
    let second = leaf(alloc, 1)?;
    pair(alloc, 1, first, second)
}

fn after_an_empty_node(alloc: Global, tree: &Tree) -> Result<Tree, Memory>
    requires { height_of tree.now < max_height }
{
    let empty = node(alloc, 2, Vec::new(alloc))?;
    let shared = tree.share()?;
    pair(alloc, 3, empty, shared)
}

/// A tree that shares a tree of two leaves.
fn shared(alloc: Global) -> Result<Tree, Memory> {
    let inner = two_leaves(alloc)?;
    let tree = after_an_empty_node(alloc, &inner);
    drop(inner);
    tree
}

fn over(alloc: Global, child: Tree) -> Result<Tree, Memory>
    requires { height_of child < max_height }
    ensures { IfOk result (λ t. t ≡ Node 1 (Cons child Nil)) }
{
    let mut children = Vec::new(alloc);
    children.push(child)?;
    node(alloc, 1, children)
}

/// A chain of nodes with one child each, over a leaf.
fn highest_chain(alloc: Global) -> Result<Tree, Memory> {
    let mut chain = leaf(alloc, 0)?;
    for _ in 1..4000 {
        if chain.height() < 4000 {
            chain = over(alloc, chain)?;
        }
    }
    Ok(chain)
}

fn made(alloc: Global, kind: &str) -> Result<Tree, Memory> {
    match kind {
        "leaves" => two_leaves(alloc),
        "empty" => node(alloc, 2, Vec::new(alloc)),
        "shared" => shared(alloc),
        _ => highest_chain(alloc),
    }
}

fn put_tokens(alloc: Global, text: &mut String, tree: &Tree) -> Result<(), Memory> {
    let tokens = yield_of(alloc, tree)?;
    let _ = write!(text, " {:?} ", tokens.as_slice());
    drop(tokens);
    Ok(())
}

/// Appends the text of a tree, or the number of its bytes if the text is long.
fn put_text(
    alloc: Global,
    text: &mut String,
    grammar: &Grammar,
    tree: &Tree,
) -> Result<(), Memory> {
    let bytes = print_tree(alloc, grammar, tree)?;
    if bytes.len() < 100 {
        put_bytes(text, &bytes);
    } else {
        let _ = write!(text, "{}", bytes.len());
    }
    drop(bytes);
    Ok(())
}

/// Appends the height of a tree, its tokens and its text.
pub fn put_tree(
    alloc: Global,
    text: &mut String,
    grammar: &Grammar,
    tree: &Tree,
) -> Result<(), Memory> {
    let _ = write!(text, "{}", tree.height());
    put_tokens(alloc, text, tree)?;
    put_text(alloc, text, grammar, tree)
}

/// Builds the tree of this kind, appends its height, its tokens and its text, and drops the tree.
pub fn put_built_tree(
    alloc: Global,
    text: &mut String,
    grammar: &Grammar,
    kind: &str,
) -> Result<(), Fail> {
    let tree = made(alloc, kind)?;
    let result = put_tree(alloc, text, grammar, &tree);
    drop(tree);
    Ok(result?)
}

/// Production 0 is the start production. Each of the 3,999 nodes of the highest chain adds `[s: ` and `]` to the `A`.
const TREES: &str = "A EOF; s b; s: A EOF; b:; s: b s
tree leaves = 2 [0, 1] [s: A EOF]
tree empty = 1 [] [b:]
tree shared = 3 [0, 1] [s: [b:] [s: A EOF]]
tree highest = 4000 [0] 19996";

#[test]
fn trees(rt: HostRuntime) -> Result<(), Fail> {
    check_cases(rt.alloc(), TREES)
}
