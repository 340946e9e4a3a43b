//! Syntax trees: made by hand, shared, read and printed; and the tree of a sentence.
ghost use Rattle.std.specs.Prelude.{◌≡◌, ◌<◌, IfOk};
ghost use Rattle.mh_grammar.specs.Trees.{height_of, Cons, Leaf, Nil, Node};

use crate::making::{A, EOF, can_run};
use mh_engine::{TreeOutcome, run_with_trees};
use mh_grammar::{Grammar, Memory};
use mh_tables::Halting;
use mh_tree::{Tree, leaf, node, print_tree, yield_of};
use std::alloc::Global;
use std::process::Abort;
use std::test::Fail;

/// The tree of the sentence `A EOF`: production 1 over two leaves.
fn tree_of_the_sentence(alloc: Global) -> Result<Tree, Memory>
    ensures { IfOk result (λ tree. tree ≡ Node 1 (Cons (Leaf 0) (Cons (Leaf 1) Nil))) }
{
    let mut children = Vec::new(alloc);
    children.push(leaf(alloc, A)?)?;
    children.push(leaf(alloc, EOF)?)?;
    node(alloc, 1, children)
}

/// The parts of a tree: its height (a leaf has height 1), its tokens, and its text.
fn check_tree(rt: &impl Abort, alloc: Global, grammar: &Grammar, tree: &Tree) -> Result<(), Fail> {
    let tokens = yield_of(alloc, tree)?;
    assert!(rt; tree.height() == 2 && tokens.as_slice() == [A, EOF].as_slice());
    drop(tokens);
    let text = print_tree(alloc, grammar, tree)?;
    assert!(rt; text.as_slice() == "[s: A EOF]".as_bytes());
    drop(text);
    Ok(())
}

/// A share is an equal tree, and copies nothing.
fn check_share(rt: &impl Abort, alloc: Global, grammar: &Grammar, tree: &Tree) -> Result<(), Fail> {
    let shared = tree.share()?;
    let result = check_tree(rt, alloc, grammar, &shared);
    drop(shared);
    result
}

/// A tree that is made by hand.
pub fn made_by_hand(rt: &impl Abort, alloc: Global, grammar: &Grammar) -> Result<(), Fail> {
    let tree = tree_of_the_sentence(alloc)?;
    let result = check_share(rt, alloc, grammar, &tree);
    drop(tree);
    result
}

fn check_outcome(
    rt: &impl Abort,
    alloc: Global,
    grammar: &Grammar,
    outcome: &TreeOutcome,
) -> Result<(), Fail> {
    match outcome {
        TreeOutcome::Accept { read, tree } => {
            assert!(rt; *read == 2);
            check_tree(rt, alloc, grammar, tree)
        }
        _ => Err(Fail::from("the sentence is accepted")),
    }
}

/// The tree that a run makes.
pub fn made_by_a_run(
    rt: &impl Abort,
    alloc: Global,
    grammar: &Grammar,
    table: &Halting,
) -> Result<(), Fail> {
    let sentence = [A, EOF];
    if !can_run(table, &sentence) {
        return Err(Fail::from("not a token of the table"));
    }
    let outcome = run_with_trees(alloc, table, 0, &sentence)?;
    let result = check_outcome(rt, alloc, grammar, &outcome);
    drop(outcome);
    result
}
