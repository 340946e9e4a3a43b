//! Shared syntax trees of bounded height: construction, access, sharing and dropping.
ghost use Rattle.std.specs.Prelude.{◌≡◌, ◌↔◌, ℕ, IfOk, IfSome, IsTrue};
ghost use Rattle.std.specs.Prelude.{◌<◌, ◌≤◌};
ghost use Rattle.std.specs.List.{All};
ghost use Rattle.mh_grammar.specs.Trees.{height_of, forest_height, Leaf, Node, forest_of};
ghost use Rattle.mh_tree.specs.Shapes.{tree_of};
ghost use Rattle.mh_grammar.specs.Limits.{max_height};

use mh_grammar::{MAX_HEIGHT, Memory, Token};
use std::alloc::Global;
use std::marker::Model;
use std::rc::Rc;

/// A shared syntax tree: a token, or a production with a tree for each symbol of its right side (Knuth 1965). Its
/// height is from 1 to `MAX_HEIGHT`.
#[cycle(tree)]
pub struct Tree {
    shape: Rc<Shape>,
    height: u32,
}

#[derive(Drop)]
#[cycle(tree)]
pub(crate) enum Shape {
    Leaf(Token),
    Node(u32, Vec<Tree>),
}

impl Model for Tree {
    ghost use Rattle.std.specs.Prelude.{◌≡◌, ◌≤◌};
    ghost use Rattle.mh_grammar.specs.Trees.{SyntaxTree, height_of};

    ghost Value = { SyntaxTree };

    ghost use Rattle.mh_tree.specs.TreeCode.{tree_code};

    ghost coded = { tree_code };

    ghost use Rattle.mh_grammar.specs.Limits.{max_height};
    ghost use Rattle.mh_tree.specs.Shapes.{tree_of};

    ghost view = { λ t. tree_of t.shape.value };

    ghost invariant = { λ t. (t.height ≡ height_of (tree_of t.shape.value)) × (t.height ≤ max_height) };

    ghost size = { height_of };

    ghost use Rattle.mh_tree.specs.ChildHeights.{depth_le-height};

    ghost size_decreases = { λ t h. depth_le-height t.shape.value };
}

// Drops, in a loop, the nodes that have no other owner. A recursion over a high tree could exceed the program's stack.
impl Drop for Tree {
    fn drop(self) {
        let Tree { shape, height: _ } = self;
        let Some(mut waiting) = children_of(shape) else {
            return;
        };
        'trees: while let Some(tree) = waiting.pop() {
            if let Some(mut children) = tree.into_children() {
                // If there is no memory for appending the children, they are dropped here.
                let _ = waiting.append(&mut children);
            }
        }
    }
}

/// The children of the node, if the node has no other owner.
fn children_of(shape: Rc<Shape>) -> Option<Vec<Tree>>
    ensures { IfSome result (λ children. (p : ℕ) × (tree_of shape.value ≡ Node p (forest_of children.items))) }
{
    match Rc::into_inner(shape) {
        Some(Shape::Node(_, children)) => Some(children),
        _ => None,
    }
}

impl Tree {
    /// The root: a token, or a production with its children.
    pub(crate) fn shape(&self) -> &Shape
        ensures { tree_of result.now ≡ self.now }
    {
        &self.shape
    }

    /// The children, if the node has no other owner.
    fn into_children(self) -> Option<Vec<Tree>>
        ensures { IfSome result (λ children. (p : ℕ) × (self ≡ Node p (forest_of children.items))) }
    {
        let Tree { shape, height: _ } = self;
        children_of(shape)
    }

    /// The height: 1 for a leaf and for a node without children, else one more than the height of the highest child; at
    /// most `MAX_HEIGHT`.
    pub fn height(&self) -> u32
        ensures value { result ≡ height_of self.now }
        ensures bound { result ≤ max_height }
    {
        self.height
    }

    /// An equal tree that shares the nodes of this one. Fails only if memory runs out.
    pub fn share(&self) -> Result<Tree, Memory>
        ensures { IfOk result (λ t. t ≡ self.now) }
    {
        Ok(Tree {
            shape: self.shape.clone()?,
            height: self.height,
        })
    }
}

/// The tree of a token, of height 1. Fails only if memory runs out.
pub fn leaf(alloc: Global, token: Token) -> Result<Tree, Memory>
    ensures { IfOk result (λ t. t ≡ Leaf token) }
{
    Ok(Tree {
        shape: Rc::new(alloc, Shape::Leaf(token))?,
        height: 1,
    })
}

/// Whether these trees may become children of a node: none of them has the height `MAX_HEIGHT`.
pub fn can_be_children(trees: &[Tree]) -> bool
    ensures { IsTrue result ↔ All (λ t. height_of t < max_height) trees.now }
{
    trees.iter().all(|tree| tree.height() < MAX_HEIGHT)
}

/// The tree of a production with these children, one higher than the highest of them. Fails only if memory runs out;
/// then the children are dropped.
pub fn node(alloc: Global, production: u32, children: Vec<Tree>) -> Result<Tree, Memory>
    requires { All (λ t. height_of t < max_height) children.items }
    ensures { IfOk result (λ t. t ≡ Node production (forest_of children.items)) }
{
    let height = highest(children.as_slice()) + 1;
    Ok(Tree {
        shape: Rc::new(alloc, Shape::Node(production, children))?,
        height,
    })
}

/// The height of the highest tree, or 0 if there are no trees.
fn highest(trees: &[Tree]) -> u32
    requires { All (λ t. height_of t < max_height) trees.now }
    ensures value { result ≡ forest_height (forest_of trees.now) }
    ensures bound { result < max_height }
{
    let mut highest = 0u32;
    for tree in trees {
        highest = highest.max(tree.height());
    }
    highest
}
