//! The stack of a run: a linked list of shared cells, which never change after they are made.
ghost use Rattle.std.specs.Prelude.{◌≡◌, ◌↔◌, IsTrue, ◌+◌, ◌-◌, ◌<◌, ◌≤◌, ◌^◌, ◌++◌, ◌∷◌, [], length, take, drop, IfOk, IfSome, IfNone};
ghost use Rattle.mh_tables_core.specs.Run.{top_of};
ghost use Rattle.mh_tables_core.specs.TooDeep.{max_depth};
ghost use Rattle.mh_engine.specs.Positions.{Pairs, bottom};
ghost use Rattle.mh_engine.specs.code.Cells.{pushed, without_last};

use mh_grammar::Memory;
use mh_tree::Tree;
use std::alloc::Global;
use std::marker::Model;
use std::rc::Rc;

/// The maximum number of trees on a stack, and so of symbols: this project's own limit.
const MAX_PAIRS: u32 = 4_000;

/// The states of a run, the start state first, with one tree for each state but the first.
#[cycle(stack)]
pub(crate) struct Stack {
    count: u32,
    link: Link,
}

/// The bottom of a stack, which is the start state, or a cell above another stack.
#[derive(Drop)]
#[cycle(stack)]
enum Link {
    Bottom(u32),
    Above(Rc<Cell>),
}

#[derive(Drop)]
#[cycle(stack)]
struct Cell {
    state: u32,
    tree: Tree,
    below: Stack,
}

impl Model for Stack {
    ghost use Rattle.std.specs.Prelude.{◌≡◌, length};
    ghost use Rattle.mh_engine.specs.Positions.{Pairs};
    ghost use Rattle.mh_engine.specs.code.Pairs.{pairs_code};

    ghost Value = { Pairs };

    ghost coded = { pairs_code };

    ghost use Rattle.mh_engine.specs.code.Cells.{pairs_of};

    ghost view = { λ s. pairs_of s.link };

    ghost invariant = { λ s. s.count ≡ length (pairs_of s.link).trees };

    ghost size = { λ v. length v.trees };

    ghost use Rattle.mh_engine.specs.code.BelowIsShorter.{depth_within_pairs};

    ghost size_decreases = { λ s h. depth_within_pairs s.link };
}

// Drops the cells that have no other owner in a loop, because a recursion over a long stack would overflow the call
// stack.
impl Drop for Stack {
    fn drop(mut self) {
        loop {
            let Stack { count: _, link } = self;
            match link {
                Link::Bottom(_) => return,
                Link::Above(cell) => match Rc::into_inner(cell) {
                    None => return,
                    Some(
                        Cell {
                            state: _,
                            tree: _,
                            below,
                        },
                    ) => self = below,
                },
            }
        }
    }
}

impl Stack {
    /// The stack that has only the start state.
    pub(crate) fn bottom(start: u32) -> Stack
        ensures { result ≡ bottom start }
    {
        Stack {
            count: 0,
            link: Link::Bottom(start),
        }
    }

    /// The number of trees on the stack.
    pub(crate) fn count(&self) -> u32
        ensures { result ≡ length self.now.trees }
    {
        self.count
    }

    /// True if one more pair is within the limit.
    pub(crate) fn has_room(&self) -> bool
        ensures { IsTrue result ↔ (length self.now.trees < max_depth) }
    {
        self.count < MAX_PAIRS
    }

    /// The top state.
    pub(crate) fn top(&self) -> u32
        ensures { result ≡ top_of self.now.states }
    {
        match &self.link {
            Link::Bottom(start) => *start,
            Link::Above(cell) => cell.state,
        }
    }

    /// The top tree, or nothing if the stack has only the start state.
    pub(crate) fn tree(&self) -> Option<&Tree>
        ensures some { IfSome result (λ tree. (below : Pairs) × (self.now.trees ≡ below.trees ++ tree.now ∷ [])) }
        ensures none { IfNone result (self.now.trees ≡ []) }
    {
        match &self.link {
            Link::Bottom(_) => None,
            Link::Above(cell) => Some(&cell.tree),
        }
    }

    /// Returns an equal stack that shares the cells of this one. Fails only if memory runs out.
    pub(crate) fn share(&self) -> Result<Stack, Memory>
        ensures { IfOk result (λ s. s ≡ self.now) }
    {
        let link = match &self.link {
            Link::Bottom(start) => Link::Bottom(*start),
            Link::Above(cell) => Link::Above(cell.clone()?),
        };
        Ok(Stack {
            count: self.count,
            link,
        })
    }

    /// Pushes a state and a tree. Fails only if memory runs out; then the stack and the tree are dropped.
    pub(crate) fn push(self, alloc: Global, state: u32, tree: Tree) -> Result<Stack, Memory>
        requires { length self.trees < 2 ^ 32 - 1 }
        ensures { IfOk result (λ s. s ≡ pushed self state tree) }
    {
        let count = self.count + 1;
        let cell = Rc::new(
            alloc,
            Cell {
                state,
                tree,
                below: self,
            },
        )?;
        Ok(Stack {
            count,
            link: Link::Above(cell),
        })
    }

    /// Returns the stack without its last `count` pairs, and the trees of these pairs, the newest last. Fails only if
    /// memory runs out.
    pub(crate) fn split(&self, alloc: Global, count: usize) -> Result<(Stack, Vec<Tree>), Memory>
        requires { count ≤ length self.now.trees }
        ensures below { IfOk result (λ r. r.0 ≡ without_last count self.now) }
        ensures trees { IfOk result (λ r. r.1.items ≡ drop (length self.now.trees - count) self.now.trees) }
    {
        let mut trees = Vec::with_capacity(alloc, count)?;
        let mut below = self;
        for _ in 0..count {
            match &below.link {
                Link::Bottom(_) => unreachable!(),
                Link::Above(cell) => {
                    trees.push(cell.tree.share()?)?;
                    below = &cell.below;
                }
            }
        }
        trees.reverse();
        Ok((below.share()?, trees))
    }

    /// The states of the stack from the start state. Fails only if memory runs out.
    pub(crate) fn states(&self, alloc: Global) -> Result<Vec<u32>, Memory>
        ensures { IfOk result (λ states. states.items ≡ self.now.states) }
    {
        let mut states = Vec::new(alloc);
        let mut rest = self;
        'cells: loop {
            states.push(rest.top())?;
            match &rest.link {
                Link::Bottom(_) => break,
                Link::Above(cell) => rest = &cell.below,
            }
        }
        states.reverse();
        Ok(states)
    }
}
