//! Terms that share their subterms.
ghost use Rattle.std.specs.Prelude.{◌≡◌, ◌<◌, [], length, slice_get, IfOk, OnErr};
ghost use Rattle.std.specs.List.{All};
ghost use Rattle.mh_grammar.specs.Placed.{Placed};
ghost use Rattle.mh_expand.specs.code.SharedTerms.{AreNodes, terms_of, node_term};

use crate::applications::Application;
use indexmap::IndexSet;
use std::alloc::{AllocError, AllocFailed, Global};

/// Different terms with their numbers; the arguments of a term have smaller numbers than the term.
#[derive(Drop)]
pub(crate) struct Terms {
    pub nodes: IndexSet<Application>,
    ghost nodes_ok: { AreNodes nodes.keys },
}

impl Terms {
    pub(crate) fn new(alloc: Global) -> Terms
        ensures { terms_of result.nodes.keys ≡ [] }
    {
        Terms {
            nodes: IndexSet::new(alloc),
        }
    }

    /// The head and the arguments of a term.
    pub(crate) fn at(&self, number: usize) -> &Application
        requires { number < length (terms_of self.now.nodes.keys) }
        ensures means { slice_get (terms_of self.now.nodes.keys) number
            ≡ Some (node_term (terms_of self.now.nodes.keys) result.now) }
        ensures below { All (λ a. a < number) result.now.args }
    {
        &self.nodes.as_slice()[number]
    }

    /// The number of a term; a new term is appended.
    pub(crate) fn insert(&mut self, node: Application) -> Result<usize, AllocError>
        requires { All (λ a. a < length (terms_of self.old.nodes.keys)) node.args }
        ensures { IfOk result (Placed (terms_of self.old.nodes.keys) (terms_of self.new.nodes.keys)
            (node_term (terms_of self.old.nodes.keys) node)) }
    {
        Ok(place(&mut self.nodes, node)?)
    }
}

/// The position of a node in the set; a new node is appended.
fn place(
    nodes: &mut IndexSet<Application>,
    node: Application,
) -> Result<usize, AllocFailed<Application>>
    ensures ok { IfOk result (Placed nodes.old.keys nodes.new.keys node) }
    ensures err { OnErr result (nodes.new.keys ≡ nodes.old.keys) }
{
    let (number, _) = nodes.insert_full(node)?;
    Ok(number)
}
