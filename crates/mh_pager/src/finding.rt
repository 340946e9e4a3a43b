//! The search for the target state of a move.
ghost use Rattle.std.specs.Prelude.{◌≡◌, ◌<◌, ◌≤◌, ◌↔◌, ℕ, Some, slice_get, IsTrue, MatchOption};
ghost use Rattle.mh_grammar.specs.Plain.{plain_of};
ghost use Rattle.mh_items_kernels.specs.KernelTypes.{Kernel as KernelOf};
ghost use Rattle.mh_items_kernels.specs.Kernels.{Holds, IsItemList};
ghost use Rattle.mh_pager.specs.code.Cores.{AreCandidates};
ghost use Rattle.mh_pager.specs.WeakCompatibility.{HaveSameCore, HaveOneCore, Covers, AreCompatible};
ghost use Rattle.mh_pager.specs.code.StateTests.{PassesTest, HasCoreAndPasses};
ghost use Rattle.mh_pager.specs.FirstState.{IsFirst, HasNoneWith};

use crate::compatible::{are_compatible, are_within};
use mh_grammar::Grammar;
use mh_items_kernels::Kernel;

/// A test of a state that has the core of a move.
#[derive(Clone, Copy)]
pub enum StateTest {
    /// The state contains the looks of the move.
    Covering,
    /// The state is weakly compatible with the move.
    Compatible,
}

/// Returns true if two kernels with one core are weakly compatible (Pager 1977): for every two different items of the
/// core, the looks of the one item in one kernel and of the other item in the other kernel are disjoint, or the two
/// items already have a look in common within one of the kernels. It takes no memory.
pub fn weakly_compatible<const W: usize>(left: &Kernel<W>, right: &Kernel<W>) -> bool
    requires few { W ≤ 8 }
    requires core { HaveOneCore left.now right.now }
    ensures { IsTrue result ↔ AreCompatible (Holds left.now) (Holds right.now) }
{
    are_compatible(left.items.as_slice(), right.items.as_slice())
}

/// True if the state contains the looks of a kernel with the same core.
fn covers<const W: usize>(grammar: &Grammar, state: &Kernel<W>, kernel: &Kernel<W>) -> bool
    requires few { W ≤ 8 }
    requires state { IsItemList (plain_of grammar.now) state.now }
    requires kernel { IsItemList (plain_of grammar.now) kernel.now }
    requires core { HaveSameCore (Holds state.now) (Holds kernel.now) }
    ensures { IsTrue result ↔ Covers (Holds state.now) (Holds kernel.now) }
{
    // Only the contract uses the grammar.
    let _grammar = grammar;
    are_within(kernel.items.as_slice(), state.items.as_slice())
}

/// True if a state with the core of a move passes the test.
fn fits<const W: usize>(
    grammar: &Grammar,
    fit: StateTest,
    state: &Kernel<W>,
    kernel: &Kernel<W>,
) -> bool
    requires few { W ≤ 8 }
    requires state { IsItemList (plain_of grammar.now) state.now }
    requires kernel { IsItemList (plain_of grammar.now) kernel.now }
    requires core { HaveSameCore (Holds state.now) (Holds kernel.now) }
    ensures { IsTrue result ↔ PassesTest fit (Holds state.now) (Holds kernel.now) }
{
    match fit {
        StateTest::Covering => covers(grammar, state, kernel),
        StateTest::Compatible => weakly_compatible(state, kernel),
    }
}

/// Returns the first of the given states that passes the test. These are all states with the core of the move.
pub(crate) fn first_fitting<const W: usize>(
    grammar: &Grammar,
    kernels: &[Kernel<W>],
    states: &[u32],
    kernel: &Kernel<W>,
    fit: StateTest,
) -> Option<u32>
    requires few { W ≤ 8 }
    requires kernels { (n : ℕ) (k : KernelOf) → slice_get kernels.now n ≡ Some k → IsItemList (plain_of grammar.now) k }
    requires kernel { IsItemList (plain_of grammar.now) kernel.now }
    requires states { AreCandidates kernels.now kernel.now states.now }
    ensures { MatchOption result (HasNoneWith (HasCoreAndPasses fit kernel.now) kernels.now) (λ n. (k : KernelOf) × IsFirst (HasCoreAndPasses fit kernel.now) kernels.now n k) }
{
    for candidate in states {
        if fits(grammar, fit, &kernels[*candidate as usize], kernel) {
            return Some(*candidate);
        }
    }
    None
}
