//! Types for items, kernels and automata.
use mh_grammar::{Edge, Memory, Sequence};
use mh_sets::TokenSet;
use std::alloc::{AllocError, AllocFailed};

/// A production with a dot and a lookahead set.
#[derive(Drop, PartialEq, Eq, Hash)]
pub struct ItemWith<L> {
    /// The number of the production; the start productions are first.
    pub production: u32,
    /// The number of symbols of the right side before the dot.
    pub dot: u32,
    pub looks: L,
}

/// A list of items, rising by production and then by dot: a kernel or a closure.
#[derive(Drop, PartialEq, Eq, Hash)]
pub struct ItemsWith<L> {
    pub items: Sequence<ItemWith<L>>,
}

/// The kernels of the states, and for each state its edges in the order of their symbols.
pub struct AutomatonWith<L> {
    /// The kernels of the states, by their numbers.
    pub kernels: Sequence<ItemsWith<L>>,
    /// The edges of each state, in the order of their symbols.
    pub edges: Sequence<Sequence<Edge>>,
}

// The exit of a function drops this value by one call. With the derived destructor it would drop each field.
impl<L: Drop> Drop for AutomatonWith<L> {
    fn drop(self) {
        let AutomatonWith { kernels, edges } = self;
        drop(kernels);
        drop(edges);
    }
}

/// An item whose lookahead set has W words.
pub type KernelItem<const W: usize> = ItemWith<TokenSet<W>>;

/// A kernel whose lookahead sets have W words.
pub type Kernel<const W: usize> = ItemsWith<TokenSet<W>>;

/// A closure whose lookahead sets have W words.
pub type Closure<const W: usize> = ItemsWith<TokenSet<W>>;

/// An automaton whose lookahead sets have W words.
pub type Automaton<const W: usize> = AutomatonWith<TokenSet<W>>;

/// The reason why no automaton is returned.
#[derive(Clone, Copy, PartialEq, Eq)]
pub enum StatesFault {
    /// The construction needs more than 200,000 states at some time.
    TooManyStates,
    /// There was no memory for the automaton.
    Memory,
}

impl From<AllocError> for StatesFault {
    ghost use Rattle.std.specs.Prelude.{◌≡◌};
    ghost use Rattle.mh_items_kernels.specs.declared.kernels.StatesFault.TheVariants.{Memory};

    ghost from_gives = { λ _ e. e ≡ Memory };

    fn from(_: AllocError) -> StatesFault {
        StatesFault::Memory
    }
}

impl<T: Drop> From<AllocFailed<T>> for StatesFault {
    ghost use Rattle.std.specs.Prelude.{◌≡◌};
    ghost use Rattle.mh_items_kernels.specs.declared.kernels.StatesFault.TheVariants.{Memory};

    ghost from_gives = { λ _ e. e ≡ Memory };

    fn from(_: AllocFailed<T>) -> StatesFault {
        StatesFault::Memory
    }
}

impl From<Memory> for StatesFault {
    ghost use Rattle.std.specs.Prelude.{◌≡◌};
    ghost use Rattle.mh_items_kernels.specs.declared.kernels.StatesFault.TheVariants.{Memory};

    ghost from_gives = { λ _ e. e ≡ Memory };

    fn from(_: Memory) -> StatesFault {
        StatesFault::Memory
    }
}
