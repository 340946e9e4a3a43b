//! Closures and moves of LR(1) kernels: of one kernel, or of many kernels of one grammar with shared scratch space.
#![tactic(auto)]

mod added;
mod all_moves;
mod closure_builder;
mod closures;
mod empty_productions;
pub mod first_sets;
mod gathering;
mod links;
mod merging;
mod move_builder;
mod moving;
mod pending_looks;
mod rows;
mod spreading;

pub use all_moves::{Move, MoveWith};
pub use closure_builder::ClosureBuilder;
pub use closures::closure;
pub use gathering::firsts;
pub use mh_items_kernels::{
    Automaton, AutomatonWith, Closure, ItemWith, ItemsWith, Kernel, KernelItem, StatesFault,
    advanced, are_equal, copied_item, joined_item, passed_on, rest_from, same_items_same_kernel,
    start_kernel, symbol_at, symbol_in, symbols_after_dot,
};
pub use move_builder::MoveBuilder;
pub use moving::moved;
