//! LR(1) kernels, the symbols at their dots, and the properties that all stages need of an automaton.
#![tactic(auto)]

mod items;
mod kernels;
mod laws;
mod places;
mod starts;

pub use items::{advanced, copied_item, joined_item, passed_on};
pub use kernels::{
    Automaton, AutomatonWith, Closure, ItemWith, ItemsWith, Kernel, KernelItem, StatesFault,
};
pub use laws::{are_equal, same_items_same_kernel};
pub use places::{rest_from, symbol_at, symbol_in, symbols_after_dot};
pub use starts::start_kernel;
