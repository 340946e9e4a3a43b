//! The answers to commands.
ghost use Rattle.std.specs.Prelude.{◌≡◌};
ghost use Rattle.mh_session_branches.specs.declared.reply.SessionFault.TheVariants as faults;

use mh_engine::Phase;
use mh_expected::TokenList;
use mh_grammar::{Memory, Sequence, Symbol};
use mh_tree::Tree;
use std::alloc::{AllocError, AllocFailed};

/// The reply of a session to a command that is not refused.
#[derive(Drop)]
pub enum Reply {
    /// The phase of the branch: after a fork that of the fresh branch, else that of the named branch.
    Phase(Phase),
    /// The number of tokens that a branch has shifted while it was fed, and its phase.
    Fed { shifted: usize, phase: Phase },
    /// The symbols on the stack of the branch, the lowest first.
    Stack(Sequence<Symbol>),
    Tree(Tree),
    /// The tokens that are expected at the branch, in rising order.
    Expected(TokenList),
    Forgotten,
}

/// The reason why a command is refused. A refused command changes nothing.
#[derive(Clone, Copy)]
pub enum SessionFault {
    /// No branch has the name.
    UnknownName,
    /// A branch already has the name.
    NameTaken,
    /// The branch is in this phase, in which the command is not possible.
    WrongPhase { phase: Phase },
    /// The step would make more than 4,000 pairs of a state and a tree, or a tree higher than 4,000.
    TooDeep,
    /// Memory ran out.
    Memory,
}

impl From<Memory> for SessionFault {
    ghost from_gives = { λ _ fault. fault ≡ faults.Memory };

    fn from(_: Memory) -> SessionFault {
        SessionFault::Memory
    }
}

impl From<AllocError> for SessionFault {
    ghost from_gives = { λ _ fault. fault ≡ faults.Memory };

    fn from(_: AllocError) -> SessionFault {
        SessionFault::Memory
    }
}

impl<T: Drop> From<AllocFailed<T>> for SessionFault {
    ghost from_gives = { λ _ fault. fault ≡ faults.Memory };

    fn from(_: AllocFailed<T>) -> SessionFault {
        SessionFault::Memory
    }
}
