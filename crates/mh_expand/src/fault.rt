//! The faults for which joined rules cannot be expanded.
use mh_grammar::{Memory, Name};
use std::alloc::{AllocError, AllocFailed};
use thiserror::Error;

/// The first fault in the order of finding; if one term has both faults, `Arity` is reported.
#[derive(Debug, Drop, Error)]
pub enum ExpandFault {
    /// A term has not as many arguments as its rule has formals, or is a token with arguments. Start symbols are
    /// examined too. The printed name of the term may be longer than that of an instance.
    #[error("a rule or token with a wrong count of arguments")]
    Arity { instance: Name },
    /// A new instance of the rule with this printed name itself has a printed name of more than 1,000 bytes, or is the
    /// 20,001st instance.
    #[error("a rule has too many or too long instances")]
    Expansion { name: Name },
    /// Memory ran out, or the name of a term with a wrong number of arguments has more than 16 MiB.
    #[error("out of memory")]
    Memory,
}

impl From<Memory> for ExpandFault {
    ghost use Rattle.std.specs.Prelude.{◌≡◌};
    ghost use Rattle.mh_expand.specs.declared.fault.ExpandFault.TheVariants.{Memory as memory};

    ghost from_gives = { λ _ e. e ≡ memory };

    fn from(_: Memory) -> ExpandFault {
        ExpandFault::Memory
    }
}

impl From<AllocError> for ExpandFault {
    ghost use Rattle.std.specs.Prelude.{◌≡◌};
    ghost use Rattle.mh_expand.specs.declared.fault.ExpandFault.TheVariants.{Memory as memory};

    ghost from_gives = { λ _ e. e ≡ memory };

    fn from(_: AllocError) -> ExpandFault {
        ExpandFault::Memory
    }
}

impl<T: Drop> From<AllocFailed<T>> for ExpandFault {
    ghost use Rattle.std.specs.Prelude.{◌≡◌};
    ghost use Rattle.mh_expand.specs.declared.fault.ExpandFault.TheVariants.{Memory as memory};

    ghost from_gives = { λ _ e. e ≡ memory };

    fn from(_: AllocFailed<T>) -> ExpandFault {
        ExpandFault::Memory
    }
}
