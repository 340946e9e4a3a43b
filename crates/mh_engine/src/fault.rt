//! The reasons why a checkpoint cannot be resumed.
ghost use Rattle.std.specs.Prelude.{◌≡◌};
ghost use Rattle.mh_engine.specs.declared.fault.ResumeFault.TheVariants as faults;

use thiserror::Error;

/// The reason why a checkpoint cannot be resumed.
#[derive(Clone, Copy, Debug, PartialEq, Eq, Error)]
pub enum ResumeFault {
    /// The step would make more than 4,000 pairs of a state and a tree, or a tree higher than 4,000.
    #[error("the step is too deep")]
    TooDeep,
    /// Memory ran out.
    #[error("out of memory")]
    Memory,
}

impl From<mh_grammar::Memory> for ResumeFault {
    ghost from_gives = { λ _ fault. fault ≡ faults.Memory };

    fn from(_: mh_grammar::Memory) -> ResumeFault {
        ResumeFault::Memory
    }
}
