//! The faults for which instances have no grammar.
use mh_grammar::{Memory, Name};
use thiserror::Error;

/// The first fault of the instances, in the order of these variants.
#[derive(Debug, Drop, Error)]
pub enum InlineFault {
    /// An inline instance reaches itself through inline instances; the name is that of the first such instance.
    #[error("inline cycle")]
    InlineCycle { instance: Name },
    /// A start symbol is inline; the name is that of the first such start symbol.
    #[error("inline start")]
    InlineStart { name: Name },
    /// There are more than 20,000 productions, or one has more than 10,000 symbols.
    #[error("too many productions")]
    TooManyProductions,
    /// A start symbol has no finite tree; the name is that of the first such start symbol.
    #[error("empty language")]
    EmptyLanguage { name: Name },
    /// Memory ran out.
    #[error("out of memory")]
    Memory,
}

impl From<Memory> for InlineFault {
    ghost use Rattle.std.specs.Prelude.{◌≡◌};
    ghost use Rattle.mh_inline.specs.declared.fault.InlineFault.TheVariants.{Memory as memory};

    ghost from_gives = { λ _ e. e ≡ memory };

    fn from(_: Memory) -> InlineFault {
        InlineFault::Memory
    }
}
