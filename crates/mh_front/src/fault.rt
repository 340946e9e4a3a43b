//! Why modules have no grammar.
use mh_expand::ExpandFault;
use mh_inline::InlineFault;
use mh_join::JoinFault;
use thiserror::Error;

/// The first fault of the modules, by the stage that finds it.
///
/// `fault_line` gives the whole text of a fault. The `Display` text lacks the name that ends it, because a name is
/// bytes.
#[derive(Debug, Drop, Error)]
pub enum GrammarFault {
    /// The modules could not be joined.
    #[error(transparent)]
    Join(JoinFault),
    /// The joined rules could not be expanded.
    #[error(transparent)]
    Expand(ExpandFault),
    /// The instances have no grammar.
    #[error(transparent)]
    Inline(InlineFault),
    /// Memory ran out, in any stage.
    #[error("out of memory")]
    Memory,
}

impl From<JoinFault> for GrammarFault {
    ghost use Rattle.std.specs.Prelude.{◌≡◌};
    ghost use Rattle.mh_front.specs.Stages.{of_join};

    ghost from_gives = { λ fault e. e ≡ of_join fault };

    fn from(fault: JoinFault) -> GrammarFault {
        match fault {
            JoinFault::Memory => GrammarFault::Memory,
            fault => GrammarFault::Join(fault),
        }
    }
}

impl From<ExpandFault> for GrammarFault {
    ghost use Rattle.std.specs.Prelude.{◌≡◌};
    ghost use Rattle.mh_front.specs.Stages.{of_expand};

    ghost from_gives = { λ fault e. e ≡ of_expand fault };

    fn from(fault: ExpandFault) -> GrammarFault {
        match fault {
            ExpandFault::Memory => GrammarFault::Memory,
            fault => GrammarFault::Expand(fault),
        }
    }
}

impl From<InlineFault> for GrammarFault {
    ghost use Rattle.std.specs.Prelude.{◌≡◌};
    ghost use Rattle.mh_front.specs.Stages.{of_inline};

    ghost from_gives = { λ fault e. e ≡ of_inline fault };

    fn from(fault: InlineFault) -> GrammarFault {
        match fault {
            InlineFault::Memory => GrammarFault::Memory,
            fault => GrammarFault::Inline(fault),
        }
    }
}
