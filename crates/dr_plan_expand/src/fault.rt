//! Why a text of format 3 isn't expanded.
ghost use Rattle.std.specs.Prelude.{◌≡◌};

use dr_plan_text::fault::ReadFault;
use std::alloc::{AllocError, AllocFailed};
use thiserror::Error;

/// Why the words of a plan stand for nothing.
#[derive(Clone, Copy, Debug, PartialEq, Eq, Error)]
pub enum WordFault {
    /// A set, a group or a class that nobody defines.
    #[error("Unknown")]
    Unknown,
    /// There was no memory.
    #[error("Memory")]
    Memory,
}

impl From<AllocError> for WordFault {
    ghost use Rattle.dr_plan_expand.specs.declared.fault.WordFault.TheVariants.{Memory};

    ghost from_gives = { λ _ fault. fault ≡ Memory };

    fn from(_: AllocError) -> WordFault {
        WordFault::Memory
    }
}

impl<T: Drop> From<AllocFailed<T>> for WordFault {
    ghost use Rattle.dr_plan_expand.specs.declared.fault.WordFault.TheVariants.{Memory};

    ghost from_gives = { λ _ fault. fault ≡ Memory };

    fn from(_: AllocFailed<T>) -> WordFault {
        WordFault::Memory
    }
}

/// Why a text of format 3 isn't expanded: the first fault in this order.
#[derive(Clone, Copy, Debug, PartialEq, Eq, Error)]
pub enum ExpandFault {
    /// A field is missing, unknown or ill-formed.
    #[error("Field")]
    Field,
    /// The plan stands for more than a plan may.
    #[error("Limit")]
    Limit,
    /// A set, a group or a class that nobody defines.
    #[error("Unknown")]
    Unknown,
    /// There was no memory.
    #[error("Memory")]
    Memory,
}

impl From<AllocError> for ExpandFault {
    ghost use Rattle.dr_plan_expand.specs.declared.fault.ExpandFault.TheVariants.{Memory};

    ghost from_gives = { λ _ fault. fault ≡ Memory };

    fn from(_: AllocError) -> ExpandFault {
        ExpandFault::Memory
    }
}

impl From<ReadFault> for ExpandFault {
    ghost use Rattle.dr_plan_expand.specs.Faults.{of_field};

    ghost from_gives = { λ e fault. fault ≡ of_field e };

    fn from(fault: ReadFault) -> ExpandFault {
        match fault {
            ReadFault::Field => ExpandFault::Field,
            ReadFault::Memory => ExpandFault::Memory,
        }
    }
}

impl From<WordFault> for ExpandFault {
    ghost use Rattle.dr_plan_expand.specs.Faults.{of_word};

    ghost from_gives = { λ e fault. fault ≡ of_word e };

    fn from(fault: WordFault) -> ExpandFault {
        match fault {
            WordFault::Unknown => ExpandFault::Unknown,
            WordFault::Memory => ExpandFault::Memory,
        }
    }
}
