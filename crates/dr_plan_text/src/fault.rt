//! Why a text isn't read.
ghost use Rattle.std.specs.Prelude.{◌≡◌};

use std::alloc::{AllocError, AllocFailed};
use thiserror::Error;

/// Why a value of the text isn't read.
#[derive(Clone, Copy, Debug, PartialEq, Eq, Error)]
pub enum ReadFault {
    /// A field is missing, unknown or ill-formed.
    #[error("Field")]
    Field,
    /// There was no memory.
    #[error("Memory")]
    Memory,
}

impl From<AllocError> for ReadFault {
    ghost use Rattle.dr_plan_text.specs.declared.fault.ReadFault.TheVariants.{Memory};

    ghost from_gives = { λ _ fault. fault ≡ Memory };

    fn from(_: AllocError) -> ReadFault {
        ReadFault::Memory
    }
}

impl<T: Drop> From<AllocFailed<T>> for ReadFault {
    ghost use Rattle.dr_plan_text.specs.declared.fault.ReadFault.TheVariants.{Memory};

    ghost from_gives = { λ _ fault. fault ≡ Memory };

    fn from(_: AllocFailed<T>) -> ReadFault {
        ReadFault::Memory
    }
}

/// Why a text isn't read: the first fault in this order.
#[derive(Clone, Copy, Debug, PartialEq, Eq, Error)]
pub enum TextFault {
    /// The bytes aren't a text in TOML.
    #[error("NotToml")]
    NotToml,
    /// A field is missing, unknown or ill-formed.
    #[error("Field")]
    Field,
    /// There was no memory.
    #[error("Memory")]
    Memory,
}

impl From<ReadFault> for TextFault {
    ghost use Rattle.dr_plan_text.specs.Faults.{text_fault};

    ghost from_gives = { λ e fault. fault ≡ text_fault e };

    fn from(fault: ReadFault) -> TextFault {
        match fault {
            ReadFault::Field => TextFault::Field,
            ReadFault::Memory => TextFault::Memory,
        }
    }
}
