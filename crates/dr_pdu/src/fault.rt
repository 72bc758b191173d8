//! Why a text isn't read as a PDU.
ghost use Rattle.std.specs.Prelude.{◌≡◌};
ghost use Rattle.dr_pdu.specs.declared.fault.PduFault.TheVariants.{Memory};

use std::alloc::{AllocError, AllocFailed};
use thiserror::Error;

/// Why a text isn't read as a PDU. The codes are those that the program prints.
#[derive(Clone, Copy, Debug, PartialEq, Eq, Error)]
pub enum PduFault {
    /// The text ends before the header or the body that its length field announces.
    #[error("P1 More")]
    More,
    /// The first byte is no type of a PDU (PS3.8 9.3.1).
    #[error("P2 UnknownType")]
    UnknownType,
    /// The length field is above what is taken.
    #[error("P3 TooLong")]
    TooLong,
    /// The length field or the body isn't of the form that the type asks for.
    #[error("P4 BadItem")]
    BadItem,
    /// A presentation context id is even, or stands twice (PS3.8 9.3.2.2).
    #[error("P5 BadContextId")]
    BadContextId,
    /// Memory ran out.
    #[error("P6 Memory")]
    Memory,
    /// The stream had a fault before.
    #[error("P7 Failed")]
    Failed,
}

impl From<AllocError> for PduFault {
    ghost from_gives = { λ _ e. e ≡ Memory };

    fn from(_e: AllocError) -> PduFault {
        PduFault::Memory
    }
}

impl<T: Drop> From<AllocFailed<T>> for PduFault {
    ghost from_gives = { λ _ e. e ≡ Memory };

    fn from(_e: AllocFailed<T>) -> PduFault {
        PduFault::Memory
    }
}
