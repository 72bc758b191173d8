//! Why a command or a data value isn't taken.
ghost use Rattle.std.specs.Prelude.{◌≡◌};
ghost use Rattle.dr_dimse.specs.declared.fault.DimseFault.TheVariants.{Memory};

use std::alloc::{AllocError, AllocFailed};
use thiserror::Error;

/// Why a command or a data value isn't taken. The codes are those that the program prints.
#[derive(Clone, Copy, Debug, PartialEq, Eq, Error)]
pub enum DimseFault {
    /// A fragment of a data set before its command's end or of a command within a data set, or a
    /// command that isn't awaited.
    #[error("M1 OutOfPlace")]
    OutOfPlace,
    /// A fragment in another presentation context than the message that is under way.
    #[error("M2 MixedContext")]
    MixedContext,
    /// The text isn't a command set of the form that its command asks for.
    #[error("M3 BadCommand")]
    BadCommand,
    /// A command over 16 KiB.
    #[error("M4 TooLong")]
    TooLong,
    /// Memory ran out.
    #[error("Memory")]
    Memory,
}

impl From<AllocError> for DimseFault {
    ghost from_gives = { λ _ e. e ≡ Memory };

    fn from(_e: AllocError) -> DimseFault {
        DimseFault::Memory
    }
}

impl<T: Drop> From<AllocFailed<T>> for DimseFault {
    ghost from_gives = { λ _ e. e ≡ Memory };

    fn from(_e: AllocFailed<T>) -> DimseFault {
        DimseFault::Memory
    }
}
