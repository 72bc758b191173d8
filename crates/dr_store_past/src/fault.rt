//! Why a past was not had, or not written.
ghost use Rattle.std.specs.Prelude.{◌≡◌};
ghost use Rattle.dr_store_past.specs.declared.fault.PastFault.TheVariants.{File as AsFile};
ghost use Rattle.dr_store_past.specs.declared.fault.PastFault.TheVariants.{Sealed as AsSealed};
ghost use Rattle.dr_store_sealed.specs.declared.fault.SealFault.TheVariants.{Memory as AsMemory};

use dr_store_sealed::SealFault;
use std::alloc::{AllocError, AllocFailed};
use thiserror::Error;

/// Why a file of a past can't be had.
#[derive(Clone, Copy, PartialEq, Eq, Debug, Error)]
pub enum PastFileFault {
    /// There is no such file.
    #[error("Missing")]
    Missing,
    /// Another process uses the file.
    #[error("InUse")]
    InUse,
    /// A call of the system failed.
    #[error("Store")]
    Store,
    #[error("Memory")]
    Memory,
}

/// Why lines of a past were not written or read.
#[derive(Clone, Copy, Debug, Error)]
pub enum PastFault {
    /// The file of that number can't be had.
    #[error("{0}")]
    File(PastFileFault),
    /// Lines were not sealed or read, or memory is wanting.
    #[error("{0}")]
    Sealed(SealFault),
    /// What is there is the text of no line of a journal.
    #[error("the file has a text that is no line of a journal")]
    NoLine,
    /// The past goes on in a file behind the first.
    #[error("the past goes on in a file behind the first")]
    Later,
    /// Lines can't be sealed into it.
    #[error("no lines are sealed here")]
    Nowhere,
}

impl From<PastFileFault> for PastFault {
    ghost from_gives = { λ fault result. result ≡ AsFile fault };

    fn from(fault: PastFileFault) -> PastFault {
        PastFault::File(fault)
    }
}

impl From<SealFault> for PastFault {
    ghost from_gives = { λ fault result. result ≡ AsSealed fault };

    fn from(fault: SealFault) -> PastFault {
        PastFault::Sealed(fault)
    }
}

impl From<AllocError> for PastFault {
    ghost from_gives = { λ _ result. result ≡ AsSealed AsMemory };

    fn from(_error: AllocError) -> PastFault {
        PastFault::Sealed(SealFault::Memory)
    }
}

impl<T: Drop> From<AllocFailed<T>> for PastFault {
    ghost from_gives = { λ _ result. result ≡ AsSealed AsMemory };

    fn from(_error: AllocFailed<T>) -> PastFault {
        PastFault::Sealed(SealFault::Memory)
    }
}
