//! Why a text isn't read.
use std::alloc::{AllocError, AllocFailed};
use thiserror::Error;

/// Why a text isn't read. Memory is answered only where a growth was refused, and it may come
/// before a later row is known to be wrong.
#[derive(Clone, Copy, PartialEq, Eq, Debug, Error)]
pub enum CertificateFault {
    /// No certificate is written so.
    #[error("Text")]
    Text,
    #[error("Memory")]
    Memory,
}

impl From<AllocError> for CertificateFault {
    ghost use Rattle.std.specs.Prelude.{◌≡◌};
    ghost use Rattle.dr_cert_text.specs.declared.fault.CertificateFault.TheVariants.{Memory};

    ghost from_gives = { λ _ e. e ≡ Memory };

    fn from(_: AllocError) -> CertificateFault {
        CertificateFault::Memory
    }
}

impl<T: Drop> From<AllocFailed<T>> for CertificateFault {
    ghost use Rattle.std.specs.Prelude.{◌≡◌};
    ghost use Rattle.dr_cert_text.specs.declared.fault.CertificateFault.TheVariants.{Memory};

    ghost from_gives = { λ _ e. e ≡ Memory };

    fn from(_: AllocFailed<T>) -> CertificateFault {
        CertificateFault::Memory
    }
}
