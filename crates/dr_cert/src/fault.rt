//! Why a certificate isn't accepted.
use dr_cert_text::CertificateFault;
use std::alloc::{AllocError, AllocFailed};
use thiserror::Error;

/// Why a certificate isn't accepted, in the order of the tests; Memory, which comes last, is
/// answered only where a growth was refused.
#[derive(Clone, Copy, PartialEq, Eq, Debug, Error)]
pub enum CertFault {
    /// No certificate is written so.
    #[error("C1 Text")]
    Text,
    /// It is that of a plan with another SHA-256.
    #[error("C2 OtherPlan")]
    OtherPlan,
    /// The lines or the hops aren't in the byte order of their printed rows, or one of them stands
    /// there twice; or, where no fault before WrongRank shows, no walk from an entry comes to the
    /// stop of some line.
    #[error("C8 Order")]
    Order,
    /// A walk from an entry comes to a stop that has no line.
    #[error("C3 MissingLine")]
    MissingLine,
    /// A hop of a walk from an entry isn't accepted.
    #[error("C5 NoContext")]
    NoContext,
    /// A node to which a walk from an entry comes neither keeps the instance nor sends it on.
    #[error("C6 DeadEnd")]
    DeadEnd,
    /// A line's rank isn't the greatest number of hops left.
    #[error("C4 WrongRank")]
    WrongRank,
    /// The hops aren't just those of the plan with their numbers, or one has more than 128 pairs.
    #[error("C7 HopList")]
    HopList,
    #[error("Memory")]
    Memory,
}

impl From<AllocError> for CertFault {
    ghost use Rattle.std.specs.Prelude.{◌≡◌};
    ghost use Rattle.dr_cert.specs.declared.fault.CertFault.TheVariants.{Memory};

    ghost from_gives = { λ _ e. e ≡ Memory };

    fn from(_: AllocError) -> CertFault {
        CertFault::Memory
    }
}

/// A text that isn't read is refused by the same name.
impl From<CertificateFault> for CertFault {
    ghost use Rattle.std.specs.Prelude.{◌≡◌};
    ghost use Rattle.dr_cert.specs.Refusing.{named_for};

    ghost from_gives = { λ fault e. e ≡ named_for fault };

    fn from(fault: CertificateFault) -> CertFault {
        match fault {
            CertificateFault::Text => CertFault::Text,
            CertificateFault::Memory => CertFault::Memory,
        }
    }
}
