//! Why bytes aren't read as a balance.
use std::alloc::{AllocError, AllocFailed};
use thiserror::Error;

/// Why bytes aren't read as a balance. Each is answered only where none in front of it holds, but
/// for the two on order, of which either may be answered where both hold. Memory is answered only
/// where a growth was refused, and it may come before the others.
#[derive(Clone, Copy, PartialEq, Eq, Debug, Error)]
pub enum BalanceFault {
    /// The bytes don't end with the line of a SHA-256: some are missing.
    #[error("Cut")]
    Cut,
    /// That line isn't of the SHA-256 of what is before it.
    #[error("Changed")]
    Changed,
    /// No balance has these lines: one is of no kind, or a number has a leading zero or too many
    /// bits, or something is missing, or behind what should be the last.
    #[error("NoBalance")]
    NoBalance,
    /// It is of more lines of a journal than was said.
    #[error("MoreThanSaid")]
    MoreThanSaid,
    /// A key stands behind a later one.
    #[error("OutOfOrder")]
    OutOfOrder,
    /// A key stands twice.
    #[error("Twice")]
    Twice,
    #[error("Memory")]
    Memory,
}

impl From<AllocError> for BalanceFault {
    ghost use Rattle.std.specs.Prelude.{◌≡◌};
    ghost use Rattle.dr_ledger_balance.specs.declared.fault.BalanceFault.TheVariants.{Memory};

    ghost from_gives = { λ _ e. e ≡ Memory };

    fn from(_: AllocError) -> BalanceFault {
        BalanceFault::Memory
    }
}

impl<T: Drop> From<AllocFailed<T>> for BalanceFault {
    ghost use Rattle.std.specs.Prelude.{◌≡◌};
    ghost use Rattle.dr_ledger_balance.specs.declared.fault.BalanceFault.TheVariants.{Memory};

    ghost from_gives = { λ _ e. e ≡ Memory };

    fn from(_: AllocFailed<T>) -> BalanceFault {
        BalanceFault::Memory
    }
}
