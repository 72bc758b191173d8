//! Why a data set was not put, or not read.
ghost use Rattle.std.specs.Prelude.{◌≡◌};
ghost use Rattle.dr_store_shelf.specs.declared.fault.ShelfFault.TheVariants.{Memory as AsMemory};
ghost use Rattle.dr_store_shelf.specs.Shelves.{fault_for};

use dr_store_bodies::BodyFault;
use std::alloc::AllocError;
use std::io;
use thiserror::Error;

#[derive(Clone, Copy, Debug, Error)]
pub enum ShelfFault {
    /// A call of the disk failed.
    #[error("{0}")]
    Io(io::Error),
    /// An allocation was refused.
    #[error("out of memory")]
    Memory,
    /// A sync failed before, so nothing more may be asked of the file.
    #[error("a sync of the file has failed")]
    Unusable,
    /// No place is left in the file.
    #[error("no place is left in the file")]
    Full,
    /// The cell names no place of the file.
    #[error("the cell names no place of the file")]
    NoCell,
    /// What was read isn't what was put.
    #[error("the data set can't be read")]
    Unreadable,
}

impl From<BodyFault> for ShelfFault {
    ghost from_gives = { λ fault result. result ≡ fault_for fault };

    fn from(fault: BodyFault) -> ShelfFault {
        match fault {
            BodyFault::Io(error) => ShelfFault::Io(error),
            BodyFault::Memory => ShelfFault::Memory,
            BodyFault::Unusable => ShelfFault::Unusable,
            BodyFault::Misfit => ShelfFault::NoCell,
            BodyFault::Full => ShelfFault::Full,
        }
    }
}

impl From<AllocError> for ShelfFault {
    ghost from_gives = { λ _ result. result ≡ AsMemory };

    fn from(_error: AllocError) -> ShelfFault {
        ShelfFault::Memory
    }
}
