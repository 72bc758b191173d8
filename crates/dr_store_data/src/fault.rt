//! Why a file of data sets can't be had.
ghost use Rattle.std.specs.Prelude.{◌≡◌};
ghost use Rattle.dr_store_data.specs.declared.fault.DataFileFault.TheVariants.{Memory as AsMemory};
ghost use Rattle.dr_store_data.specs.declared.fault.DataFileFault.TheVariants.{Store as AsStore};

use std::alloc::{AllocError, AllocFailed};
use std::io;
use thiserror::Error;

#[derive(Clone, Copy, PartialEq, Eq, Debug, Error)]
pub enum DataFileFault {
    /// There is no such file.
    #[error("Missing")]
    Missing,
    /// A file is there already.
    #[error("IsThere")]
    IsThere,
    /// Another process uses the file.
    #[error("InUse")]
    InUse,
    /// A call of the system failed.
    #[error("Store")]
    Store,
    #[error("Memory")]
    Memory,
}

impl From<io::Error> for DataFileFault {
    ghost from_gives = { λ _ result. result ≡ AsStore };

    fn from(_error: io::Error) -> DataFileFault {
        DataFileFault::Store
    }
}

impl From<AllocError> for DataFileFault {
    ghost from_gives = { λ _ result. result ≡ AsMemory };

    fn from(_error: AllocError) -> DataFileFault {
        DataFileFault::Memory
    }
}

impl<T: Drop> From<AllocFailed<T>> for DataFileFault {
    ghost from_gives = { λ _ result. result ≡ AsMemory };

    fn from(_error: AllocFailed<T>) -> DataFileFault {
        DataFileFault::Memory
    }
}
