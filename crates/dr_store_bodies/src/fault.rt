//! Why a data set could not be put or read.
ghost use Rattle.std.specs.Prelude.{◌≡◌};
ghost use Rattle.dr_store_bodies.specs.declared.fault.BodyFault.TheVariants.{Io as AsIo};
ghost use Rattle.dr_store_bodies.specs.declared.fault.BodyFault.TheVariants.{Memory as AsMemory};

use std::alloc::AllocFailed;
use std::io;
use thiserror::Error;

#[derive(Clone, Copy, Debug, Error)]
pub enum BodyFault {
    /// A call of the disk failed.
    #[error("{0}")]
    Io(io::Error),
    /// An allocation was refused.
    #[error("out of memory")]
    Memory,
    /// A sync failed before, so nothing more may be asked of the file.
    #[error("a sync of the file has failed")]
    Unusable,
    /// The extents are empty, out of order, or reach past the file's end.
    #[error("the extents do not fit the file")]
    Misfit,
    /// No place is left that a `usize` names.
    #[error("no place is left in the file")]
    Full,
}

impl From<io::Error> for BodyFault {
    ghost from_gives = { λ error result. result ≡ AsIo error };

    fn from(error: io::Error) -> BodyFault {
        BodyFault::Io(error)
    }
}

impl<T: Drop> From<AllocFailed<T>> for BodyFault {
    ghost from_gives = { λ _ result. result ≡ AsMemory };

    fn from(_error: AllocFailed<T>) -> BodyFault {
        BodyFault::Memory
    }
}
