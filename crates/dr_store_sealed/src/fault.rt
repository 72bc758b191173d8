//! Why lines could not be sealed or read.
ghost use Rattle.std.specs.Prelude.{◌≡◌};
ghost use Rattle.dr_store_sealed.specs.declared.fault.SealFault.TheVariants.{Io as AsIo};
ghost use Rattle.dr_store_sealed.specs.declared.fault.SealFault.TheVariants.{Memory as AsMemory};

use std::alloc::{AllocError, AllocFailed};
use std::io;
use thiserror::Error;

#[derive(Clone, Copy, Debug, Error)]
pub enum SealFault {
    /// A call of the disk failed.
    #[error("{0}")]
    Io(io::Error),
    /// An allocation was refused.
    #[error("out of memory")]
    Memory,
    /// A sync failed before, so nothing more may be asked of the file.
    #[error("a sync of the file has failed")]
    Unusable,
    /// The file is shorter than the seal says.
    #[error("the file is shorter than its seal says")]
    Short,
    /// The file's last line has another chain than the seal.
    #[error("the file's last line has another chain than its seal")]
    OtherChain,
    /// What is there is no line with the chain that it ought to have.
    #[error("the file has a line whose chain is wrong")]
    Broken,
    /// A line has an end of a line in it, or is too long.
    #[error("a line has an end of a line in it, or is too long")]
    Unfit,
    /// The file takes no more lines.
    #[error("the file takes no more lines")]
    Full,
    /// No number is left that counts lines.
    #[error("no number is left for a line")]
    Uncounted,
}

impl From<io::Error> for SealFault {
    ghost from_gives = { λ error result. result ≡ AsIo error };

    fn from(error: io::Error) -> SealFault {
        SealFault::Io(error)
    }
}

impl<T: Drop> From<AllocFailed<T>> for SealFault {
    ghost from_gives = { λ _ result. result ≡ AsMemory };

    fn from(_error: AllocFailed<T>) -> SealFault {
        SealFault::Memory
    }
}

impl From<AllocError> for SealFault {
    ghost from_gives = { λ _ result. result ≡ AsMemory };

    fn from(_error: AllocError) -> SealFault {
        SealFault::Memory
    }
}
