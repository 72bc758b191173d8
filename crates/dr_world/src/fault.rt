//! Why a world can't go on, or can't be made.
ghost use Rattle.std.specs.Prelude.{◌≡◌};
ghost use Rattle.dr_world.specs.declared.fault.WorldFault.TheVariants.{Memory};

use dr_node::NodeFault;
use std::alloc::{AllocError, AllocFailed};
use thiserror::Error;

/// Why a world can't go on, or can't be made.
#[derive(Clone, Copy, PartialEq, Eq, Debug, Error)]
pub enum WorldFault {
    /// Another number of ledgers than of nodes, one that isn't empty, or one of another site.
    #[error("V1 WrongLedgers")]
    WrongLedgers,
    /// A ledger's store failed.
    #[error("Store")]
    Store,
    /// A ledger's store failed while all nodes were to take another plan; some may have taken it.
    #[error("U2 Store")]
    HalfAdopted,
    #[error("Memory")]
    Memory,
}

impl From<AllocError> for WorldFault {
    ghost from_gives = { λ _ e. e ≡ Memory };

    fn from(_e: AllocError) -> WorldFault {
        WorldFault::Memory
    }
}

impl<T: Drop> From<AllocFailed<T>> for WorldFault {
    ghost from_gives = { λ _ e. e ≡ Memory };

    fn from(_e: AllocFailed<T>) -> WorldFault {
        WorldFault::Memory
    }
}

impl From<NodeFault> for WorldFault {
    ghost from_gives = { λ _ e. e ≡ Memory };

    fn from(_e: NodeFault) -> WorldFault {
        WorldFault::Memory
    }
}
