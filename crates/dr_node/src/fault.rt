//! Why a node refuses a call.
ghost use Rattle.std.specs.Prelude.{◌≡◌};
ghost use Rattle.dr_node.specs.declared.fault.NodeFault.TheVariants.{Memory};

use std::alloc::{AllocError, AllocFailed};
use thiserror::Error;

/// Why a node refuses a call. They are tested in this order.
#[derive(Clone, Copy, PartialEq, Eq, Debug, Error)]
pub enum NodeFault {
    /// The node has a link of this number.
    #[error("B1 LinkKnown")]
    LinkKnown,
    /// The node has no link of this number.
    #[error("B2 LinkUnknown")]
    LinkUnknown,
    /// The site has no hop to that node.
    #[error("B3 NoHop")]
    NoHop,
    #[error("Memory")]
    Memory,
}

impl From<AllocError> for NodeFault {
    ghost from_gives = { λ _ e. e ≡ Memory };

    fn from(_e: AllocError) -> NodeFault {
        NodeFault::Memory
    }
}

impl<T: Drop> From<AllocFailed<T>> for NodeFault {
    ghost from_gives = { λ _ e. e ≡ Memory };

    fn from(_e: AllocFailed<T>) -> NodeFault {
        NodeFault::Memory
    }
}
