//! Why a text is no plan.
ghost use Rattle.std.specs.Prelude.{◌≡◌};

use dr_plan_text::TextFault;
use std::alloc::AllocError;
use thiserror::Error;

/// Why a text is no plan: its first fault, each looked for in the whole text before the next one,
/// in this order. In format 3 the limit of what a text stands for comes before all but the first
/// two, then the names that nobody defines, and the others are those of the text to which it
/// expands.
#[derive(Clone, Copy, Debug, PartialEq, Eq, Error)]
pub enum PlanFault {
    /// The bytes aren't a text in TOML.
    #[error("L1 NotToml")]
    NotToml,
    /// A field is missing, unknown or ill-formed.
    #[error("L2 Field")]
    Field,
    /// A transfer syntax is neither of the two that are routed.
    #[error("L7 Syntax")]
    Syntax,
    /// A name is ill-formed, or two nodes have one name.
    #[error("L3 Name")]
    Name,
    /// There are more than 64 nodes, more than 1,024 rules and flows, or a `max_pdu` is out of its
    /// range; or a text of format 3 stands for more than one may.
    #[error("L6 Limit")]
    Limit,
    /// In format 3, a set, a group or a class is one that nobody defines.
    #[error("L4 UnknownName")]
    UnknownName,
    /// A name is no node's.
    #[error("L4 UnknownNode")]
    UnknownNode,
    /// A rule or a flow goes to its own node.
    #[error("L5 SelfRoute")]
    SelfRoute,
    /// There was no memory.
    #[error("Memory")]
    Memory,
}

impl From<AllocError> for PlanFault {
    ghost use Rattle.dr_plan_core.specs.declared.fault.PlanFault.TheVariants.{Memory};

    ghost from_gives = { λ _ fault. fault ≡ Memory };

    fn from(_: AllocError) -> PlanFault {
        PlanFault::Memory
    }
}

impl From<TextFault> for PlanFault {
    ghost use Rattle.dr_plan_core.specs.Faults.{plan_fault};

    ghost from_gives = { λ e fault. fault ≡ plan_fault e };

    fn from(fault: TextFault) -> PlanFault {
        match fault {
            TextFault::NotToml => PlanFault::NotToml,
            TextFault::Field => PlanFault::Field,
            TextFault::Memory => PlanFault::Memory,
        }
    }
}
