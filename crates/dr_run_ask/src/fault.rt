//! Why a node that runs doesn't do what it is asked or told.
use std::alloc::{AllocError, AllocFailed};
use std::fmt;
use std::fmt::{Display, Formatter};

/// Why a node that runs doesn't do what it is asked or told.
#[derive(Clone, Copy, PartialEq, Eq)]
pub enum AskFault {
    /// Nothing answers at the address.
    NoConnection,
    /// No whole answer came within 10 seconds.
    NoAnswer,
    /// What came is no answer of a node, or is too long for one.
    NoNodesAnswer,
    /// Another node answers there.
    OtherNode,
    /// The node has another plan.
    OtherPlan,
    /// The address or the token can't stand in a request.
    NoRequest,
    /// The node doesn't go by that address.
    Host,
    /// The node knows no such request.
    Unknown,
    /// The node was given no token: it can't be told anything.
    Closed,
    /// The token is lacking, or it is another one.
    Token,
    /// The node sends nothing to the one that it is to visit.
    NoHop,
    /// The node's journal has fewer lines than it told before.
    Shrunk,
    /// The row isn't held.
    NotHeld,
    /// The instance isn't over.
    NotOver,
    /// The path of the copy is one that a ledger takes.
    OwnFile,
    /// Something is at the path of the copy.
    IsThere,
    /// The path of the copy doesn't begin at the root, or is no text.
    NoPath,
    /// The node is making another copy.
    Busy,
    /// Calls at the node would wait too long for the copy, or the node ends.
    GivenUp,
    /// The node couldn't read or write a file of the copy.
    NoCopy,
    /// The node has its data sets in a file of their own, which isn't copied while it runs.
    DataFile,
    /// The node's store failed.
    Store,
    /// There was no memory.
    Memory,
}

impl From<AllocError> for AskFault {
    ghost use Rattle.std.specs.Prelude.{◌≡◌};
    ghost use Rattle.dr_run_ask.specs.declared.fault.AskFault.TheVariants.{Memory};

    ghost from_gives = { λ _ e. e ≡ Memory };

    fn from(_: AllocError) -> AskFault {
        AskFault::Memory
    }
}

impl<T: Drop> From<AllocFailed<T>> for AskFault {
    ghost use Rattle.std.specs.Prelude.{◌≡◌};
    ghost use Rattle.dr_run_ask.specs.declared.fault.AskFault.TheVariants.{Memory};

    ghost from_gives = { λ _ e. e ≡ Memory };

    fn from(_: AllocFailed<T>) -> AskFault {
        AskFault::Memory
    }
}

impl AskFault {
    /// Its code and its name, as they are printed.
    pub fn name(self) -> &'static str {
        match self {
            AskFault::NoConnection => "H1 NoConnection",
            AskFault::NoAnswer => "H2 NoAnswer",
            AskFault::NoNodesAnswer => "H3 NoNodesAnswer",
            AskFault::OtherNode => "H4 OtherNode",
            AskFault::OtherPlan => "H5 OtherPlan",
            AskFault::NoRequest => "H6 NoRequest",
            AskFault::Host => "H7 Host",
            AskFault::Unknown => "H8 Unknown",
            AskFault::Closed => "H9 Closed",
            AskFault::Token => "H10 Token",
            AskFault::NoHop => "H11 NoHop",
            AskFault::Shrunk => "H12 Shrunk",
            AskFault::NotHeld => "G5 NotHeld",
            AskFault::NotOver => "G7 NotOver",
            AskFault::OwnFile => "Q1 OwnFile",
            AskFault::IsThere => "Q3 IsThere",
            AskFault::NoPath => "Q4 NoPath",
            AskFault::Busy => "Q5 Busy",
            AskFault::GivenUp => "Q6 GivenUp",
            AskFault::NoCopy => "Q7 NoCopy",
            AskFault::DataFile => "Q8 DataFile",
            AskFault::Store => "G3 Store",
            AskFault::Memory => "Memory",
        }
    }
}

impl Display for AskFault {
    fn fmt<W: fmt::Write>(&self, f: &mut Formatter<W>) -> fmt::Result {
        f.write_str(self.name())
    }
}
