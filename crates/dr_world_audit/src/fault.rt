//! Why a journal isn't read to its end.
ghost use Rattle.std.specs.Prelude.{◌≡◌};
ghost use Rattle.dr_world_audit.specs.Standing.{as_read};

use dr_base::Text;
use dr_ledger_history::HistoryFault;
use std::alloc::{AllocError, AllocFailed};

/// Why a journal isn't read to its end.
#[derive(Drop)]
pub enum JournalFault {
    /// The lines are no history of the node.
    NoCall,
    /// The row of the instance to the node was carried over, and the plan has no such hop for it.
    Unfit { uid: Text, to: Text },
    Memory,
}

impl From<AllocError> for JournalFault {
    ghost use Rattle.std.specs.Prelude.{◌≡◌};
    ghost use Rattle.dr_world_audit.specs.declared.fault.JournalFault.TheVariants.{Memory};

    ghost from_gives = { λ _ e. e ≡ Memory };

    fn from(_: AllocError) -> JournalFault {
        JournalFault::Memory
    }
}

impl<T: Drop> From<AllocFailed<T>> for JournalFault {
    ghost use Rattle.std.specs.Prelude.{◌≡◌};
    ghost use Rattle.dr_world_audit.specs.declared.fault.JournalFault.TheVariants.{Memory};

    ghost from_gives = { λ _ e. e ≡ Memory };

    fn from(_: AllocFailed<T>) -> JournalFault {
        JournalFault::Memory
    }
}

/// The fault of a journal for that of its history.
pub fn of_history(fault: HistoryFault) -> JournalFault
    ensures { result ≡ as_read fault }
{
    match fault {
        HistoryFault::NoCall => JournalFault::NoCall,
        HistoryFault::Memory => JournalFault::Memory,
    }
}
