//! Why tables that were found aren't taken.
ghost use Rattle.std.specs.Prelude.{◌≡◌};
ghost use Rattle.dr_store_audit.specs.Telling.{finding_by};

use dr_ledger_history::HistoryFault;
use std::alloc::{AllocError, AllocFailed};
use thiserror::Error;

/// Why tables that were found aren't taken for a ledger's of the site.
#[derive(Clone, Copy, PartialEq, Eq, Debug, Error)]
pub enum FindingFault {
    /// They aren't a ledger's of this site.
    #[error("OtherSite")]
    OtherSite,
    #[error("Memory")]
    Memory,
}

impl From<AllocError> for FindingFault {
    ghost use Rattle.std.specs.Prelude.{◌≡◌};
    ghost use Rattle.dr_store_audit.specs.declared.fault.FindingFault.TheVariants.{Memory};

    ghost from_gives = { λ _ e. e ≡ Memory };

    fn from(_: AllocError) -> FindingFault {
        FindingFault::Memory
    }
}

impl<T: Drop> From<AllocFailed<T>> for FindingFault {
    ghost use Rattle.std.specs.Prelude.{◌≡◌};
    ghost use Rattle.dr_store_audit.specs.declared.fault.FindingFault.TheVariants.{Memory};

    ghost from_gives = { λ _ e. e ≡ Memory };

    fn from(_: AllocFailed<T>) -> FindingFault {
        FindingFault::Memory
    }
}

/// What a line that isn't taken says of the tables.
pub fn of_history(fault: HistoryFault) -> FindingFault
    ensures { result ≡ finding_by fault }
{
    match fault {
        HistoryFault::NoCall => FindingFault::OtherSite,
        HistoryFault::Memory => FindingFault::Memory,
    }
}
