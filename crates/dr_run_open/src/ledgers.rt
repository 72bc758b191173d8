//! Where ledgers are.
ghost use Rattle.std.specs.Prelude.{◌≡◌};
ghost use Rattle.dr_run_open.specs.Openings.{refusal_of, refusal_of_new};

use dr_ledger::{Ledger, LetsGo};
use dr_ledger_views::Views;
use dr_site::Site;
use std::alloc::Global;
use thiserror::Error;

/// Why a ledger isn't opened.
#[derive(Clone, Copy, PartialEq, Eq, Debug, Error)]
pub enum OpenFault {
    /// It is of another node or of another plan, or no ledger at all.
    #[error("G6 OtherSite")]
    OtherSite,
    /// The file of its data sets isn't there, is too short, or is of another ledger.
    #[error("G6 OtherSite: DB.data")]
    NoData,
    /// Another program has it open.
    #[error("G3 Store: in use")]
    InUse,
    /// Its store failed.
    #[error("G3 Store")]
    Store,
    /// There is no file, and none is to be made.
    #[error("G8 NoLedger")]
    NoLedger,
    /// There is a file already, and a new one is to be made.
    #[error("G9 IsThere")]
    IsThere,
    /// There is a file of data sets already where a new one is to be made.
    #[error("G9 IsThere: DB.data")]
    DataIsThere,
    #[error("Memory")]
    Memory,
}

/// Whether a ledger's file may be made.
#[derive(Clone, Copy, PartialEq, Eq, Debug)]
pub enum Making {
    /// One is made where none is, with its data sets in its tables.
    Allowed,
    /// None is made: it has to be there.
    Never,
    /// One is made, with its data sets in its tables: none may be there.
    Wanted,
    /// One is made, with its data sets in a file of their own: none may be there.
    WantedWithData,
}

/// Why a new ledger isn't made by a path at which something is there, or isn't.
fn refusal_of_new(is_there: bool) -> Option<OpenFault>
    ensures { result ≡ refusal_of_new is_there }
{
    if is_there {
        return Some(OpenFault::IsThere);
    }
    None
}

impl Making {
    /// Why a ledger isn't opened by a path at which something is there, or isn't.
    pub fn refusal(self, is_there: bool) -> Option<OpenFault>
        ensures { result ≡ refusal_of self is_there }
    {
        match self {
            Making::Allowed => None,
            Making::Never => {
                if is_there {
                    return None;
                }
                Some(OpenFault::NoLedger)
            }
            Making::Wanted => refusal_of_new(is_there),
            Making::WantedWithData => refusal_of_new(is_there),
        }
    }
}

/// What opens a node's ledger by a path, or makes an empty one there. Its relation says which
/// ledgers may be opened by a path.
pub trait Ledgers {
    ghost use Rattle.std.specs.Prelude.{ℕ, List, ◌≡◌, IfOk};

    type Ledger: Ledger + LetsGo + Views + Drop;

    ghost opens: { Self → List ℕ → Self.Ledger → Type 0 };

    /// The ledger of that site.
    fn open(
        &self,
        alloc: Global,
        path: &str,
        site: Site,
        making: Making,
    ) -> Result<Self::Ledger, OpenFault>
        ensures opened { IfOk result (λ l. opens self.now path.now l) }
        ensures of { IfOk result (λ l. Self.Ledger.site l ≡ site) };
}
