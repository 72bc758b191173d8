//! Ledgers as they are found.
ghost use Rattle.std.specs.Prelude.{IfOk};
ghost use Rattle.dr_word_rehearse.specs.Looks.{IsFoundBy};

use dr_ledger::Ledger;
use dr_run_open::OpenFault;
use dr_site::Site;
use dr_word_adopt::ShowsFiles;
use std::alloc::Global;

/// What is found by the path of a ledger.
#[derive(Drop)]
pub enum LedgerFound<L: Ledger + Drop> {
    /// A ledger's file from before, which would first have to be brought over.
    Older,
    /// The ledger.
    Ledger(L),
}

/// Ledgers that can be opened as they are found: none is made, and none is brought over.
pub trait Finds: ShowsFiles {
    /// The ledger of that site, or a file from before.
    ///
    /// Errors: NoLedger, where nothing is there; those of an opening.
    fn find(
        &self,
        alloc: Global,
        path: &str,
        site: Site,
    ) -> Result<LedgerFound<Self::Ledger>, OpenFault>
        ensures { IfOk result (IsFoundBy (Self.opens self.now path.now) Self.Ledger.site site) };
}
