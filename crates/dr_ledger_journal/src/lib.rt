//! Ledgers that tell their whole journal: `TellsJournal`.
//!
//! What `Ledger::lines` shows of an instance is no more than its length. Who compares the journals
//! of several nodes needs its SHA-256 too.
#![tactic(auto)]

ghost use Rattle.std.specs.Prelude.{◌≡◌, map as mapped};
ghost use Rattle.dr_ledger.specs.Replies.{Counts, LastsThrough, Reads};
ghost use Rattle.dr_ledger_history.specs.Lines.{line_of};

use dr_base::Seq;
use dr_ledger::{Ledger, LedgerFault};
use dr_ledger_history::JournalLine;

/// A ledger that tells its whole journal. What is claimed of it stands under the ledger's premise,
/// as in `Ledger`.
pub trait TellsJournal: Ledger {
    /// The lines of the journal, in order, each with the instance that it is of. Store and Memory.
    fn journal(&mut self) -> Result<Seq<JournalLine>, LedgerFault>
        ensures reply { Self.stands self.new
            → Reads result (λ all. mapped line_of all ≡ (Self.book self.old).lines) }
        ensures same { Self.stands self.new
            → (Self.book self.new ≡ Self.book self.old)
            × (Self.bodies self.new ≡ Self.bodies self.old) }
        ensures counts { Counts result (Self.failed self.old) (Self.failed self.new) }
        ensures armed { Self.armed self.new ≡ Self.armed self.old }
        ensures stood { Self.stands self.new → Self.stands self.old }
        ensures lasts { LastsThrough Self.trusts Self.stands self.old result self.new }
        ensures site { Self.site self.new ≡ Self.site self.old };
}
