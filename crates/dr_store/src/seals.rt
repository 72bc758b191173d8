//! What lets the lines of a ledger leave for its past.
ghost use Rattle.std.specs.Prelude.{◌≡◌};
ghost use Rattle.dr_ledger.specs.Replies.{Counts, LastsThrough};

use dr_ledger::{Ledger, LedgerFault};

/// A ledger whose lines may leave the place in which it writes them.
pub trait Seals: Ledger {
    /// Lets all lines leave for the ledger's past. What it shows stays: its book has them still,
    /// and a refusal to take the next line stands.
    ///
    /// Errors: Store, Memory. The lines are told as before, wherever they are then.
    fn seal(&mut self) -> Result<(), LedgerFault>
        ensures same { Self.stands self.new
            → (Self.book self.new ≡ Self.book self.old)
            × (Self.bodies self.new ≡ Self.bodies self.old) }
        ensures counts { Counts result (Self.failed self.old) (Self.failed self.new) }
        ensures armed { Self.armed self.new ≡ Self.armed self.old }
        ensures stood { Self.stands self.new → Self.stands self.old }
        ensures lasts { LastsThrough Self.trusts Self.stands self.old result self.new }
        ensures site { Self.site self.new ≡ Self.site self.old };
}
