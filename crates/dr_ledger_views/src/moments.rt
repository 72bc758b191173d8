//! Moments beside the lines of a journal.
ghost use Rattle.std.specs.Prelude.{◌≡◌, ◌↔◌};
ghost use Rattle.dr_ledger.specs.Replies.{Counts, LastsThrough, Reads};

use dr_base::Text;
use dr_ledger::{LedgerFault, LetsGo};

/// Where an instance is from, as people are told: its SOP class, and the moment (milliseconds since
/// 1970) of the line by which it came first, where somebody told it.
#[derive(Drop)]
pub struct Origin {
    pub class: Text,
    pub moment: Option<u64>,
}

/// A ledger that is told the moment of what follows. Where its store has a place for it, it keeps
/// the moment beside each line, so that people see when an instance came; no book has it.
pub trait Moments: LetsGo {
    /// Tells the moment `now` (milliseconds since 1970) of each line that follows, until another
    /// one is told. A settling and a dropping have their own. It changes nothing else.
    fn at(&mut self, now: u64)
        ensures site { Self.site self.new ≡ Self.site self.old }
        ensures book { Self.book self.new ≡ Self.book self.old }
        ensures bodies { Self.bodies self.new ≡ Self.bodies self.old }
        ensures failed { Self.failed self.new ≡ Self.failed self.old }
        ensures armed { Self.armed self.new ≡ Self.armed self.old }
        ensures stands { Self.stands self.new ↔ Self.stands self.old }
        ensures trusts { Self.trusts self.new ↔ Self.trusts self.old };

    /// Where the instance of this uid is from; None where none is there, or nobody can tell. It
    /// only reads: Store and Memory.
    fn origin_of(&mut self, uid: &Text) -> Result<Option<Origin>, LedgerFault>
        ensures reply { Self.stands self.new → Reads result (λ origin. Unit {0}) }
        ensures same { Self.stands self.new
            → (Self.book self.new ≡ Self.book self.old)
            × (Self.bodies self.new ≡ Self.bodies self.old) }
        ensures counts { Counts result (Self.failed self.old) (Self.failed self.new) }
        ensures armed { Self.armed self.new ≡ Self.armed self.old }
        ensures stood { Self.stands self.new → Self.stands self.old }
        ensures lasts { LastsThrough Self.trusts Self.stands self.old result self.new }
        ensures site { Self.site self.new ≡ Self.site self.old };
}
