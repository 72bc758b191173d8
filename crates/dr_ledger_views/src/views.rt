//! What is asked of a ledger without a list of all that it has.
ghost use Rattle.std.specs.Prelude.{◌≡◌, ℕ, List, length, map as mapped};
ghost use Rattle.std.specs.FinMap as map;
ghost use Rattle.std.specs.FinSet as set;
ghost use Rattle.dr_ledger.specs.Replies.{Counts, LastsThrough, Reads};
ghost use Rattle.dr_ledger.specs.Books.{Line};
ghost use Rattle.dr_ledger_history.specs.Lines.{line_of};
ghost use Rattle.dr_ledger_views.specs.Numbers.{AreBehind, HaveNumbers, last_of};
ghost use Rattle.dr_ledger_views.specs.Views.{AreCallers, IsLeast, IsTally, dues, how_many};
ghost use Rattle.dr_ledger_views.specs.Views.{page_of, rows_of};
ghost use Rattle.std.specs.Prelude.{Some};

use crate::moments::Moments;
use crate::stage::{HopTally, Stage};
use dr_base::{Seq, Text};
use dr_ledger::{LedgerFault, LetsGo, Progress};
use dr_ledger_history::JournalLine;

/// A ledger that answers what is asked without a list of all that it has. Each of these calls only
/// reads, as those of `Ledger` do: Store and Memory.
pub trait Views: Moments {
    // The lines of the journal with their numbers.
    ghost numbered: { Self → List (ℕ × Line) };

    /// How many arrivals it notes: callers with the uids that they brought since the last adoption.
    fn count_arrivals(&mut self) -> Result<u64, LedgerFault>
        ensures reply { Self.stands self.new
            → Reads result (λ n. n ≡ set.len (Self.book self.old).arrivals) }
        ensures same { Self.stands self.new
            → (Self.book self.new ≡ Self.book self.old)
            × (Self.bodies self.new ≡ Self.bodies self.old) }
        ensures counts { Counts result (Self.failed self.old) (Self.failed self.new) }
        ensures armed { Self.armed self.new ≡ Self.armed self.old }
        ensures stood { Self.stands self.new → Self.stands self.old }
        ensures lasts { LastsThrough Self.trusts Self.stands self.old result self.new }
        ensures site { Self.site self.new ≡ Self.site self.old };

    /// How many uids it keeps.
    fn count_kept(&mut self) -> Result<u64, LedgerFault>
        ensures reply { Self.stands self.new
            → Reads result (λ n. n ≡ set.len (Self.book self.old).kept) }
        ensures same { Self.stands self.new
            → (Self.book self.new ≡ Self.book self.old)
            × (Self.bodies self.new ≡ Self.bodies self.old) }
        ensures counts { Counts result (Self.failed self.old) (Self.failed self.new) }
        ensures armed { Self.armed self.new ≡ Self.armed self.old }
        ensures stood { Self.stands self.new → Self.stands self.old }
        ensures lasts { LastsThrough Self.trusts Self.stands self.old result self.new }
        ensures site { Self.site self.new ≡ Self.site self.old };

    /// How many lines its journal has, which is the number of the last one.
    fn line_count(&mut self) -> Result<u64, LedgerFault>
        ensures reply { Self.stands self.new
            → Reads result (λ n. n ≡ length (Self.book self.old).lines) }
        ensures same { Self.stands self.new
            → (Self.book self.new ≡ Self.book self.old)
            × (Self.bodies self.new ≡ Self.bodies self.old) }
        ensures counts { Counts result (Self.failed self.old) (Self.failed self.new) }
        ensures armed { Self.armed self.new ≡ Self.armed self.old }
        ensures stood { Self.stands self.new → Self.stands self.old }
        ensures lasts { LastsThrough Self.trusts Self.stands self.old result self.new }
        ensures site { Self.site self.new ≡ Self.site self.old };

    /// How many rows to the destination are at the stage.
    fn count_rows(&mut self, dest: &Text, stage: Stage) -> Result<u64, LedgerFault>
        ensures reply { Self.stands self.new
            → Reads result (λ n. n
            ≡ how_many (map.entries (Self.book self.old).rows) dest.now (Some stage)) }
        ensures same { Self.stands self.new
            → (Self.book self.new ≡ Self.book self.old)
            × (Self.bodies self.new ≡ Self.bodies self.old) }
        ensures counts { Counts result (Self.failed self.old) (Self.failed self.new) }
        ensures armed { Self.armed self.new ≡ Self.armed self.old }
        ensures stood { Self.stands self.new → Self.stands self.old }
        ensures lasts { LastsThrough Self.trusts Self.stands self.old result self.new }
        ensures site { Self.site self.new ≡ Self.site self.old };

    /// The moment (milliseconds) from which on the first row to the destination that waits is due;
    /// None where none waits.
    fn first_due(&mut self, dest: &Text) -> Result<Option<u64>, LedgerFault>
        ensures reply { Self.stands self.new
            → Reads result
            (IsLeast (dues (map.entries (Self.book self.old).rows) dest.now)) }
        ensures same { Self.stands self.new
            → (Self.book self.new ≡ Self.book self.old)
            × (Self.bodies self.new ≡ Self.bodies self.old) }
        ensures counts { Counts result (Self.failed self.old) (Self.failed self.new) }
        ensures armed { Self.armed self.new ≡ Self.armed self.old }
        ensures stood { Self.stands self.new → Self.stands self.old }
        ensures lasts { LastsThrough Self.trusts Self.stands self.old result self.new }
        ensures site { Self.site self.new ≡ Self.site self.old };

    /// The rows of an instance, in byte order of their destinations.
    fn rows_of(&mut self, uid: &Text) -> Result<Seq<((Text, Text), Progress)>, LedgerFault>
        ensures reply { Self.stands self.new
            → Reads result (λ all. all
            ≡ rows_of (map.entries (Self.book self.old).rows) uid.now) }
        ensures same { Self.stands self.new
            → (Self.book self.new ≡ Self.book self.old)
            × (Self.bodies self.new ≡ Self.bodies self.old) }
        ensures counts { Counts result (Self.failed self.old) (Self.failed self.new) }
        ensures armed { Self.armed self.new ≡ Self.armed self.old }
        ensures stood { Self.stands self.new → Self.stands self.old }
        ensures lasts { LastsThrough Self.trusts Self.stands self.old result self.new }
        ensures site { Self.site self.new ≡ Self.site self.old };

    /// A page of the rows to the destination, in byte order of their uids: the first `limit` of
    /// those that are at the stage, if one is named, and whose uid comes behind `after`. No uid is
    /// empty, so that the first page is the one behind the empty text.
    fn page(
        &mut self,
        dest: &Text,
        stage: Option<Stage>,
        after: &Text,
        limit: u32,
    ) -> Result<Seq<((Text, Text), Progress)>, LedgerFault>
        ensures reply { Self.stands self.new
            → Reads result (λ all. all
            ≡ page_of (map.entries (Self.book self.old).rows) dest.now stage
            after.now limit) }
        ensures same { Self.stands self.new
            → (Self.book self.new ≡ Self.book self.old)
            × (Self.bodies self.new ≡ Self.bodies self.old) }
        ensures counts { Counts result (Self.failed self.old) (Self.failed self.new) }
        ensures armed { Self.armed self.new ≡ Self.armed self.old }
        ensures stood { Self.stands self.new → Self.stands self.old }
        ensures lasts { LastsThrough Self.trusts Self.stands self.old result self.new }
        ensures site { Self.site self.new ≡ Self.site self.old };

    /// Who brought an instance since the last adoption, in byte order.
    fn callers_of(&mut self, uid: &Text) -> Result<Seq<Text>, LedgerFault>
        ensures reply { Self.stands self.new
            → Reads result (AreCallers (Self.book self.old).arrivals uid.now) }
        ensures same { Self.stands self.new
            → (Self.book self.new ≡ Self.book self.old)
            × (Self.bodies self.new ≡ Self.bodies self.old) }
        ensures counts { Counts result (Self.failed self.old) (Self.failed self.new) }
        ensures armed { Self.armed self.new ≡ Self.armed self.old }
        ensures stood { Self.stands self.new → Self.stands self.old }
        ensures lasts { LastsThrough Self.trusts Self.stands self.old result self.new }
        ensures site { Self.site self.new ≡ Self.site self.old };

    /// The lines of the journal whose numbers lie behind that one, in order, each with the instance
    /// that it is of: so many at most. Their numbers follow it and one another. Where a number is
    /// missing among them, it is a fault of the store: Store.
    fn lines_behind(&mut self, after: u64, limit: u32) -> Result<Seq<JournalLine>, LedgerFault>
        ensures reply { Self.stands self.new
            → Reads result (λ lines.
            AreBehind after limit (Self.numbered self.old) (mapped line_of lines)) }
        ensures numbered { HaveNumbers (Self.book self.old).lines (Self.numbered self.old) }
        ensures same { Self.stands self.new
            → (Self.book self.new ≡ Self.book self.old)
            × (Self.bodies self.new ≡ Self.bodies self.old) }
        ensures counts { Counts result (Self.failed self.old) (Self.failed self.new) }
        ensures armed { Self.armed self.new ≡ Self.armed self.old }
        ensures stood { Self.stands self.new → Self.stands self.old }
        ensures lasts { LastsThrough Self.trusts Self.stands self.old result self.new }
        ensures site { Self.site self.new ≡ Self.site self.old };
}

/// The last of so many numbers behind that one. No line has a number of 2^63 or above.
pub fn last_behind(after: u64, limit: u32) -> u64
    ensures { result ≡ last_of after limit }
{
    after.saturating_add(u64::from(limit)).min(i64::MAX as u64)
}

/// How many rows to the destination are at which stage, and since when the first that waits is due.
pub fn tally<L: Views>(ledger: &mut L, dest: &Text) -> Result<HopTally, LedgerFault>
    ensures reply { L.stands ledger.new
        → Reads result (IsTally (map.entries (L.book ledger.old).rows) dest.now) }
    ensures same { L.stands ledger.new
        → (L.book ledger.new ≡ L.book ledger.old)
        × (L.bodies ledger.new ≡ L.bodies ledger.old) }
    ensures counts { Counts result (L.failed ledger.old) (L.failed ledger.new) }
    ensures armed { L.armed ledger.new ≡ L.armed ledger.old }
    ensures stood { L.stands ledger.new → L.stands ledger.old }
    ensures lasts { LastsThrough L.trusts L.stands ledger.old result ledger.new }
    ensures site { L.site ledger.new ≡ L.site ledger.old }
{
    let waiting = ledger.count_rows(dest, Stage::Waiting)?;
    let held = ledger.count_rows(dest, Stage::Held)?;
    let done = ledger.count_rows(dest, Stage::Done)?;
    let dropped = ledger.count_rows(dest, Stage::Dropped)?;
    let due = ledger.first_due(dest)?;
    Ok(HopTally {
        waiting,
        held,
        done,
        dropped,
        due,
    })
}
