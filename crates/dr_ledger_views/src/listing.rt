//! The same answers out of the lists that each ledger has: for one that has no shorter way, as the
//! ledger in memory. Each reads all that is listed.
ghost use Rattle.std.specs.Prelude.{◌≡◌, Some};
ghost use Rattle.std.specs.FinMap as map;
ghost use Rattle.std.specs.FinSet as set;
ghost use Rattle.dr_ledger.specs.Replies.{Counts, LastsThrough, Reads};
ghost use Rattle.dr_ledger_views.specs.Views.{AreCallers, IsLeast, dues, how_many, page_of};
ghost use Rattle.dr_ledger_views.specs.Views.{rows_of};

use crate::listed::{callers_of, first_due, how_many, page_of, rows_of};
use crate::stage::Stage;
use dr_base::{Seq, Text};
use dr_ledger::{Ledger, LedgerFault, Progress};
use std::alloc::Global;

/// How many arrivals are noted.
pub fn count_all_arrivals<L: Ledger>(ledger: &mut L) -> Result<u64, LedgerFault>
    ensures reply { L.stands ledger.new
        → Reads result (λ n. n ≡ set.len (L.book ledger.old).arrivals) }
    ensures same { L.stands ledger.new
        → (L.book ledger.new ≡ L.book ledger.old)
        × (L.bodies ledger.new ≡ L.bodies ledger.old) }
    ensures counts { Counts result (L.failed ledger.old) (L.failed ledger.new) }
    ensures armed { L.armed ledger.new ≡ L.armed ledger.old }
    ensures stood { L.stands ledger.new → L.stands ledger.old }
    ensures lasts { LastsThrough L.trusts L.stands ledger.old result ledger.new }
    ensures site { L.site ledger.new ≡ L.site ledger.old }
{
    let all = ledger.arrivals()?;
    Ok(all.len() as u64)
}

/// How many uids are kept.
pub fn count_all_kept<L: Ledger>(ledger: &mut L) -> Result<u64, LedgerFault>
    ensures reply { L.stands ledger.new
        → Reads result (λ n. n ≡ set.len (L.book ledger.old).kept) }
    ensures same { L.stands ledger.new
        → (L.book ledger.new ≡ L.book ledger.old)
        × (L.bodies ledger.new ≡ L.bodies ledger.old) }
    ensures counts { Counts result (L.failed ledger.old) (L.failed ledger.new) }
    ensures armed { L.armed ledger.new ≡ L.armed ledger.old }
    ensures stood { L.stands ledger.new → L.stands ledger.old }
    ensures lasts { LastsThrough L.trusts L.stands ledger.old result ledger.new }
    ensures site { L.site ledger.new ≡ L.site ledger.old }
{
    let all = ledger.kept()?;
    Ok(all.len() as u64)
}

/// How many rows to the destination are at the stage.
pub fn count_all_rows<L: Ledger>(
    ledger: &mut L,
    dest: &Text,
    stage: Stage,
) -> Result<u64, LedgerFault>
    ensures reply { L.stands ledger.new
        → Reads result (λ n. n
        ≡ how_many (map.entries (L.book ledger.old).rows) dest.now (Some stage)) }
    ensures same { L.stands ledger.new
        → (L.book ledger.new ≡ L.book ledger.old)
        × (L.bodies ledger.new ≡ L.bodies ledger.old) }
    ensures counts { Counts result (L.failed ledger.old) (L.failed ledger.new) }
    ensures armed { L.armed ledger.new ≡ L.armed ledger.old }
    ensures stood { L.stands ledger.new → L.stands ledger.old }
    ensures lasts { LastsThrough L.trusts L.stands ledger.old result ledger.new }
    ensures site { L.site ledger.new ≡ L.site ledger.old }
{
    let rows = ledger.rows()?;
    Ok(how_many(rows.as_slice(), dest, stage))
}

/// From which moment on the first row to the destination that waits is due.
pub fn first_of_all<L: Ledger>(ledger: &mut L, dest: &Text) -> Result<Option<u64>, LedgerFault>
    ensures reply { L.stands ledger.new
        → Reads result (IsLeast (dues (map.entries (L.book ledger.old).rows) dest.now)) }
    ensures same { L.stands ledger.new
        → (L.book ledger.new ≡ L.book ledger.old)
        × (L.bodies ledger.new ≡ L.bodies ledger.old) }
    ensures counts { Counts result (L.failed ledger.old) (L.failed ledger.new) }
    ensures armed { L.armed ledger.new ≡ L.armed ledger.old }
    ensures stood { L.stands ledger.new → L.stands ledger.old }
    ensures lasts { LastsThrough L.trusts L.stands ledger.old result ledger.new }
    ensures site { L.site ledger.new ≡ L.site ledger.old }
{
    let rows = ledger.rows()?;
    Ok(first_due(rows.as_slice(), dest))
}

/// The rows of an instance.
pub fn own_of_all<L: Ledger>(
    alloc: Global,
    ledger: &mut L,
    uid: &Text,
) -> Result<Seq<((Text, Text), Progress)>, LedgerFault>
    ensures reply { L.stands ledger.new
        → Reads result (λ all. all
        ≡ rows_of (map.entries (L.book ledger.old).rows) uid.now) }
    ensures same { L.stands ledger.new
        → (L.book ledger.new ≡ L.book ledger.old)
        × (L.bodies ledger.new ≡ L.bodies ledger.old) }
    ensures counts { Counts result (L.failed ledger.old) (L.failed ledger.new) }
    ensures armed { L.armed ledger.new ≡ L.armed ledger.old }
    ensures stood { L.stands ledger.new → L.stands ledger.old }
    ensures lasts { LastsThrough L.trusts L.stands ledger.old result ledger.new }
    ensures site { L.site ledger.new ≡ L.site ledger.old }
{
    let rows = ledger.rows()?;
    let own = rows_of(alloc, rows.as_slice(), uid)?;
    Ok(own)
}

/// A page of the rows to the destination.
pub fn page_of_all<L: Ledger>(
    alloc: Global,
    ledger: &mut L,
    dest: &Text,
    stage: Option<Stage>,
    after: &Text,
    limit: u32,
) -> Result<Seq<((Text, Text), Progress)>, LedgerFault>
    ensures reply { L.stands ledger.new
        → Reads result (λ all. all
        ≡ page_of (map.entries (L.book ledger.old).rows) dest.now stage after.now
        limit) }
    ensures same { L.stands ledger.new
        → (L.book ledger.new ≡ L.book ledger.old)
        × (L.bodies ledger.new ≡ L.bodies ledger.old) }
    ensures counts { Counts result (L.failed ledger.old) (L.failed ledger.new) }
    ensures armed { L.armed ledger.new ≡ L.armed ledger.old }
    ensures stood { L.stands ledger.new → L.stands ledger.old }
    ensures lasts { LastsThrough L.trusts L.stands ledger.old result ledger.new }
    ensures site { L.site ledger.new ≡ L.site ledger.old }
{
    let rows = ledger.rows()?;
    let page = page_of(alloc, rows.as_slice(), dest, stage, after, limit)?;
    Ok(page)
}

/// Who brought an instance.
pub fn callers_of_all<L: Ledger>(
    alloc: Global,
    ledger: &mut L,
    uid: &Text,
) -> Result<Seq<Text>, LedgerFault>
    ensures reply { L.stands ledger.new
        → Reads result (AreCallers (L.book ledger.old).arrivals uid.now) }
    ensures same { L.stands ledger.new
        → (L.book ledger.new ≡ L.book ledger.old)
        × (L.bodies ledger.new ≡ L.bodies ledger.old) }
    ensures counts { Counts result (L.failed ledger.old) (L.failed ledger.new) }
    ensures armed { L.armed ledger.new ≡ L.armed ledger.old }
    ensures stood { L.stands ledger.new → L.stands ledger.old }
    ensures lasts { LastsThrough L.trusts L.stands ledger.old result ledger.new }
    ensures site { L.site ledger.new ≡ L.site ledger.old }
{
    let arrivals = ledger.arrivals()?;
    let callers = callers_of(alloc, arrivals.as_slice(), uid)?;
    Ok(callers)
}
