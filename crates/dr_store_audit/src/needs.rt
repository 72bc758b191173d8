//! Which data sets are needed.
ghost use Rattle.std.specs.Prelude.{◌≡◌, ◌⊎◌, ◌↔◌, Contains, IfOk, IsTrue, MatchResult, OnOk, not};
ghost use Rattle.std.specs.Prelude.{true};
ghost use Rattle.std.specs.FinSet as set;
ghost use Rattle.std.specs.List.{AllByRecursion};
ghost use Rattle.dr_base.specs.Texts.{text_cmp};
ghost use Rattle.dr_ledger.specs.Books.{is_queued};
ghost use Rattle.dr_ledger_history.specs.Trees.{as_set};
ghost use Rattle.dr_store_audit.specs.Needs.{IsOpenIn};
ghost use Rattle.dr_store_audit.specs.declared.fault.FindingFault.TheVariants.{Memory};

use crate::fault::FindingFault;
use dr_base::Text;
use dr_ledger::Progress;
use dr_ledger_history::put_uid;
use dr_store_reads::Print;
use std::alloc::{AllocError, Global};
use std::collections::BTreeSet;

/// Adds the uid of a row that waits or is held.
fn add_open(uids: &mut BTreeSet<Text>, row: &((Text, Text), Progress)) -> Result<(), AllocError>
    ensures { OnOk result
        ((uid : _)
        → (set.contains (as_set text_cmp uids.new) uid ≡ true)
        ↔ ((set.contains (as_set text_cmp uids.old) uid ≡ true)
        ⊎ ((uid ≡ row.now.0.0) × (is_queued row.now.1 ≡ true)))) }
{
    if row.1.is_queued() {
        return put_uid(uids, &row.0.0);
    }
    Ok(())
}

/// The uids that are kept, or have a row that waits or is held.
///
/// Errors: Memory.
pub fn needed(
    alloc: Global,
    kept: &[Text],
    rows: &[((Text, Text), Progress)],
) -> Result<BTreeSet<Text>, FindingFault>
    ensures { MatchResult result
        (λ uids. (uid : _)
        → (set.contains (as_set text_cmp uids) uid ≡ true)
        ↔ (Contains kept.now uid ⊎ IsOpenIn rows.now uid))
        (λ fault. fault ≡ Memory) }
{
    let mut uids = all_kept(alloc, kept)?;
    for row in rows {
        add_open(&mut uids, row)?;
    }
    Ok(uids)
}

/// The kept uids.
fn all_kept(alloc: Global, kept: &[Text]) -> Result<BTreeSet<Text>, AllocError>
    ensures { IfOk result (λ uids.
        (uid : _) → (set.contains (as_set text_cmp uids) uid ≡ true) ↔ Contains kept.now uid) }
{
    let mut uids = BTreeSet::new(alloc);
    for uid in kept {
        put_uid(&mut uids, uid)?;
    }
    Ok(uids)
}

/// Whether a print says that the data set is there just where it is needed.
fn is_as_needed(print: &(Text, Print), uids: &BTreeSet<Text>) -> bool
    ensures { IsTrue result
        ↔ (print.now.1.whole ≡ set.contains (as_set text_cmp uids.now) print.now.0) }
{
    print.1.whole == uids.contains(&print.0)
}

/// Whether just the data sets of these uids are there.
pub(crate) fn are_whole(prints: &[(Text, Print)], uids: &BTreeSet<Text>) -> bool
    ensures { IsTrue result
        ↔ AllByRecursion (λ p. p.1.whole ≡ set.contains (as_set text_cmp uids.now) p.0) prints.now }
{
    for print in prints {
        if !is_as_needed(print, uids) {
            return false;
        }
    }
    true
}
