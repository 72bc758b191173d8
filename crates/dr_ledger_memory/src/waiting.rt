//! The waiting rows of all destinations, in the order in which they are due.
ghost use Rattle.std.specs.Prelude.{◌≡◌, OnOk, IfOk, None, Some, option_map, []};
ghost use Rattle.std.specs.BTreeSet as sorted;
ghost use Rattle.std.specs.declared.ops.Bound.TheVariants.{Included, Unbounded};
ghost use Rattle.dr_ledger_memory.specs.Dues.{AreExpected, Covers, Grows, IsExpected, due_cmp};
ghost use Rattle.dr_ledger_memory.specs.Dues.{first_waiting, is_waiting as is_waiting_row};
ghost use Rattle.dr_ledger_memory.specs.Dues.{waits_since};

use crate::held::Held;
use dr_base::Text;
use dr_ledger::Progress;
use std::alloc::{AllocError, Global};
use std::collections::{BTreeMap, BTreeSet};

/// A destination, since when a row to it is due (milliseconds), and the row's uid.
pub type Due = (Text, (u64, Text));

/// The key of a row to that destination.
pub fn due_of(dest: &Text, due: u64, uid: &Text) -> Result<Due, AllocError>
    ensures { IfOk result (λ key. key ≡ (dest.now, (due, uid.now))) }
{
    let dest = dest.clone()?;
    let uid = uid.clone()?;
    Ok((dest, (due, uid)))
}

/// Adds the row's key, where it waits. No key goes, whatever the answer.
pub fn expect_one(
    keys: &mut BTreeSet<Due>,
    uid: &Text,
    dest: &Text,
    progress: Progress,
) -> Result<(), AllocError>
    ensures grows { Grows keys.old keys.new }
    ensures there { OnOk result (IsExpected uid.now dest.now progress keys.new) }
{
    if let Progress::Waiting { due, .. } = progress {
        let key = due_of(dest, due, uid)?;
        keys.insert(key)?;
    }
    Ok(())
}

/// Adds the keys of the rows that wait. No key goes, whatever the answer.
pub fn expect(
    keys: &mut BTreeSet<Due>,
    uid: &Text,
    rows: &[(Text, Progress)],
) -> Result<(), AllocError>
    ensures grows { Grows keys.old keys.new }
    ensures there { OnOk result (AreExpected uid.now rows.now keys.new) }
{
    for row in rows {
        expect_one(keys, uid, &row.0, row.1)?;
    }
    Ok(())
}

/// Whether the key is a waiting row's.
fn is_waiting(held: &BTreeMap<Text, Held>, key: &Due) -> bool
    ensures { result ≡ is_waiting_row held.now key.now }
{
    let Some(entry) = held.get(&key.1.1) else {
        return false;
    };
    waits(entry.row(&key.0), key.1.0)
}

fn waits(row: Option<Progress>, moment: u64) -> bool
    ensures { result ≡ waits_since row moment }
{
    match row {
        Some(Progress::Waiting { due, .. }) => due == moment,
        Some(Progress::Held(_)) => false,
        Some(Progress::Done) => false,
        Some(Progress::Dropped) => false,
        None => false,
    }
}

/// Takes the key out, if no waiting row has it.
pub fn forget(keys: &mut BTreeSet<Due>, held: &BTreeMap<Text, Held>, key: &Due)
    ensures { Covers keys.old held.now → Covers keys.new held.now }
{
    if !is_waiting(held, key) {
        keys.remove(key);
    }
}

/// The uid of the first row for the destination, by (due, uid), that waits and is due at the moment
/// `now` (milliseconds).
pub fn first_due(
    alloc: Global,
    held: &BTreeMap<Text, Held>,
    keys: &BTreeSet<Due>,
    dest: &Text,
    now: u64,
) -> Result<Option<Text>, AllocError>
    ensures ordered { OnOk result (sorted.IsOrdered due_cmp keys.now) }
    ensures first { IfOk result (λ uid. uid
        ≡ option_map
        (λ key. key.1.1)
        (first_waiting held.now dest.now now
        (sorted.keys_between due_cmp (Included (dest.now, (0, []))) Unbounded keys.now))) }
{
    let start = (dest.clone()?, (0, Text::empty(alloc)));
    for key in keys.range(start..) {
        if key.0 != *dest {
            return Ok(None);
        }
        if key.1.0 > now {
            return Ok(None);
        }
        if is_waiting(held, key) {
            return Ok(Some(key.1.1.clone()?));
        }
    }
    Ok(None)
}
