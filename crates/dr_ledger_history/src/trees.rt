//! Changes of a book's maps and sets, each held in a tree.
ghost use Rattle.std.specs.Prelude.{◌≡◌, OnOk, unwrap_or};
ghost use Rattle.std.specs.FinMap as map;
ghost use Rattle.std.specs.FinSet as set;
ghost use Rattle.dr_base.specs.Texts.{text_cmp};
ghost use Rattle.dr_ledger.specs.Books.{arrived_row, is_queued, not_over, with_rows};
ghost use Rattle.dr_ledger.specs.Pairs.{pair_cmp};
ghost use Rattle.dr_ledger_history.specs.Trees.{as_map, as_set, stands as does_stand};

use dr_base::Text;
use dr_ledger::{Instance, Progress};
use std::alloc::AllocError;
use std::collections::{BTreeMap, BTreeSet};

/// The value that a key had before is nobody's concern.
fn let_go<T: Drop>(_value: T) {}

/// Puts an instance in, where its uid has none.
pub fn put_item(items: &mut BTreeMap<Text, Instance>, instance: Instance) -> Result<(), AllocError>
    ensures { OnOk result
        (as_map text_cmp items.new
        ≡ map.insert (as_map text_cmp items.old) instance.uid
        (unwrap_or (map.get (as_map text_cmp items.old) instance.uid) instance)) }
{
    if items.contains_key(&instance.uid) {
        return Ok(());
    }
    let uid = instance.uid.clone()?;
    let_go(items.insert(uid, instance)?);
    Ok(())
}

/// Notes who brought which uid.
pub fn put_arrival(
    arrivals: &mut BTreeSet<(Text, Text)>,
    arrival: (Text, Text),
) -> Result<(), AllocError>
    ensures { OnOk result
        (as_set pair_cmp arrivals.new ≡ set.insert (as_set pair_cmp arrivals.old) arrival) }
{
    arrivals.insert(arrival)?;
    Ok(())
}

/// Puts a uid in.
pub fn put_uid(uids: &mut BTreeSet<Text>, uid: &Text) -> Result<(), AllocError>
    ensures { OnOk result
        (as_set text_cmp uids.new ≡ set.insert (as_set text_cmp uids.old) uid.now) }
{
    uids.insert(uid.clone()?)?;
    Ok(())
}

/// Puts a row in the place of the one that is there, if one is.
pub fn put_row(
    rows: &mut BTreeMap<(Text, Text), Progress>,
    at: (Text, Text),
    row: Progress,
) -> Result<(), AllocError>
    ensures { OnOk result
        (as_map pair_cmp rows.new ≡ map.insert (as_map pair_cmp rows.old) at row) }
{
    rows.insert(at, row)?;
    Ok(())
}

/// Whether a row was found that an arrival leaves as it is: any but one that was dropped.
pub fn stands(found: Option<Progress>) -> bool
    ensures { result ≡ does_stand found }
{
    match found {
        None => false,
        Some(Progress::Dropped) => false,
        Some(Progress::Done) => true,
        Some(Progress::Held(_)) => true,
        Some(Progress::Waiting { .. }) => true,
    }
}

/// Puts a waiting row in, where the uid has none to that destination, or one that was dropped.
fn fill_one(
    rows: &mut BTreeMap<(Text, Text), Progress>,
    uid: &Text,
    dest: &Text,
) -> Result<(), AllocError>
    ensures { OnOk result
        (as_map pair_cmp rows.new
        ≡ map.insert (as_map pair_cmp rows.old) (uid.now, dest.now)
        (arrived_row (map.get (as_map pair_cmp rows.old) (uid.now, dest.now)))) }
{
    let at = (uid.clone()?, dest.clone()?);
    if stands(rows.get(&at).copied()) {
        return Ok(());
    }
    rows.insert(at, Progress::Waiting { tries: 0, due: 0 })?;
    Ok(())
}

/// Puts a waiting row in for each destination to which the uid has none, or one that was dropped.
pub fn fill(
    rows: &mut BTreeMap<(Text, Text), Progress>,
    uid: &Text,
    to: &[Text],
) -> Result<(), AllocError>
    ensures { OnOk result
        (as_map pair_cmp rows.new ≡ with_rows (as_map pair_cmp rows.old) uid.now to.now) }
{
    for dest in to {
        fill_one(rows, uid, dest)?;
    }
    Ok(())
}

/// Lets rows go that are done or dropped.
pub fn prune(rows: &mut BTreeMap<(Text, Text), Progress>)
    ensures { as_map pair_cmp rows.new ≡ not_over (as_map pair_cmp rows.old) }
{
    rows.retain(|_, row| row.is_queued());
}

/// Lets all arrivals go.
pub fn clear(arrivals: &mut BTreeSet<(Text, Text)>)
    ensures { as_set pair_cmp arrivals.new ≡ set.empty }
{
    arrivals.clear();
}
