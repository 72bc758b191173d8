//! Trees and lists that are the same.
ghost use Rattle.std.specs.Prelude.{◌≡◌, ◌↔◌, IsTrue};
ghost use Rattle.std.specs.BTreeMap as map;
ghost use Rattle.std.specs.BTreeSet as set;
ghost use Rattle.dr_base.specs.Texts.{text_cmp};
ghost use Rattle.dr_ledger.specs.Pairs.{pair_cmp};

use dr_base::Text;
use dr_base::same::Same;
use dr_ledger::{Instance, Progress};
use std::collections::{BTreeMap, BTreeSet};

/// Whether they are one instance.
pub fn is_same(instance: &Instance, other: &Instance) -> bool
    ensures { IsTrue result ↔ (instance.now ≡ other.now) }
{
    instance.uid == other.uid
        && instance.key == other.key
        && instance.size == other.size
        && instance.digest == other.digest
}

/// Whether they are the same instances. Both trees are in the order of their keys.
pub fn are_items(items: &BTreeMap<Text, Instance>, others: &BTreeMap<Text, Instance>) -> bool
    ensures same { IsTrue result ↔ (items.now.entries ≡ others.now.entries) }
    ensures ordered { map.IsOrdered text_cmp items.now × map.IsOrdered text_cmp others.now }
{
    let mut rest = others.iter();
    for (uid, instance) in items {
        let Some((other_uid, other)) = rest.next() else {
            return false;
        };
        if !uid.is_same(other_uid) || !is_same(instance, other) {
            return false;
        }
    }
    rest.next().is_none()
}

/// Whether they are one arrival.
fn is_arrival(arrival: &(Text, Text), other: &(Text, Text)) -> bool
    ensures { IsTrue result ↔ (arrival.now ≡ other.now) }
{
    arrival.0 == other.0 && arrival.1 == other.1
}

/// Whether these are all arrivals, in their order.
pub fn are_arrivals(arrivals: &BTreeSet<(Text, Text)>, list: &[(Text, Text)]) -> bool
    ensures same { IsTrue result ↔ (arrivals.now.keys ≡ list.now) }
    ensures ordered { set.IsOrdered pair_cmp arrivals.now }
{
    let mut rest = list;
    for arrival in arrivals {
        let [first, more @ ..] = rest else {
            return false;
        };
        if !is_arrival(arrival, first) {
            return false;
        }
        rest = more;
    }
    rest.is_empty()
}

/// Whether these are all kept uids, in their order.
pub fn are_kept(kept: &BTreeSet<Text>, list: &[Text]) -> bool
    ensures same { IsTrue result ↔ (kept.now.keys ≡ list.now) }
    ensures ordered { set.IsOrdered text_cmp kept.now }
{
    let mut rest = list;
    for uid in kept {
        let [first, more @ ..] = rest else {
            return false;
        };
        if !uid.is_same(first) {
            return false;
        }
        rest = more;
    }
    rest.is_empty()
}

/// Whether they are one row.
fn is_row(at: &(Text, Text), row: Progress, other: &((Text, Text), Progress)) -> bool
    ensures { IsTrue result ↔ ((at.now ≡ other.now.0) × (row ≡ other.now.1)) }
{
    is_arrival(at, &other.0) && row == other.1
}

/// Whether these are all rows, in their order.
pub fn are_rows(rows: &BTreeMap<(Text, Text), Progress>, list: &[((Text, Text), Progress)]) -> bool
    ensures same { IsTrue result ↔ (rows.now.entries ≡ list.now) }
    ensures ordered { map.IsOrdered pair_cmp rows.now }
{
    let mut rest = list;
    for (at, row) in rows {
        let [first, more @ ..] = rest else {
            return false;
        };
        if !is_row(at, *row, first) {
            return false;
        }
        rest = more;
    }
    rest.is_empty()
}
