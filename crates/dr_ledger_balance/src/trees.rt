//! What a balance says, in trees.
ghost use Rattle.std.specs.Prelude.{◌≡◌, IfOk, OnOk, map as mapped};
ghost use Rattle.std.specs.FinMap as map;
ghost use Rattle.std.specs.FinMap.{IsAntisymmetric};
ghost use Rattle.std.specs.FinSet as set;
ghost use Rattle.dr_base.specs.Texts.{text_cmp};
ghost use Rattle.dr_ledger.specs.Pairs.{pair_cmp};
ghost use Rattle.dr_ledger_balance.specs.Contents.{by_uid, content_in};
ghost use Rattle.dr_ledger_history.specs.Contents.{held_in};
ghost use Rattle.dr_ledger_history.specs.Trees.{as_map, as_set};

use crate::balance::Balance;
use dr_base::{Seq, Text};
use dr_ledger::{Instance, Progress};
use std::alloc::{AllocError, Global};
use std::collections::{BTreeMap, BTreeSet};

/// What a balance says that a node has: what a history is made of that goes on from it.
#[derive(Drop)]
pub struct BalanceTrees {
    /// The instances, by uid.
    pub items: BTreeMap<Text, Instance>,
    /// Who brought which uid.
    pub arrivals: BTreeSet<(Text, Text)>,
    /// The uids that are kept.
    pub kept: BTreeSet<Text>,
    /// How far each (uid, destination) is.
    pub rows: BTreeMap<(Text, Text), Progress>,
}

/// The value that a key had before is nobody's concern.
fn let_go<T: Drop>(_value: T) {}

/// Puts an instance under its uid.
fn insert_item(tree: &mut BTreeMap<Text, Instance>, item: Instance) -> Result<(), AllocError>
    ensures { OnOk result (as_map text_cmp tree.new
        ≡ map.insert (as_map text_cmp tree.old) item.uid item) }
{
    let uid = item.uid.clone()?;
    let_go(tree.insert(uid, item)?);
    Ok(())
}

/// The tree of instances by uid. The last one goes in first, and of two with one uid the first one
/// stays.
fn items_tree(alloc: Global, items: Seq<Instance>) -> Result<BTreeMap<Text, Instance>, AllocError>
    ensures { IfOk result (λ tree.
        as_map text_cmp tree ≡ map.from_entries (mapped by_uid items)) }
{
    let mut left = items.into_vec();
    let mut tree = BTreeMap::new(alloc);
    while let Some(item) = left.pop() {
        insert_item(&mut tree, item)?;
    }
    Ok(tree)
}

/// Puts a row in.
fn insert_row(
    tree: &mut BTreeMap<(Text, Text), Progress>,
    row: ((Text, Text), Progress),
) -> Result<(), AllocError>
    ensures { OnOk result (as_map pair_cmp tree.new
        ≡ map.insert (as_map pair_cmp tree.old) row.0 row.1) }
{
    let (at, progress) = row;
    tree.insert(at, progress)?;
    Ok(())
}

/// The tree of rows.
fn rows_tree(
    alloc: Global,
    rows: Seq<((Text, Text), Progress)>,
) -> Result<BTreeMap<(Text, Text), Progress>, AllocError>
    ensures { IfOk result (λ tree. as_map pair_cmp tree ≡ map.from_entries rows) }
{
    let mut left = rows.into_vec();
    let mut tree = BTreeMap::new(alloc);
    while let Some(row) = left.pop() {
        insert_row(&mut tree, row)?;
    }
    Ok(tree)
}

/// The tree of keys.
fn keys_tree<K: Ord + Drop>(alloc: Global, keys: Seq<K>) -> Result<BTreeSet<K>, AllocError>
    requires { IsAntisymmetric K.cmp }
    ensures { IfOk result (λ tree. as_set K.cmp tree ≡ set.from_list keys) }
{
    let mut left = keys.into_vec();
    let mut tree = BTreeSet::new(alloc);
    while let Some(key) = left.pop() {
        tree.insert(key)?;
    }
    Ok(tree)
}

/// What a balance says, in trees. It copies the uids of instances, and nothing else.
pub fn trees_of(alloc: Global, balance: Balance) -> Result<BalanceTrees, AllocError>
    ensures { IfOk result (λ trees.
        held_in trees.items trees.arrivals trees.kept trees.rows ≡ content_in balance) }
{
    let Balance {
        count: _,
        items,
        arrivals,
        kept,
        rows,
    } = balance;
    let items = items_tree(alloc, items)?;
    let arrivals = keys_tree(alloc, arrivals)?;
    let kept = keys_tree(alloc, kept)?;
    let rows = rows_tree(alloc, rows)?;
    Ok(BalanceTrees {
        items,
        arrivals,
        kept,
        rows,
    })
}
