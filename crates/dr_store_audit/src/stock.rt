//! The instances that are there.
ghost use Rattle.std.specs.Prelude.{◌≡◌, ◌≢◌, ◌↔◌, OnOk, IfOk, IsTrue, MatchResult};
ghost use Rattle.std.specs.Map.{keys_of};
ghost use Rattle.std.specs.FinMap as map;
ghost use Rattle.dr_base.specs.Texts.{text_cmp};
ghost use Rattle.dr_ledger_history.specs.Trees.{as_map};
ghost use Rattle.dr_store_audit.specs.Stock.{Stocks, instance_with};
ghost use Rattle.dr_store_audit.specs.declared.fault.FindingFault.TheVariants.{OtherSite};

use crate::fault::FindingFault;
use dr_base::Text;
use dr_base::same::Same;
use dr_ledger::Instance;
use dr_route::Key;
use dr_store_reads::Print;
use std::alloc::{AllocError, Global};
use std::collections::BTreeMap;

/// The value that a key had before is nobody's concern.
fn let_go<T: Drop>(_value: T) {}

/// The instance of that uid with this key and this print.
fn instance_of(uid: &Text, key: &Key, print: &Print) -> Result<Instance, AllocError>
    ensures { IfOk result (λ i. i ≡ instance_with uid.now key.now print.now) }
{
    Ok(Instance {
        uid: uid.clone()?,
        key: key.clone()?,
        size: print.size,
        digest: print.digest,
    })
}

/// Puts an instance in.
fn put(
    items: &mut BTreeMap<Text, Instance>,
    uid: &Text,
    instance: Instance,
) -> Result<(), AllocError>
    ensures { OnOk result
        (as_map text_cmp items.new ≡ map.insert (as_map text_cmp items.old) uid.now instance) }
{
    let_go(items.insert(uid.clone()?, instance)?);
    Ok(())
}

/// Puts an instance in, whose key and whose print go by one uid.
///
/// Errors: OtherSite, only where they don't; Memory.
fn stock(
    items: &mut BTreeMap<Text, Instance>,
    key: &(Text, Key),
    print: &(Text, Print),
) -> Result<(), FindingFault>
    ensures { MatchResult result
        (λ _. (print.now.0 ≡ key.now.0)
        × (as_map text_cmp items.new
        ≡ map.insert (as_map text_cmp items.old) key.now.0
        (instance_with key.now.0 key.now.1 print.now.1)))
        (λ fault. fault ≡ OtherSite → print.now.0 ≢ key.now.0) }
{
    if !print.0.is_same(&key.0) {
        return Err(FindingFault::OtherSite);
    }
    let instance = instance_of(&key.0, &key.1, &print.1)?;
    put(items, &key.0, instance)?;
    Ok(())
}

/// The instances of these keys and prints, if each key has a print and each print a key.
///
/// Errors: OtherSite, only where they don't go by the same uids, in one order; Memory.
pub fn stock_all(
    alloc: Global,
    keys: &[(Text, Key)],
    prints: &[(Text, Print)],
) -> Result<BTreeMap<Text, Instance>, FindingFault>
    ensures { MatchResult result
        (λ items. Stocks map.empty keys.now prints.now (as_map text_cmp items))
        (λ fault. fault ≡ OtherSite → keys_of keys.now ≢ keys_of prints.now) }
{
    if keys.len() != prints.len() {
        return Err(FindingFault::OtherSite);
    }
    let mut items = BTreeMap::new(alloc);
    for (i, key) in keys.iter().enumerate() {
        if let Err(fault) = stock(&mut items, key, &prints[i]) {
            return Err(fault);
        }
    }
    Ok(items)
}
