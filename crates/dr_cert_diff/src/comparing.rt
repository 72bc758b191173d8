//! What changes for the keys of one cell.
ghost use Rattle.std.specs.Prelude.{◌≡◌, ◌≢◌, ◌↔◌, ◌⊎◌, [], IfOk, IsTrue, OnOk, Contains, false};
ghost use Rattle.dr_base.specs.Texts.{Text as Words, IsInByteOrder};
ghost use Rattle.dr_route.specs.Laws.{key_of};
ghost use Rattle.dr_route.specs.Names.{HasName};
ghost use Rattle.dr_route.specs.Routes.{local};
ghost use Rattle.dr_plan_model.specs.Walks.{IsDestination};
ghost use Rattle.dr_cert_diff.specs.Comparing.{Compares, IsWithout};
ghost use Rattle.dr_cert_diff.specs.Differing.{LiesInBoth};

use crate::change::RouteChange;
use dr_base::{Seq, Text};
use dr_cert::Sealed;
use dr_cert_trace::reach_of;
use dr_route::cell::key_in;
use dr_route::copies::{copy_cell, copy_names};
use dr_route::names::{add_names, is_in_set, names_in_order};
use dr_route::{Key, OwnedCell};
use std::alloc::{AllocError, Global};
use std::collections::BTreeSet;
use std::slice;

/// The sealed plans that are compared.
#[derive(Drop)]
pub struct Both<'a> {
    pub old: &'a Sealed,
    pub new: &'a Sealed,
}

/// The name, unless it is in the set.
fn add_unless(names: &mut BTreeSet<Text>, name: &Text, set: &[Text]) -> Result<(), AllocError>
    requires { IsInByteOrder set.now }
    ensures { OnOk result ((other : Words)
        → HasName names.new other
        ↔ (HasName names.old other ⊎ ((name.now ≡ other) × (Contains set.now name.now → ⊥)))) }
{
    if is_in_set(set, name) {
        return Ok(());
    }
    add_names(names, slice::from_ref(name))?;
    Ok(())
}

/// Those of the names that aren't in the set, in byte order and each once.
fn without(alloc: Global, names: &[Text], set: &[Text]) -> Result<Seq<Text>, AllocError>
    requires { IsInByteOrder set.now }
    ensures { IfOk result (IsWithout names.now set.now) }
{
    let mut left = BTreeSet::new(alloc);
    for name in names {
        add_unless(&mut left, name, set)?;
    }
    let rest = names_in_order(alloc, left)?;
    Ok(rest)
}

/// No names.
fn no_names(alloc: Global) -> Result<Seq<Text>, AllocError>
    ensures none { IfOk result (λ seq. (name : Words) → Contains seq name → ⊥) }
    ensures ordered { IfOk result IsInByteOrder }
{
    let names = names_in_order(alloc, BTreeSet::new(alloc))?;
    Ok(names)
}

/// The nodes that keep the key where it enters at the site; none where it doesn't enter.
fn keepers(alloc: Global, sealed: &Sealed, site: &Text, key: &Key) -> Result<Seq<Text>, AllocError>
    ensures same { IfOk result (λ seq. (dest : Words)
        → Contains seq dest ↔ IsDestination sealed.now.plan local site.now key.now dest) }
    ensures ordered { IfOk result IsInByteOrder }
{
    match reach_of(alloc, sealed, site, key)? {
        Some(reach) => {
            let names = copy_names(&reach.keeps)?;
            Ok(names)
        }
        None => {
            let names = no_names(alloc)?;
            Ok(names)
        }
    }
}

/// Whether neither list has a name.
fn are_none(lost: &[Text], gained: &[Text]) -> bool
    ensures none { IsTrue result → (lost.now ≡ []) × (gained.now ≡ []) }
    ensures some { result ≡ false → (lost.now ≢ []) ⊎ (gained.now ≢ []) }
{
    if !lost.is_empty() {
        return false;
    }
    gained.is_empty()
}

/// What changes for the keys of the cell that enter at the site, if anything does.
pub fn compare(
    alloc: Global,
    both: &Both<'_>,
    site: &Text,
    cell: &OwnedCell,
) -> Result<Option<RouteChange>, AllocError>
    requires { LiesInBoth both.now.old.now.plan both.now.new.now.plan cell.now (key_of cell.now) }
    ensures { IfOk result
        (Compares both.now.old.now.plan both.now.new.now.plan site.now cell.now) }
{
    let key = key_in(alloc, cell)?;
    let before = keepers(alloc, both.old, site, &key)?;
    let after = keepers(alloc, both.new, site, &key)?;
    let lost = without(alloc, before.as_slice(), after.as_slice())?;
    let gained = without(alloc, after.as_slice(), before.as_slice())?;
    if are_none(lost.as_slice(), gained.as_slice()) {
        return Ok(None);
    }
    let site = site.clone()?;
    let cell = copy_cell(cell)?;
    Ok(Some(RouteChange {
        site,
        cell,
        lost,
        gained,
    }))
}
