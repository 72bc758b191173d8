//! Sets of names while they are gathered, and the rows that they end as.
ghost use Rattle.std.specs.Prelude.{◌↔◌, ◌⊎◌, IsTrue, IfOk, OnOk, Contains};
ghost use Rattle.dr_base.specs.Texts.{Text as Words, IsInByteOrder};
ghost use Rattle.dr_route.specs.Names.{HasName, AddsName};

use crate::search::find;
use dr_base::{Seq, Text};
use std::alloc::{AllocError, Global};
use std::collections::BTreeSet;

/// Whether the name is in the set.
pub fn has_name(names: &BTreeSet<Text>, name: &Text) -> bool
    ensures { IsTrue result ↔ HasName names.now name.now }
{
    names.contains(name)
}

/// Adds a copy of the name to the set, unless it is there already.
fn add_name(names: &mut BTreeSet<Text>, name: &Text) -> Result<(), AllocError>
    ensures { OnOk result (AddsName names.old names.new name.now) }
{
    if has_name(names, name) {
        return Ok(());
    }
    names.insert(name.clone()?)?;
    Ok(())
}

/// Adds copies of the names to the set.
pub fn add_names(names: &mut BTreeSet<Text>, more: &[Text]) -> Result<(), AllocError>
    ensures { OnOk result
        ((name : Words)
        → HasName names.new name ↔ (HasName names.old name ⊎ Contains more.now name)) }
{
    for name in more {
        add_name(names, name)?;
    }
    Ok(())
}

/// The names of the set, in byte order and each once.
pub fn names_in_order(alloc: Global, names: BTreeSet<Text>) -> Result<Seq<Text>, AllocError>
    ensures same { IfOk result (λ seq. (name : Words) → Contains seq name ↔ HasName names name) }
    ensures ordered { IfOk result IsInByteOrder }
{
    let listed: Vec<Text> = names.into_iter().collect(alloc)?;
    Ok(Seq::from_vec(listed))
}

/// The names as a set: in byte order and each once.
pub fn set_of(alloc: Global, names: &[Text]) -> Result<Seq<Text>, AllocError>
    ensures same { IfOk result (λ seq.
        (name : Words) → Contains seq name ↔ Contains names.now name) }
    ensures ordered { IfOk result IsInByteOrder }
{
    let mut set = BTreeSet::new(alloc);
    add_names(&mut set, names)?;
    let listed = names_in_order(alloc, set)?;
    Ok(listed)
}

/// Whether the name is one of the set: a binary search.
pub fn is_in_set(set: &[Text], name: &Text) -> bool
    requires { IsInByteOrder set.now }
    ensures { IsTrue result ↔ Contains set.now name.now }
{
    match find(set, name.as_bytes()) {
        Some(_) => true,
        None => false,
    }
}
