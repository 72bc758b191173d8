//! The hops that a key makes, and the nodes that keep it.
ghost use Rattle.std.specs.Prelude.{◌≡◌, ◌⊎◌, ◌↔◌, IfOk, IsTrue, OnOk};
ghost use Rattle.dr_base.specs.Texts.{Text as Words};
ghost use Rattle.dr_route.specs.Names.{HasName};
ghost use Rattle.dr_plan_model.specs.Plans.{IsWellFormed};
ghost use Rattle.dr_plan_model.specs.Walks.{IsEntry};
ghost use Rattle.dr_plan_sound.specs.Soundness.{IsSound};
ghost use Rattle.dr_cert_trace.specs.Found.{AreFound, FindsOnward, PassesPlace};
ghost use Rattle.dr_cert_trace.specs.Stages.{AreOrdered};

use crate::pairs::{add_pairs, is_known};
use crate::stages::TraceStage;
use dr_base::Text;
use dr_plan_model::Plan;
use dr_plan_model::sending::sends;
use dr_route::Key;
use dr_route::names::add_names;
use std::alloc::{AllocError, Global};
use std::collections::BTreeSet;
use std::slice;

/// One name more, if it is to be added.
fn add_if(names: &mut BTreeSet<Text>, name: &Text, is_added: bool) -> Result<(), AllocError>
    ensures { OnOk result
        ((other : Words)
        → HasName names.new other
        ↔ (HasName names.old other ⊎ ((other ≡ name.now) × IsTrue is_added))) }
{
    if !is_added {
        return Ok(());
    }
    add_names(names, slice::from_ref(name))?;
    Ok(())
}

/// What the node of a place does with the key.
pub fn go_on(
    alloc: Global,
    plan: &Plan,
    key: &Key,
    place: &(Text, Text),
    pairs: &mut BTreeSet<(Text, Text)>,
    keeps: &mut BTreeSet<Text>,
) -> Result<(), AllocError>
    ensures { OnOk result
        (FindsOnward plan.now key.now place.now pairs.old pairs.new keeps.old keeps.new) }
{
    let targets = sends(alloc, plan, &place.1, &place.0, key)?;
    add_pairs(pairs, &place.1, targets.to.as_slice())?;
    add_if(keeps, &place.1, targets.keep)?;
    Ok(())
}

/// What the node of a place does with the key, where it is known that it comes there.
fn pass(
    alloc: Global,
    plan: &Plan,
    site: &Text,
    key: &Key,
    place: &(Text, Text),
    pairs: &mut BTreeSet<(Text, Text)>,
    keeps: &mut BTreeSet<Text>,
) -> Result<(), AllocError>
    ensures { OnOk result
        (PassesPlace plan.now site.now key.now place.now pairs.old pairs.new keeps.old keeps.new) }
{
    if !is_known(pairs, site, place) {
        return Ok(());
    }
    go_on(alloc, plan, key, place, pairs, keeps)
}

/// The hops of the key's walks from the site, and the nodes that keep it. A place is passed after
/// all from which more hops may be left, so that it is known by then whether the key comes there.
pub fn walk(
    alloc: Global,
    plan: &Plan,
    site: &Text,
    key: &Key,
    stages: &[TraceStage],
) -> Result<(BTreeSet<(Text, Text)>, BTreeSet<Text>), AllocError>
    requires stages { AreOrdered plan.now key.now stages.now }
    requires formed { IsWellFormed plan.now }
    requires sound { IsSound plan.now }
    requires enters { IsEntry plan.now site.now key.now }
    ensures { IfOk result (λ found. AreFound plan.now site.now key.now found.0 found.1) }
{
    let mut pairs = BTreeSet::new(alloc);
    let mut keeps = BTreeSet::new(alloc);
    for stage in stages {
        pass(alloc, plan, site, key, &stage.place, &mut pairs, &mut keeps)?;
    }
    Ok((pairs, keeps))
}
