//! Where keys enter, and of which classes they are.
ghost use Rattle.std.specs.Prelude.{◌≡◌, IfOk, OnOk, Contains};
ghost use Rattle.dr_route.specs.Names.{HasName};
ghost use Rattle.dr_plan_model.specs.declared.plan.Flow.{Flow as PlannedFlow};
ghost use Rattle.dr_base.specs.Texts.{Text as Words};
ghost use Rattle.dr_cert_diff.specs.Entering.{Grows, HasClasses, HasSites};

use dr_base::{Seq, Text};
use dr_plan_model::{Flow, Plan};
use dr_route::names::{add_names, names_in_order};
use std::alloc::{AllocError, Global};
use std::collections::BTreeSet;
use std::slice;

/// The nodes where flows begin.
fn add_sites(names: &mut BTreeSet<Text>, flows: &[Flow]) -> Result<(), AllocError>
    ensures kept { OnOk result (Grows names.old names.new) }
    ensures all { OnOk result
        ((flow : PlannedFlow) → Contains flows.now flow → HasName names.new flow.at) }
{
    for flow in flows {
        add_names(names, slice::from_ref(&flow.at))?;
    }
    Ok(())
}

/// The classes of a flow, where it is at the site.
fn add_classes_of(names: &mut BTreeSet<Text>, flow: &Flow, site: &Text) -> Result<(), AllocError>
    ensures kept { OnOk result (Grows names.old names.new) }
    ensures all { OnOk result (flow.now.at ≡ site.now
        → (t : Words) → Contains flow.now.classes t → HasName names.new t) }
{
    if flow.at != *site {
        return Ok(());
    }
    add_names(names, flow.classes.as_slice())?;
    Ok(())
}

/// The classes that flows bring in at the site.
fn add_classes(names: &mut BTreeSet<Text>, flows: &[Flow], site: &Text) -> Result<(), AllocError>
    ensures kept { OnOk result (Grows names.old names.new) }
    ensures all { OnOk result ((flow : PlannedFlow) → Contains flows.now flow
        → flow.at ≡ site.now
        → (t : Words) → Contains flow.classes t → HasName names.new t) }
{
    for flow in flows {
        add_classes_of(names, flow, site)?;
    }
    Ok(())
}

/// The nodes where keys enter by one of the plans, in byte order and each once.
pub fn sites_of(alloc: Global, old: &Plan, new: &Plan) -> Result<Seq<Text>, AllocError>
    ensures { IfOk result (λ seq. HasSites old.now seq × HasSites new.now seq) }
{
    let mut names = BTreeSet::new(alloc);
    add_sites(&mut names, old.flows())?;
    add_sites(&mut names, new.flows())?;
    let sites = names_in_order(alloc, names)?;
    Ok(sites)
}

/// The classes of the keys that enter at the site by one of the plans, in byte order and each once.
pub fn classes_at(
    alloc: Global,
    old: &Plan,
    new: &Plan,
    site: &Text,
) -> Result<Seq<Text>, AllocError>
    ensures { IfOk result (λ seq.
        HasClasses old.now site.now seq × HasClasses new.now site.now seq) }
{
    let mut names = BTreeSet::new(alloc);
    add_classes(&mut names, old.flows(), site)?;
    add_classes(&mut names, new.flows(), site)?;
    let classes = names_in_order(alloc, names)?;
    Ok(classes)
}
