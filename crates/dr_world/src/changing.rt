//! All nodes of a world take another plan at once.
ghost use Rattle.std.specs.Prelude.{◌≡◌, ◌≢◌, ◌↔◌, IfErr, IfOk, IsTrue, OnOk, option_copied};
ghost use Rattle.dr_ledger.specs.Adopting.{IsFit};
ghost use Rattle.dr_ledger.specs.declared.fault.LedgerFault.TheVariants.{Memory as LackedMemory};
ghost use Rattle.dr_world.specs.Adopted.{AllTake, AreNodes, Finds, HasGoneOver, IsHalted, LooksAt};
ghost use Rattle.dr_world.specs.Adopted.{TakesAt, is_on, some_is_on};
ghost use Rattle.dr_world.specs.Reports.{AreSameNodes, IsSameNode};
ghost use Rattle.dr_world.specs.declared.fault.WorldFault.TheVariants.{HalfAdopted as HalfFault};
ghost use Rattle.dr_world.specs.declared.fault.WorldFault.TheVariants.{Memory as MemoryFault};

use crate::calls::is_over_at;
use crate::fault::WorldFault;
use crate::wires::Wires;
use dr_base::Text;
use dr_cert::Sealed;
use dr_ledger::{Ledger, LedgerFault};
use dr_node::Node;
use dr_plan_model::Plan;
use dr_site::{Site, SiteFault};
use std::alloc::Global;
use std::collections::BTreeMap;

/// What a change of plan comes to.
#[derive(Debug, Drop)]
pub enum Change {
    /// All nodes have taken the next plan.
    Adopted,
    /// An end of a link isn't over, or a node isn't one of the next plan; nothing has changed.
    Skipped,
    /// The next plan doesn't go on with this row, the first by node, uid and destination; nothing
    /// has changed.
    Unfit { node: Text, uid: Text, dest: Text },
}

/// Whether an end of the link of these wires isn't over.
fn is_on<L: Ledger>(nodes: &BTreeMap<Text, Node<L>>, link: u64, wires: Option<&Wires>) -> bool
    ensures { result ≡ is_on nodes.now link (option_copied wires.entry) }
{
    match wires {
        Some(wires) => {
            !(is_over_at(nodes, &wires.caller, link) && is_over_at(nodes, &wires.receiver, link))
        }
        None => false,
    }
}

/// Whether an end of some link isn't over.
pub(crate) fn some_is_on<L: Ledger>(
    nodes: &BTreeMap<Text, Node<L>>,
    wires: &BTreeMap<u64, Wires>,
) -> bool
    ensures { result ≡ some_is_on nodes.now wires.now }
{
    for link in wires.keys() {
        if is_on(nodes, *link, wires.get(link)) {
            return true;
        }
    }
    false
}

/// Whether each of these names is that of a node of the plan.
pub(crate) fn are_nodes(plan: &Plan, names: &[Text]) -> bool
    ensures { IsTrue result ↔ AreNodes plan.now names.now }
{
    for name in names {
        let Some(_) = plan.node(name) else {
            return false;
        };
    }
    true
}

/// What a ledger's fault in an adoption is to the world.
fn fault_of(fault: LedgerFault) -> WorldFault
    ensures memory { fault ≡ LackedMemory → result ≡ MemoryFault }
    ensures half { fault ≢ LackedMemory → result ≡ HalfFault }
    ensures why { IsHalted result }
{
    match fault {
        LedgerFault::Memory => WorldFault::Memory,
        _ => WorldFault::HalfAdopted,
    }
}

/// The first row of the node of that name that the next plan doesn't go on with.
fn look_at<L: Ledger>(
    nodes: &mut BTreeMap<Text, Node<L>>,
    name: &Text,
    next: &Sealed,
) -> Result<Option<(Text, Text)>, WorldFault>
    ensures looks { IfOk result (λ found.
        LooksAt next.now.plan name.now nodes.old found nodes.new) }
    ensures same { IfErr result (λ fault. AreSameNodes nodes.old nodes.new) }
    ensures why { IfErr result IsHalted }
{
    let Some(node) = nodes.get_mut(name) else {
        return Err(WorldFault::HalfAdopted);
    };
    match node.unfit(next) {
        Ok(found) => Ok(found),
        Err(fault) => Err(fault_of(fault)),
    }
}

/// Looks at the rows of the nodes of these names, one node after the other.
///
/// Errors: HalfAdopted, where a store fails; Memory.
pub fn look_at_all<L: Ledger>(
    nodes: &mut BTreeMap<Text, Node<L>>,
    names: &[Text],
    next: &Sealed,
) -> Result<Change, WorldFault>
    ensures finds { IfOk result (λ change.
        Finds next.now.plan names.now nodes.old change nodes.new) }
    ensures why { IfErr result IsHalted }
{
    for name in names {
        match look_at(nodes, name, next)? {
            None => {}
            Some((uid, dest)) => {
                let node = name.clone()?;
                return Ok(Change::Unfit { node, uid, dest });
            }
        }
    }
    Ok(Change::Adopted)
}

/// Tests that the node's rows are fit for the next plan.
fn test_fit<L: Ledger>(node: &mut Node<L>, next: &Sealed) -> Result<(), WorldFault>
    ensures same { IsSameNode node.old node.new }
    ensures fit { OnOk result
        (L.stands node.new.desk.ledger
        → IsFit next.now.plan (L.site node.new.desk.ledger).name (L.book node.new.desk.ledger)) }
    ensures why { IfErr result IsHalted }
{
    match node.unfit(next) {
        Ok(None) => Ok(()),
        Ok(Some(row)) => {
            drop(row);
            Err(WorldFault::HalfAdopted)
        }
        Err(fault) => Err(fault_of(fault)),
    }
}

/// A node goes over to its part of the next plan.
///
/// Errors: HalfAdopted, where its store fails, or it has a row that doesn't fit, which it hadn't
/// when it was looked at; Memory.
fn go_over<L: Ledger>(alloc: Global, node: &mut Node<L>, next: &Sealed) -> Result<(), WorldFault>
    ensures goes { OnOk result
        (HasGoneOver next.now.plan next.now.certificate node.old node.new) }
    ensures why { IfErr result IsHalted }
{
    test_fit(node, next)?;
    let own = match Site::of(alloc, next, node.site().name()) {
        Ok(own) => own,
        Err(SiteFault::NoNode) => return Err(WorldFault::HalfAdopted),
        Err(SiteFault::Memory) => return Err(WorldFault::Memory),
    };
    match node.adopt(next, own) {
        Ok(()) => Ok(()),
        Err(fault) => Err(fault_of(fault)),
    }
}

/// The node of that name goes over.
fn take_at<L: Ledger>(
    alloc: Global,
    nodes: &mut BTreeMap<Text, Node<L>>,
    name: &Text,
    next: &Sealed,
) -> Result<(), WorldFault>
    ensures takes { OnOk result
        (TakesAt next.now.plan next.now.certificate name.now nodes.old nodes.new) }
    ensures why { IfErr result IsHalted }
{
    let Some(node) = nodes.get_mut(name) else {
        return Err(WorldFault::HalfAdopted);
    };
    go_over(alloc, node, next)
}

/// The nodes of these names go over, one after the other.
pub fn take_all<L: Ledger>(
    alloc: Global,
    nodes: &mut BTreeMap<Text, Node<L>>,
    names: &[Text],
    next: &Sealed,
) -> Result<(), WorldFault>
    ensures take { OnOk result
        (AllTake next.now.plan next.now.certificate names.now nodes.old nodes.new) }
    ensures why { IfErr result IsHalted }
{
    for name in names {
        take_at(alloc, nodes, name, next)?;
    }
    Ok(())
}
