//! What is read of one of several nodes, by its name.
ghost use Rattle.std.specs.Prelude.{◌≡◌, ◌≢◌, ◌++◌, IfErr, IfOk, OnOk, length};
ghost use Rattle.dr_ledger.specs.declared.fault.LedgerFault.TheVariants.{Memory as LackedMemory};
ghost use Rattle.dr_ledger_report.specs.Reports.{name_line, report_of};
ghost use Rattle.dr_world.specs.Reports.{AreNamesOf, AreSameNodes, AreWritten, HasReport};
ghost use Rattle.dr_world.specs.Reports.{IsListingOf, IsNeededIn, IsSameNode, IsUnread, ListsBook};
ghost use Rattle.dr_world.specs.Reports.{books_of, foreign_line};
ghost use Rattle.dr_world.specs.Nodes.{AllStandIn};
ghost use Rattle.dr_world.specs.declared.fault.WorldFault.TheVariants.{Memory as MemoryFault};
ghost use Rattle.dr_world.specs.declared.fault.WorldFault.TheVariants.{Store as StoreFault};

use crate::fault::WorldFault;
use crate::speaking::is_among;
use dr_base::{Seq, Text};
use dr_ledger::{Entry, Ledger, LedgerFault, Progress};
use dr_ledger_report::{put_name, put_report};
use dr_node::Node;
use std::alloc::{AllocError, Global};
use std::collections::BTreeMap;

/// What a book has: who brought which uid, by caller and uid; the kept uids with the lengths of
/// their data sets (bytes); how far each uid is on its way to each destination, by uid and
/// destination; and its journal, in order.
#[derive(Debug, Drop)]
pub struct Listing {
    pub arrivals: Seq<(Text, Text)>,
    pub kept: Seq<(Text, u64)>,
    pub rows: Seq<((Text, Text), Progress)>,
    pub lines: Seq<Entry>,
}

/// A reading call's fault: Memory, or Store.
fn fault_of(fault: LedgerFault) -> WorldFault
    ensures memory { fault ≡ LackedMemory → result ≡ MemoryFault }
    ensures store { fault ≢ LackedMemory → result ≡ StoreFault }
    ensures why { IsUnread result }
{
    match fault {
        LedgerFault::Memory => WorldFault::Memory,
        _ => WorldFault::Store,
    }
}

/// What a node's book has.
fn list<L: Ledger>(node: &mut Node<L>) -> Result<Listing, LedgerFault>
    ensures lists { IfOk result (λ x.
        L.stands node.new.desk.ledger → IsListingOf (L.book node.old.desk.ledger) x) }
    ensures same { IsSameNode node.old node.new }
{
    let arrivals = node.arrivals()?;
    let kept = node.kept()?;
    let rows = node.rows()?;
    let lines = node.lines()?;
    Ok(Listing {
        arrivals,
        kept,
        rows,
        lines,
    })
}

/// What the book of the node of that name has; None where there is no such node.
///
/// Errors: Store, Memory.
pub fn list_at<L: Ledger>(
    nodes: &mut BTreeMap<Text, Node<L>>,
    name: &Text,
) -> Result<Option<Listing>, WorldFault>
    ensures lists { IfOk result (λ o.
        AllStandIn nodes.new → ListsBook (books_of nodes.old name.now) o) }
    ensures same { AreSameNodes nodes.old nodes.new }
    ensures early { IfErr result IsUnread }
{
    let Some(node) = nodes.get_mut(name) else {
        return Ok(None);
    };
    match list(node) {
        Ok(listing) => Ok(Some(listing)),
        Err(fault) => Err(fault_of(fault)),
    }
}

/// Whether the node of that name needs the data set of that uid: it does while the uid is kept or a
/// row of it is still queued. None where there is no such node.
///
/// Errors: Store, Memory.
pub fn has_body_at<L: Ledger>(
    nodes: &mut BTreeMap<Text, Node<L>>,
    name: &Text,
    uid: &Text,
) -> Result<Option<bool>, WorldFault>
    ensures has { IfOk result (λ o.
        AllStandIn nodes.new → IsNeededIn (books_of nodes.old name.now) uid.now o) }
    ensures same { AreSameNodes nodes.old nodes.new }
    ensures early { IfErr result IsUnread }
{
    let Some(node) = nodes.get_mut(name) else {
        return Ok(None);
    };
    match node.has_body(uid) {
        Ok(has) => Ok(Some(has)),
        Err(fault) => Err(fault_of(fault)),
    }
}

/// The names of all nodes, in byte order.
pub fn names_in<L: Ledger>(
    alloc: Global,
    nodes: &BTreeMap<Text, Node<L>>,
) -> Result<Vec<Text>, AllocError>
    ensures { IfOk result (λ names. AreNamesOf (books_of nodes.now) names.items) }
{
    let mut names = Vec::new(alloc);
    for name in nodes.keys() {
        names.push(name.clone()?)?;
    }
    Ok(names)
}

/// Adds the report of one node.
fn put_listing(out: &mut Vec<u8>, name: &Text, x: &Listing) -> Result<(), AllocError>
    ensures { OnOk result
        (out.new.items
        ≡ out.old.items
        ++ (name_line name.now
        ++ report_of x.now.arrivals x.now.kept x.now.rows (length x.now.lines))) }
{
    put_name(out, name)?;
    put_report(
        out,
        x.arrivals.as_slice(),
        x.kept.as_slice(),
        x.rows.as_slice(),
        x.lines.len() as u64,
    )?;
    Ok(())
}

/// Adds that a node is another maker's product.
fn put_foreign(out: &mut Vec<u8>, name: &Text) -> Result<(), AllocError>
    ensures { OnOk result
        (out.new.items ≡ out.old.items ++ (name_line name.now ++ foreign_line)) }
{
    put_name(out, name)?;
    out.extend_from_slice(b"foreign\n")?;
    Ok(())
}

/// Adds the report of the node of that name, which is there; of one of the others its name alone.
fn report_at<L: Ledger>(
    nodes: &mut BTreeMap<Text, Node<L>>,
    others: &[Text],
    name: &Text,
    out: &mut Vec<u8>,
) -> Result<(), WorldFault>
    ensures report { OnOk result
        (AllStandIn nodes.new
        → HasReport others.now (books_of nodes.old name.now) name.now out.old.items
        out.new.items) }
    ensures same { AreSameNodes nodes.old nodes.new }
    ensures early { IfErr result IsUnread }
{
    let Some(listing) = list_at(nodes, name)? else {
        return Err(WorldFault::Memory);
    };
    if is_among(others, name) {
        put_foreign(out, name)?;
        return Ok(());
    }
    put_listing(out, name, &listing)?;
    Ok(())
}

/// Adds the reports of the nodes of these names, one behind the other.
///
/// Errors: Store, Memory.
pub fn report_each<L: Ledger>(
    nodes: &mut BTreeMap<Text, Node<L>>,
    others: &[Text],
    names: &[Text],
    out: &mut Vec<u8>,
) -> Result<(), WorldFault>
    ensures reports { OnOk result
        (AllStandIn nodes.new
        → AreWritten others.now (books_of nodes.old) names.now out.old.items out.new.items) }
    ensures same { AreSameNodes nodes.old nodes.new }
    ensures early { IfErr result IsUnread }
{
    for name in names {
        report_at(nodes, others, name, out)?;
    }
    Ok(())
}
