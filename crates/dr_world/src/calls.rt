//! Calls on one of several nodes, by its name.
ghost use Rattle.std.specs.Prelude.{◌≡◌, ◌≤◌, ◌^◌, IfOk, OnOk, true};
ghost use Rattle.std.specs.Option.{option_map_or};
ghost use Rattle.std.specs.BTreeMap as tree;
ghost use Rattle.dr_base.specs.Texts.{text_cmp};
ghost use Rattle.dr_session.specs.Ends.{is_gone};
ghost use Rattle.dr_world.specs.Nodes.{AcceptsAt, IsDoneAt, OpensAt, event_at, over_at, push_at};

use dr_base::{Seq, Text};
use dr_ledger::Ledger;
use dr_node::{LinkEvent, Node, NodeFault};
use dr_session::LinkAction;
use dr_ulstate::State;
use std::collections::BTreeMap;

/// Something happens at a link of the node of that name, at a moment of at most 2^62 milliseconds;
/// gives what its end does.
///
/// Errors: LinkUnknown where there is no such node or link; Memory.
pub fn input_at<L: Ledger>(
    nodes: &mut BTreeMap<Text, Node<L>>,
    name: &Text,
    link: u64,
    event: LinkEvent,
    now: u64,
) -> Result<Seq<LinkAction>, NodeFault>
    requires { now ≤ 2 ^ 62 }
    ensures { IfOk result (λ actions.
        IsDoneAt (event_at event) name.now link now nodes.old actions nodes.new) }
{
    let Some(node) = nodes.get_mut(name) else {
        return Err(NodeFault::LinkUnknown);
    };
    node.input(link, event, now)
}

/// A push at a link of the node of that name, in the same way.
///
/// Errors: LinkUnknown where there is no such node or link; Memory.
pub fn push_at<L: Ledger>(
    nodes: &mut BTreeMap<Text, Node<L>>,
    name: &Text,
    link: u64,
    now: u64,
) -> Result<Seq<LinkAction>, NodeFault>
    requires { now ≤ 2 ^ 62 }
    ensures { IfOk result (λ actions.
        IsDoneAt push_at name.now link now nodes.old actions nodes.new) }
{
    let Some(node) = nodes.get_mut(name) else {
        return Err(NodeFault::LinkUnknown);
    };
    node.push(link, now)
}

/// Whether the end of a link at the node of that name is over, or isn't there. It takes no memory.
pub fn is_over_at<L: Ledger>(nodes: &BTreeMap<Text, Node<L>>, name: &Text, link: u64) -> bool
    ensures { result ≡ over_at link (tree.get text_cmp nodes.now name.now) }
{
    let Some(node) = nodes.get(name) else {
        return true;
    };
    is_over(node.state(link))
}

/// Whether that is the state of an end that is over, or of none (PS3.8 9.2.1).
fn is_over(state: Option<State>) -> bool
    ensures { result ≡ option_map_or is_gone state true }
{
    match state {
        Some(state) => state == State::Sta1,
        None => true,
    }
}

/// The node of that name asks another for an association, at a moment in milliseconds; gives what
/// it writes at once. None, and nothing has changed, where there is no such node, or it has no hop
/// there.
///
/// Errors: LinkKnown, Memory.
pub fn open_at<L: Ledger>(
    nodes: &mut BTreeMap<Text, Node<L>>,
    name: &Text,
    dest: &Text,
    link: u64,
    now: u64,
) -> Result<Option<Seq<LinkAction>>, NodeFault>
    ensures { IfOk result (λ actions.
        OpensAt name.now dest.now link now nodes.old actions nodes.new) }
{
    let Some(node) = nodes.get_mut(name) else {
        return Ok(None);
    };
    if !node.site().has_hop(dest) {
        return Ok(None);
    }
    let actions = node.open(link, dest, now)?;
    Ok(Some(actions))
}

/// A connection was opened to the node of that name, at a moment in milliseconds.
///
/// Errors: LinkUnknown where there is no such node; LinkKnown, Memory.
pub fn accept_at<L: Ledger>(
    nodes: &mut BTreeMap<Text, Node<L>>,
    name: &Text,
    link: u64,
    now: u64,
) -> Result<(), NodeFault>
    ensures { OnOk result (AcceptsAt name.now link now nodes.old nodes.new) }
{
    let Some(node) = nodes.get_mut(name) else {
        return Err(NodeFault::LinkUnknown);
    };
    node.accept(link, now)?;
    Ok(())
}
