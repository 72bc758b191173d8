//! The links of a node that stops and starts again.
ghost use Rattle.std.specs.Prelude.{◌≡◌, IfOk, None, option_copied};
ghost use Rattle.std.specs.BTreeMap as tree;
ghost use Rattle.std.specs.Ordering.{nat_cmp};
ghost use Rattle.dr_world_model.specs.Worlds.{same_text};
ghost use Rattle.dr_world.specs.Ends.{named};
ghost use Rattle.dr_world.specs.Restarted.{AreForgotten, AreLinksAt, ComesUp, far_of, is_end};

use crate::wires::Wires;
use dr_base::Text;
use dr_base::same::Same;
use dr_ledger::Ledger;
use dr_node::Node;
use dr_world_script::Side;
use std::alloc::{AllocError, Global};
use std::collections::BTreeMap;

/// Whether two names are the same.
pub fn is_same_text(name: &Text, other: &Text) -> bool
    ensures { result ≡ same_text name.now other.now }
{
    name.is_same(other)
}

/// Whether the node of that name is an end of the link.
fn is_end(wires: Option<&Wires>, name: &Text) -> bool
    ensures { result ≡ is_end name.now (option_copied wires.entry) }
{
    match wires {
        Some(wires) => is_same_text(&wires.caller, name) || is_same_text(&wires.receiver, name),
        None => false,
    }
}

/// The numbers of the links of which the node of that name is an end, rising.
pub fn links_of(
    alloc: Global,
    wires: &BTreeMap<u64, Wires>,
    name: &Text,
) -> Result<Vec<u64>, AllocError>
    ensures { IfOk result (λ numbers. AreLinksAt name.now wires.now numbers.items) }
{
    let mut numbers = Vec::new(alloc);
    for number in wires.keys() {
        if is_end(wires.get(number), name) {
            numbers.push(*number)?;
        }
    }
    Ok(numbers)
}

/// The side of a link that isn't the named node's.
pub fn far_side(wires: &Wires, name: &Text) -> Side
    ensures { named result ≡ far_of name.now wires.now }
{
    if is_same_text(&wires.receiver, name) {
        return Side::Requestor;
    }
    Side::Acceptor
}

/// Wires that are needed no more.
fn let_go(_wires: Option<Wires>) {}

/// This link is there no more.
fn forget_one(wires: &mut BTreeMap<u64, Wires>, link: u64)
    ensures { tree.Updates nat_cmp wires.old wires.new link None }
{
    let_go(wires.remove(&link));
}

/// These links are there no more.
pub fn forget(wires: &mut BTreeMap<u64, Wires>, links: &[u64])
    ensures { AreForgotten links.now wires.old wires.new }
{
    for link in links {
        forget_one(wires, *link);
    }
}

/// The node of that name has come up again, without a link.
pub fn come_up<L: Ledger>(nodes: &mut BTreeMap<Text, Node<L>>, name: &Text)
    ensures { ComesUp name.now nodes.old nodes.new }
{
    let Some(node) = nodes.get_mut(name) else {
        return;
    };
    node.restart();
}
