//! Whether an instance that a node is to forget is under way from there.
ghost use Rattle.std.specs.Prelude.{◌≡◌, option_copied};
ghost use Rattle.dr_world.specs.Forgotten.{is_uid, is_under_way, pending_at, pends_over};
ghost use Rattle.dr_world.specs.Nodes.{seats_of};

use crate::restarts::is_same_text;
use crate::wires::Wires;
use dr_base::Text;
use dr_ledger::Ledger;
use dr_node::Node;
use std::collections::BTreeMap;

/// Whether that is the uid.
fn is_uid(pending: Option<&Text>, uid: &Text) -> bool
    ensures { result ≡ is_uid uid.now (option_copied pending.entry) }
{
    match pending {
        Some(other) => is_same_text(other, uid),
        None => false,
    }
}

/// What the node of that name has pending at a link.
fn pending_at<'a, L: Ledger>(
    nodes: &'a BTreeMap<Text, Node<L>>,
    name: &Text,
    link: u64,
) -> Option<&'a Text>
    ensures { option_copied result ≡ pending_at link (seats_of nodes.now name.now) }
{
    let Some(node) = nodes.get(name) else {
        return None;
    };
    let Some(side) = node.side(link) else {
        return None;
    };
    side.end.pending()
}

/// Whether the node of that name asked for the link of these wires, and this, which it has pending
/// there, is the uid.
fn pends_over(wires: Option<&Wires>, name: &Text, uid: &Text, pending: Option<&Text>) -> bool
    ensures { result ≡
        pends_over name.now uid.now (option_copied pending.entry) (option_copied wires.entry) }
{
    match wires {
        Some(wires) => is_same_text(&wires.caller, name) && is_uid(pending, uid),
        None => false,
    }
}

/// Whether an end that the node of that name asked over still awaits the response to a store of
/// that uid.
pub fn is_under_way<L: Ledger>(
    wires: &BTreeMap<u64, Wires>,
    nodes: &BTreeMap<Text, Node<L>>,
    name: &Text,
    uid: &Text,
) -> bool
    ensures { result ≡ is_under_way nodes.now wires.now name.now uid.now }
{
    for number in wires.keys() {
        let pending = pending_at(nodes, name, *number);
        if pends_over(wires.get(number), name, uid, pending) {
            return true;
        }
    }
    false
}
