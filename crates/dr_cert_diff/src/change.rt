//! What changes for the keys of a cell.
ghost use Rattle.std.specs.Prelude.{◌≢◌, ◌↔◌, [], IsTrue};
ghost use Rattle.dr_cert_diff.specs.Differing.{LosesSome};

use dr_base::{Seq, Text};
use dr_route::OwnedCell;

/// What changes for the keys of a cell that enter at a node: the nodes that kept them and don't any
/// more, and those that keep them and didn't, each in byte order.
#[derive(Drop)]
pub struct RouteChange {
    pub site: Text,
    pub cell: OwnedCell,
    pub lost: Seq<Text>,
    pub gained: Seq<Text>,
}

/// Whether the change loses a node.
fn loses(change: &RouteChange) -> bool
    ensures { IsTrue result ↔ (change.now.lost ≢ []) }
{
    !change.lost.is_empty()
}

/// Whether some node is lost.
pub fn has_lost(changes: &[RouteChange]) -> bool
    ensures { IsTrue result ↔ LosesSome changes.now }
{
    for change in changes {
        if loses(change) {
            return true;
        }
    }
    false
}
