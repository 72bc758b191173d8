//! What is ordered in a world.
use crate::deed::Deed;
use dr_base::{Octets, Text};
use dr_world_script::Foreign;

/// What is ordered in a world: a deed, or what concerns other makers' products. Which deed that
/// comes to, if any, is told by the world in which it is ordered.
#[derive(Drop)]
pub enum WorldOrder {
    Deed(Deed),
    Foreign(Foreign),
}

/// Why another maker's product doesn't do what it was told to. They are tested in this order.
#[derive(Clone, Copy, PartialEq, Eq, Debug)]
pub enum ForeignRefusal {
    /// There is no link of that number.
    NoLink,
    /// The end that is to write isn't that of another maker's product.
    NotForeign,
    /// The other end is that of another maker's product, too: nothing is known of it.
    BothForeign,
    /// The receiver has accepted no presentation context for the class and the transfer syntax.
    NoContext,
    /// The caller awaits no response to a store.
    NotAsked,
}

/// What was refused: a name that no node has, or what was to be done at a link, and why.
#[derive(Drop)]
pub enum RefusedForeign {
    Node { node: Text },
    Store { link: u64, why: ForeignRefusal },
    Answer { link: u64, why: ForeignRefusal },
}

/// What another maker's product writes for what it was told to do, or why it does nothing.
#[derive(Drop)]
pub enum Spoken {
    Writes(Octets),
    Refuses(ForeignRefusal),
}
