//! What the checker's no shows.
use dr_base::{Seq, Text};
use dr_route::OwnedCell;

/// What is wrong with a plan. A walk is the list of its nodes, from the one where instances enter;
/// it is a walk for every key of the cell.
#[derive(Debug, Drop)]
pub enum Fault {
    /// The walk's last hop isn't accepted.
    NoContext { walk: Seq<Text>, cell: OwnedCell },
    /// The walk's last pair of caller and node stands in it before.
    Cycle { walk: Seq<Text>, cell: OwnedCell },
    /// The walk's last node neither keeps the instance nor sends it on.
    DeadEnd { walk: Seq<Text>, cell: OwnedCell },
    /// More pairs of class and transfer syntax go over the hop than an association has presentation
    /// contexts, 128 (PS3.8 7.1.1.13: odd ids from 1 to 255).
    TooManyContexts { from: Text, to: Text },
}
