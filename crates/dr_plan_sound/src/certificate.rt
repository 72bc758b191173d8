//! What a certificate holds.
use dr_base::{Seq, Syntax, Text};
use dr_plan_model::Format;
use dr_route::OwnedCell;

/// A node with the caller that brings it instances, for the keys of one cell. The caller of what
/// enters at the node itself is `-`.
#[derive(Clone, PartialEq, Eq, PartialOrd, Ord, Debug, Drop)]
pub struct Stop {
    pub caller: Text,
    pub node: Text,
    pub cell: OwnedCell,
}

/// A stop with its rank: how many hops an instance may still make from there, at most.
#[derive(Clone, PartialEq, Eq, Debug, Drop)]
pub struct Line {
    pub stop: Stop,
    pub rank: u32,
}

/// A presentation context of a hop: its id (odd, 1 to 255; PS3.8 7.1.1.13), SOP class and transfer
/// syntax.
#[derive(Clone, PartialEq, Eq, Debug, Drop)]
pub struct Hop {
    pub from: Text,
    pub to: Text,
    pub id: u8,
    pub class: Text,
    pub syntax: Syntax,
}

/// The certificate of a plan: the format of the plan's text and its SHA-256, the presentation
/// contexts of its hops, and a line for each stop that an instance may come to.
#[derive(Clone, Debug, Drop)]
pub struct Certificate {
    pub format: Format,
    pub digest: [u8; 32],
    pub hops: Seq<Hop>,
    pub lines: Seq<Line>,
}
