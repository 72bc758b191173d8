//! What a site is brought, and how it is taken in there.
use dr_base::{Seq, Text};
use dr_ledger::Instance;
use dr_route::Targets;
use dr_site::Site;
use dr_store_changes::Taking;

/// The line by which the journal is to tell of what comes.
#[derive(Clone, Copy)]
pub struct NextLine {
    pub n: u64,
    /// Its moment (milliseconds), if it is known.
    pub moment: Option<u64>,
}

/// What a caller brings to a site.
#[derive(Clone, Copy)]
pub struct Delivery<'x> {
    /// The site to which it is brought.
    pub site: &'x Site,
    /// The number of the line by which the journal is to tell of it.
    pub n: u64,
    /// The moment of that line (milliseconds), if it is known.
    pub moment: Option<u64>,
    /// Who brings it, `-` for what enters at the node itself.
    pub caller: &'x Text,
    /// What it is.
    pub instance: &'x Instance,
    /// Its data set.
    pub body: &'x [u8],
}

/// How a first arrival is taken in.
#[derive(Clone, Copy)]
pub struct Reception<'x> {
    /// What is done with the instance and its data set.
    pub taking: Taking,
    /// Those of its targets for which its row was dropped: it waits anew.
    pub again: &'x Seq<Text>,
    /// Those of its targets to which it has no row: it waits from now on.
    pub dests: &'x Seq<Text>,
    /// Whether it is kept from now on.
    pub keeps: bool,
}

/// What a first arrival of an instance that is there needs: what the site does with its key, and
/// what the tables have of its targets.
#[derive(Drop)]
pub struct FirstArrival {
    /// Where it goes to, and whether it is to be kept.
    pub targets: Targets,
    /// Those of its targets for which its row was dropped.
    pub again: Seq<Text>,
    /// Those of its targets to which it has no row.
    pub dests: Seq<Text>,
    /// Whether it is kept already.
    pub kept: bool,
}
