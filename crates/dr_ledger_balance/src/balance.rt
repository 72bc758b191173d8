//! What the first lines of a journal made.
use dr_base::{Seq, Text};
use dr_ledger::{Instance, Progress};

/// What the first lines of a journal made, and how many they were. Each list is in the order of its
/// keys, each key once.
#[derive(Drop)]
pub struct Balance {
    /// How many lines they were.
    pub count: u64,
    /// The instances, by uid.
    pub items: Seq<Instance>,
    /// Who brought which uid.
    pub arrivals: Seq<(Text, Text)>,
    /// The uids that are kept.
    pub kept: Seq<Text>,
    /// How far each (uid, destination) is.
    pub rows: Seq<((Text, Text), Progress)>,
}
