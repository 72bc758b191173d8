//! What a ledger has.
use dr_base::{Seq, Text};
use dr_ledger::Progress;

/// What a ledger has at one moment, as its calls list it.
#[derive(Debug, Drop)]
pub struct Holdings {
    /// The accepted pairs of a caller and a UID.
    pub arrivals: Seq<(Text, Text)>,
    /// The kept UIDs, with the lengths of the bodies (bytes).
    pub kept: Seq<(Text, u64)>,
    /// How far each UID is on its way to each destination.
    pub rows: Seq<((Text, Text), Progress)>,
    /// How many lines its journal has.
    pub lines: u64,
}

/// How much a ledger has at one moment, and how often its store has failed.
#[derive(Clone, Copy, PartialEq, Eq, Debug)]
pub struct Totals {
    /// The accepted pairs of a caller and a UID.
    pub arrivals: u64,
    /// The kept UIDs.
    pub kept: u64,
    /// The lines of its journal.
    pub lines: u64,
    /// The failures of its store.
    pub failures: u64,
}
