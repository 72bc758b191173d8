//! What a step came to.
use dr_ledger::LedgerFault;

/// What a step came to.
#[derive(Clone, Copy, PartialEq, Eq, Debug)]
pub enum StepNote {
    /// It was done.
    Done,
    /// Its condition fails, and nothing has changed.
    Skipped,
    /// The ledger refused it, with this fault.
    Refused(LedgerFault),
    /// What the node was to forget is under way from there, and nothing has changed.
    UnderWay,
}
