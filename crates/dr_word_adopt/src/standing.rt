//! A node's ledger as it was found before any is changed.
use dr_ledger::Ledger;
use dr_site::Site;

/// A node's ledger, as it was opened.
#[derive(Drop)]
pub enum FoundLedger<L: Ledger + Drop> {
    /// It is of the plan in force.
    InForce(L),
    /// It is of the next plan already.
    Next(L),
}

/// A ledger that was opened to be changed.
#[derive(Drop)]
pub enum Standing<L: Ledger + Drop> {
    /// It is of the plan in force, or was; with the node's part of the next plan.
    Ready(L, Site),
    /// It is of the next plan already.
    Over(L),
}
