//! The desk of a node: its ledger with one owner, or shared by threads.
//!
//! A `Desk` is called by its owner alone. `SharedDesk` puts it under one lock, which is held for
//! one call of the ledger and never longer; each thread has a `Pass`, which counts the lines that
//! its calls made and holds receipts for the last of them. `close` ends the sharing and compares
//! the receipts with the journal. `StillDesk` is the lock itself, for whoever needs all calls to
//! wait for a while.
//!
//! A desk that nobody else has takes another plan: `Desk::adopt`, or `SharedDesk::adopt`, which
//! ends the sharing where the plan is taken.
#![tactic(auto)]

mod adopting;
mod changing;
mod closing;
mod desk;
mod held;
mod holdings;
pub mod laws;
mod paging;
mod pass;
pub mod receipt;
mod shared;
mod sharing;
mod still;
mod views;

pub use adopting::AdoptFault;
pub use changing::{ChangeFault, Changed, NotChanged};
pub use closing::{CloseFault, Closed, NotClosed, ReceiptMismatch};
pub use desk::Desk;
pub use holdings::{Holdings, Totals};
pub use pass::{Pass, TooManyPasses};
pub use receipt::{Call, Receipt, Reply};
pub use shared::SharedDesk;
pub use sharing::Sharing;
pub use still::StillDesk;
