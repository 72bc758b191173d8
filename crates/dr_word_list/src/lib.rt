//! The words of the program that only look into a node's ledger, queue a row again, or let go.
//!
//! `LedgerClerk` does them: `make` and `make_with_data` the word `new`; `list` and `requeue` the
//! words of these names;
//! `list_long`, `summarize` and `requeue_all` these with the options that print names and dates,
//! that count what there is, and that take all held rows to a node; `give_up` and `forget` the
//! words `drop` and `forget`. `put_queue_line` adds the line of the rows to a node to such a
//! summary, of whatever node they are.
//!
//! By a `Registry` it comes to a ledger, as `open_node` of `dr_run_open` does.
#![tactic(auto)]

mod clerk;
mod date;
mod dropping;
mod forgetting;
mod listing;
mod long;
mod making;
mod requeuing;
mod requeuing_all;
mod summary;
mod texts;

pub use clerk::LedgerClerk;
pub use date::put_date;
pub use dropping::GivenUp;
pub use long::put_class;
pub use requeuing::HeldRow;
pub use summary::{QueueCounts, put_queue_line};
pub use texts::Registry;
