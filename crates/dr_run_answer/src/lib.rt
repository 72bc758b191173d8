//! What a running node answers over its control connection, as text.
//!
//! - Lines of JSON, one object each: what a node has (`put_node`), how many rows are on their way
//!   to a node (`put_queue`), associations that are open (`put_associations`), what came within the
//!   last hour (`put_recents`), an instance (`put_instance`), who brought it (`put_froms`), its
//!   rows (`put_own_rows`), and rows (`put_rows`).
//! - Figures in the text format of Prometheus: `put_figures`, `put_queues`, `put_visits`,
//!   `put_callers`, `put_stored_bytes`, `put_responses`, `put_open`, `put_lock`.
//! - What came is counted by `noted`: by caller, and of the last hour by caller and modality. The
//!   statuses of responses are counted by `note_status`.
//!
//! Whatever a peer sent, as a UID, stands in it escaped, so that it begins no line, no object and
//! no label.
#![tactic(auto)]

mod association;
mod figures;
mod instance;
mod intake;
mod journal;
mod json;
pub mod laws;
pub mod noted;
mod page;
mod responses;
mod timing;

pub use association::{OpenAssociation, put_associations};
pub use figures::{put_figures, put_open, put_queues, put_visits};
pub use instance::{put_froms, put_own_rows};
pub use intake::{Brought, Recent, put_callers, put_recents, put_stored_bytes};
pub use journal::{put_journal_head, put_lines};
pub use json::{
    Counts, Identity, Queue, Visited, Visits, put_done, put_fault, put_instance, put_late,
    put_node, put_queue, put_row, put_well,
};
pub use page::put_rows;
pub use responses::{ResponseCount, note_status, put_responses, response_copies};
pub use timing::put_lock;
