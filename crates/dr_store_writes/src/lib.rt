//! The statements by which a ledger in tables is written, each with what it makes of them.
//!
//! What is known of a statement stands under its end: that the disk has returned what was written
//! so far.
#![tactic(auto)]

mod adding;
mod cells;
mod changing;
mod dropping;
mod running;

pub use adding::{
    add_adopted, add_arrival, add_arrived, add_dropped, add_forgotten, add_item, add_kept,
    add_print, add_requeued, add_row, add_settled, add_site, add_target,
};
pub use cells::{moment_cell, syntax_cell};
pub use changing::{set_body, set_plan, set_row, set_whole};
pub use dropping::{
    drop_arrivals, drop_arrivals_of, drop_item, drop_lines, drop_over, drop_print, drop_rows_of,
    drop_targets,
};
