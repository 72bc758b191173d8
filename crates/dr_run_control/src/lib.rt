//! What a running node does when it is asked over its control connection, over the shared desk.
//!
//! - `Console`: a service of HTTP that answers requests: whom it admits says `dr_run_request`, what
//!   is written `dr_run_answer`. What is ordered are calls of the shared desk, with their receipts.
//! - `talk`: one request of a connection, over any reader and writer.
//!
//! What is shown is copied under the desk's lock, and written when it was given back.
#![tactic(auto)]

mod access;
mod acts;
mod console;
mod journal;
pub mod laws;
mod page;
mod reads;
mod reply;
mod talking;
mod waiting;

pub use access::names_of;
pub use console::{Around, Console, House, RowSearch};
pub use reply::name_of_refusal;
pub use talking::talk;
