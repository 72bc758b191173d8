//! The queries of a ledger in tables that ask for what is wanted: counts, the first moment at which
//! a row is due, the rows of an instance, who brought it and where it is from, pages of rows, and
//! lines of the journal by their numbers. Each says what it shows of the tables.
//!
//! A count reads the entries of an index, and keeps none; the first moment is looked up in one. A
//! page reads the rows to its destination that are in its states, puts them in order, and hands out
//! the first of them.
#![tactic(auto)]

mod behind;
mod coming;
mod counting;
mod paging;

pub use behind::{goals_behind, notes_behind};
pub use coming::origin_of;
pub use counting::{count_arrivals, count_kept, count_rows, first_moment};
pub use paging::{callers_of, page, rows_of};
