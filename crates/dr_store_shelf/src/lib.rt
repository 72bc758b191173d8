//! Where the data sets of a ledger are put, and the cells of its table that stand for them.
//!
//! A shelf gives out a cell for each data set that it takes, a row of bytes for the ledger's table,
//! and gives the data set for the cell. Either the cell is the data set itself (`InRow`), or it
//! names an extent of a file beside the database, with the digests by which what is read is tested
//! (`InFile`). `LedgerShelf` is either of both, all data sets of one ledger by one kind.
#![tactic(auto)]

mod cell;
mod either;
mod fault;
mod in_file;
mod in_row;
pub mod laws;
mod shelf;

pub use cell::{extent_of, passes};
pub use either::LedgerShelf;
pub use fault::ShelfFault;
pub use in_file::InFile;
pub use in_row::InRow;
pub use shelf::{BodyCell, Shelf};
