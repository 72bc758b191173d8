//! The tables in which a ledger is kept in a file, and the book that they stand for.
//!
//! `specs/Tables.antt` has the tables as a schema, `specs/Statements.antt` the texts of all
//! statements, `specs/Books.antt` the book and the data sets that the tables stand for.
#![tactic(auto)]

pub mod laws;
