//! The content of tables: a number of 256 bits that tells whether rows are the ones that it was
//! taken of, in whatever order they stand.
//!
//! It is the sum of the SHA-256 of each row as bytes, modulo 2^256. So whoever changes some rows
//! renews it by those rows alone, as they were and as they are.
#![tactic(auto)]

mod content;
pub mod figures;
pub mod laws;
mod row;

pub use content::Content;
pub use row::content_of_row;
