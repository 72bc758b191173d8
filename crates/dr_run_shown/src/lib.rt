//! What others sent, as a line of a log or of standard error shows it (`Escaped`).
//!
//! A title or a UID that a peer sent may hold any bytes. Shown as they are, a line feed would begin
//! a line of its own, which anyone could forge, and an
//! escape would go to the terminal. So each byte that isn't plain text has an escape, and what is
//! long is cut.
#![tactic(auto)]

pub mod laws;
mod shown;

pub use shown::Escaped;
