//! Worked figures, by computation.
pub mod answered;
pub mod outcomes;
pub mod spelled;
pub mod statuses;
pub mod table;
