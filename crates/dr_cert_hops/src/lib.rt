//! The presentation contexts of a plan's hops: the pairs of a class and a transfer syntax that go
//! over each, numbered.
#![tactic(auto)]

pub mod hops;

pub use hops::{Numbered, number_hops};
