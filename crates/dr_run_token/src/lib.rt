//! Tokens, by which a running node is told to act: each in a file that nobody but its owner may
//! read or write.
#![tactic(auto)]

mod token;

pub use token::{SystemTokens, Tokens};
