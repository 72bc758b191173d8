//! The page on which a running node shows what it has, as HTML.
//!
//! One document without scripts, pictures or anything from elsewhere. Whatever a peer sent, as a
//! UID, stands in it as characters that are no markup. Held rows have buttons, as forms, where the
//! run has a key for them.
#![tactic(auto)]

mod buttons;
pub mod laws;
mod light;
mod pieces;
mod shown;
mod written;

pub use written::{NodeShown, SHOWN, put_document};
