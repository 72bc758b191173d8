//! Messages out of presentation data values (PS3.7 section 6.3, PS3.8 E.2), where the data set of a
//! C-STORE-RQ is scanned while it comes (PS3.5 section 7).
//!
//! `specs/Stores.antt` says what the data set of a message is read as. `specs/Following.antt` says
//! what a `Hearing` keeps of its scan, which no caller sees. `laws` has what follows from the
//! definitions, and a worked example.
#![tactic(auto)]

mod heard;
mod hearing;
pub mod laws;
mod store;

pub use heard::HeardMessage;
pub use hearing::Hearing;
