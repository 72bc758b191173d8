//! What a running node and the words need to open a node's files and its ledger, and to say what
//! they found.
//!
//! - `open_node`: a plan, sealed with its certificate, the site of one of its nodes, and the ledger
//!   of that node, opened by a `Ledgers`. A `Halt` says why a word doesn't come to its work, or was
//!   refused there, and `finish` how it ends.
//! - `plan_of`, `seal_text`: the plan of a text, or the `PlanAnswer` to a text that is none; a plan
//!   sealed by the text of its certificate.
//! - `hops_of`, `item_of`: where a node sends; the instance in a Part 10 file.
//!
//! Ledgers are opened by a `Ledgers`, as files are read by a `Files`: what is proved here holds for
//! any of them.
#![tactic(auto)]

mod answer;
mod ending;
mod halt;
mod hops;
mod instance;
mod ledgers;
mod opening;
mod sealing;
mod status;

pub use answer::{PlanAnswer, answer_to_fault, tell_answer, words_or_none};
pub use ending::finish;
pub use halt::{Halt, code_of, tell_halt};
pub use hops::{NextHop, hops_of};
pub use instance::item_of;
pub use ledgers::{Ledgers, Making, OpenFault};
pub use opening::{Opened, ledger_of, open_node, seal_files};
pub use sealing::{plan_of, seal_text};
pub use status::Status;
