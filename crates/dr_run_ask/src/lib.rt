//! What a node that runs is asked and told over its control connection (`serve --control`), by who
//! asks.
//!
//! - `HttpCall` and `request_bytes`: what is asked, as the bytes of a request of HTTP/1.1.
//! - `answer_in`: the answer in the bytes that came; `first_value`, `text_at`: its lines of JSON.
//! - `Asks`: where a node is asked one thing after the other. `see`, `tell`: the node is asked what
//!   it is before it is told anything, and nothing is told to another one than was meant.
#![tactic(auto)]

mod answer;
mod asking;
mod call;
mod fault;
pub mod laws;
mod lines;
mod request;

pub use answer::{HttpAnswer, MOST, answer_in};
pub use asking::{Asks, Meant, judge, refusal, see, tell};
pub use call::{
    HttpCall, copy_form, dest_form, journal_form, reason_form, row_form, rows_form, uid_form,
};
pub use fault::AskFault;
pub use lines::{first_value, flag_at, number_at, text_at, value_of};
pub use request::request_bytes;
