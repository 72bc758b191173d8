//! The words `list`, `requeue`, `drop`, `forget`, `visit`, `backup` and `stop` at a node that runs:
//! clients of its control connection (`serve --control`).
//!
//! `ask_files` does them over files, tokens and a network. What a node is asked and told by a word,
//! over anything that asks (`dr_run_ask`), is said by `run_errand` in `doing`.
#![tactic(auto)]

mod caller;
mod doing;
mod listing;
mod running;
mod shown;

pub use caller::Caller;
pub use running::{Way, ask_files, digest_of, status_of, token_at};
pub use shown::{number_in, text_in};
