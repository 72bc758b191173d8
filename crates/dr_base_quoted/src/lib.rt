//! Texts between quotes, as JSON (RFC 8259, 7) and the labels of Prometheus have them, and as TOML
//! and Graphviz do.
//!
//! Whatever bytes a text has, what `put_quoted` adds is printable text of one line: it ends nothing
//! and begins nothing. `put_in_quotes` is for texts of a plan, which print already.
#![tactic(auto)]

mod escaped;
pub mod laws;
mod quoted;

pub use escaped::{put_escaped, put_in_quotes};
pub use quoted::{hex_digit, is_plain, put_quoted, put_quoted_byte, put_text, put_words};
