//! Whether a sealed plan does what is expected of it: of all keys of which a row speaks, and not of
//! samples, since the keys of one cell are treated alike.
#![tactic(auto)]

mod answer;
mod expecting;
pub mod laws;
mod names;
mod print;
mod row;
mod sample;
mod speaking;

pub use answer::{Case, Lack, Miss};
pub use expecting::first_miss;
pub use print::miss_text;
