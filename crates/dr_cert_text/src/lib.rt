//! Certificates as texts: the lines and hops of a certificate in the order of their printed bytes,
//! a text of a certificate written, and a text read back.
#![tactic(auto)]

pub mod fault;
mod fields;
mod hops;
pub mod laws;
mod lines;
mod order;
mod printed;
mod reader;
mod sorted;
mod writer;

pub use fault::CertificateFault;
pub use fields::split_at_byte;
pub use order::{order_hops, order_lines};
pub use printed::add_part;
pub use reader::read_certificate;
pub use sorted::{are_hops_in_order, are_lines_in_order};
pub use writer::write_certificate;
