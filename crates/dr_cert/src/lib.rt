//! The verifier of certificates: a plan and its certificate, read back and trusted for nothing,
//! become a sealed plan, whose type keeps that the plan is sound and that this is its certificate.
#![tactic(auto)]

mod fault;
mod hop_list;
pub mod index;
pub mod laws;
pub mod place;
mod read;
mod sealed;
mod survey;
mod verify;
mod walk;
mod walker;

pub use dr_cert_text::write_certificate;
pub use dr_plan_sound::Certificate;
pub use fault::CertFault;
pub use read::read_certificate;
pub use sealed::Sealed;
