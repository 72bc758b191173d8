//! The plan of a text, and a plan sealed with the certificate of one.
ghost use Rattle.dr_run_open.specs.Sealings.{ReadsPlan, SealsText};

use crate::answer::{PlanAnswer, answer_to_fault};
use dr_cert::{CertFault, Sealed, read_certificate};
use dr_plan::{Plan, read_plan};
use std::alloc::Global;

/// The plan of a text, or the answer to a text that has none.
pub fn plan_of(alloc: Global, text: &[u8]) -> Result<Plan, PlanAnswer>
    ensures { ReadsPlan text.now result }
{
    match read_plan(alloc, text) {
        Ok(plan) => Ok(plan),
        Err(fault) => Err(answer_to_fault(alloc, text, fault)),
    }
}

/// A plan sealed by the certificate of a text: the plan is sound, and the certificate is its own.
///
/// Errors: the first fault of the certificate.
pub fn seal_text(alloc: Global, plan: Plan, text: &[u8]) -> Result<Sealed, CertFault>
    ensures { SealsText plan text.now result }
{
    let certificate = match read_certificate(alloc, text) {
        Ok(certificate) => certificate,
        Err(CertFault::Text) => return Err(CertFault::Text),
        Err(_) => return Err(CertFault::Memory),
    };
    Sealed::new(alloc, plan, certificate)
}
