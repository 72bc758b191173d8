//! Certificates read from their texts.
ghost use Rattle.dr_cert.specs.ReadingBack.{ReadsCertificate};

use crate::fault::CertFault;
use dr_plan_sound::Certificate;
use std::alloc::Global;

/// The certificate of the text: exactly the one that is written so, else Text. Memory is answered
/// only where a growth was refused.
pub fn read_certificate(alloc: Global, text: &[u8]) -> Result<Certificate, CertFault>
    ensures { ReadsCertificate text.now result }
{
    match dr_cert_text::read_certificate(alloc, text) {
        Ok(certificate) => Ok(certificate),
        Err(fault) => Err(CertFault::from(fault)),
    }
}
