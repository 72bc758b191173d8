//! The certificate of a plan, as text.
ghost use Rattle.std.specs.Prelude.{◌≡◌, true, false, IfOk, IfSome, Ok};
ghost use Rattle.dr_plan_model.specs.Networks.{Network};
ghost use Rattle.dr_plan_model.specs.declared.plan.Format.TheVariants.{Three};
ghost use Rattle.dr_cert_text.specs.Printable.{IsDigest};
ghost use Rattle.dr_certify.specs.Certified.{Certifies, FindsCertificate, FindsOf};
ghost use Rattle.dr_certify.specs.Certified.{HasNoCertificate, Prints};

use crate::input::read_input;
use dr_base::Text;
use dr_cert_text::write_certificate;
use dr_check::{CheckFault, Fault, Verdict, check};
use dr_plan_core::{PlanFault, read_core};
use dr_plan_model::{Format, Plan};
use std::alloc::{AllocError, Global};
use std::io;
use std::io::{Read, Write};

/// Why a plan has no certificate.
#[derive(Drop)]
pub enum Refusal {
    /// The plan isn't sound, and this shows it.
    Unsound(Fault),
    /// Its certificate would have over 65,536 lines.
    TooLarge,
    /// There was no memory.
    Memory,
}

impl From<AllocError> for Refusal {
    ghost use Rattle.std.specs.Prelude.{◌≡◌};
    ghost use Rattle.dr_certify.specs.declared.certificate.Refusal.TheVariants.{Memory};

    ghost from_gives = { λ _ refusal. refusal ≡ Memory };

    fn from(_: AllocError) -> Refusal {
        Refusal::Memory
    }
}

/// The text of the plan's certificate, byte by byte as it is printed.
///
/// Errors: Unsound, TooLarge, Memory.
pub fn certify(alloc: Global, plan: &Plan) -> Result<Text, Refusal>
    ensures { IsDigest plan.now.digest → Certifies plan.now result }
{
    match check(alloc, plan) {
        Ok(Verdict::Yes(certificate)) => Ok(write_certificate(alloc, &certificate)?),
        Ok(Verdict::No(fault)) => Err(Refusal::Unsound(fault)),
        Err(CheckFault::TooLarge) => Err(Refusal::TooLarge),
        Err(CheckFault::Memory) => Err(Refusal::Memory),
    }
}

/// What a plan of format 1 or 2 comes to, where it was certified or refused.
fn found_of(certified: Result<Text, Refusal>) -> Result<Option<Text>, AllocError>
    ensures { (plan : Network)
        → (plan.format ≡ Three → ⊥)
        → Certifies plan certified
        → IfOk result (FindsOf plan) }
{
    match certified {
        Ok(certificate) => Ok(Some(certificate)),
        Err(Refusal::Unsound(fault)) => {
            drop(fault);
            Ok(None)
        }
        Err(Refusal::TooLarge) => Ok(None),
        Err(Refusal::Memory) => Err(AllocError),
    }
}

/// The text of the certificate of the plan; None where it has none, and of format 3, whose text is
/// to be expanded before it is read.
fn certificate_of_plan(alloc: Global, plan: &Plan) -> Result<Option<Text>, AllocError>
    ensures { IsDigest plan.now.digest → IfOk result (FindsOf plan.now) }
{
    match plan.format() {
        Format::Three => Ok(None),
        Format::One | Format::Two => found_of(certify(alloc, plan)),
    }
}

/// The text of the certificate of the plan that this text writes as it stands; None where it writes
/// none, or one that has no certificate or is of format 3.
fn certificate_of(alloc: Global, text: &[u8]) -> Result<Option<Text>, AllocError>
    ensures { IfOk result (FindsCertificate text.now) }
{
    match read_core(alloc, text) {
        Ok(plan) => certificate_of_plan(alloc, &plan),
        Err(PlanFault::Memory) => Err(AllocError),
        Err(_) => Ok(None),
    }
}

/// Prints to the output the certificate of the plan on the input, and answers whether it has one:
/// where the text writes no plan of format 1 or 2, or the plan isn't sound or too large, nothing is
/// printed.
///
/// Errors: those of the input and of the output, and `OutOfMemory`.
pub fn print_certificate<R: Read, W: Write>(
    alloc: Global,
    input: &mut R,
    output: &mut W,
) -> io::Result<bool>
    ensures printed { result ≡ Ok true
        → IfSome (R.remaining input.old) (λ text.
        Prints text (W.contents output.old) (W.contents output.new)) }
    ensures unprinted { result ≡ Ok false → W.contents output.new ≡ W.contents output.old }
    ensures none { result ≡ Ok false → IfSome (R.remaining input.old) HasNoCertificate }
{
    let text = read_input(alloc, input)?;
    match certificate_of(alloc, text.as_slice())? {
        Some(certificate) => {
            output.write_all(certificate.as_bytes())?;
            Ok(true)
        }
        None => Ok(false),
    }
}
