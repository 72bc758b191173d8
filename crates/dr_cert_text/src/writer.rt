//! The text of a certificate.
ghost use Rattle.std.specs.Prelude.{◌≡◌, ◌++◌, IfOk, OnOk, flat_map};
ghost use Rattle.dr_cert_text.specs.CertificateText.{row, front, certificate_text};

use crate::printed::Printed;
use dr_base::Text;
use dr_plan_model::Format;
use dr_plan_sound::Certificate;
use std::alloc::{AllocError, Global};

const LF: u8 = 10;

/// Adds a row for each of the values.
fn write_rows<P: Printed>(out: &mut Vec<u8>, items: &[P]) -> Result<(), AllocError>
    ensures { OnOk result
        (out.new.items
        ≡ out.old.items ++ flat_map (λ item. row P.word (P.printed item)) items.now) }
{
    for item in items {
        out.extend_from_slice(P::row_start())?;
        item.print(out)?;
        out.push(LF)?;
    }
    Ok(())
}

/// What stands before the digest.
pub fn front_of(format: Format) -> &'static [u8]
    ensures { result.now ≡ front format }
{
    match format {
        Format::One => b"certificate\t1\nplan\t",
        Format::Two => b"certificate\t2\nplan\t",
        Format::Three => b"certificate\t3\nplan\t",
    }
}

/// The certificate's text, in one pass over its rows.
pub fn write_certificate(alloc: Global, certificate: &Certificate) -> Result<Text, AllocError>
    ensures { IfOk result (λ text. text ≡ certificate_text certificate.now) }
{
    let digest = hex::encode(alloc, certificate.digest.as_slice())?;
    let mut out = Vec::from_slice(alloc, front_of(certificate.format))?;
    out.extend_from_slice(digest.as_bytes())?;
    out.push(LF)?;
    write_rows(&mut out, certificate.hops.as_slice())?;
    write_rows(&mut out, certificate.lines.as_slice())?;
    out.extend_from_slice(b"end\n")?;
    Ok(Text::from_vec(out))
}
