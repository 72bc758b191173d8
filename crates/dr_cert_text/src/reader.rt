//! A certificate read back from its text.
ghost use Rattle.std.specs.Prelude.{◌≡◌, ◌≢◌, ◌++◌, ◌∷◌, [], ℕ, List, MatchOption, MatchResult};
ghost use Rattle.std.specs.Prelude.{All, flat_map};
ghost use Rattle.dr_cert_text.specs.CertificateText.{row, front, certificate_text};
ghost use Rattle.dr_cert_text.specs.Cuts.{Lacks};
ghost use Rattle.dr_plan_model.specs.declared.plan.Format.{Format as FormatValue};
ghost use Rattle.dr_cert_text.specs.Printable.{IsPrintable};
ghost use Rattle.dr_cert_text.specs.Reading.{Reads, ReadsRows};

use crate::fault::CertificateFault;
use crate::fields::{after, read_digest, split_at_byte};
use crate::printed::Printed;
use crate::writer::front_of;
use dr_base::Seq;
use dr_plan_model::Format;
use dr_plan_sound::{Certificate, Hop, Line};
use std::alloc::Global;

const LF: u8 = 10;

/// The most `line` rows that a certificate has.
const MAX_LINES: usize = 65_536;

/// The values of the rows in front that begin with this kind's word, and what follows them.
fn read_rows<P: Printed>(alloc: Global, text: &[u8]) -> Result<(Seq<P>, &[u8]), CertificateFault>
    requires { (item : P) → P.printable item → Lacks 10 (P.printed item) }
    ensures { ReadsRows P.word P.printed P.printable text.now result }
{
    let mut items = Vec::new(alloc);
    let mut rest = text;
    while let Some(behind) = after(rest, P::row_start()) {
        let Some((fields, later)) = split_at_byte(behind, LF) else {
            return Err(CertificateFault::Text);
        };
        items.push(P::read(alloc, fields)?)?;
        rest = later;
    }
    Ok((Seq::from_vec(items), rest))
}

/// The version of the certificate, and what follows the words before its digest.
fn read_front(text: &[u8]) -> Option<(Format, &[u8])>
    ensures { MatchOption result
        ((format : FormatValue) (rest : List ℕ) → text.now ≡ front format ++ rest → ⊥)
        (λ p. text.now ≡ front p.0 ++ p.1.now) }
{
    if let Some(behind) = after(text, front_of(Format::One)) {
        return Some((Format::One, behind));
    }
    if let Some(behind) = after(text, front_of(Format::Two)) {
        return Some((Format::Two, behind));
    }
    match after(text, front_of(Format::Three)) {
        Some(behind) => Some((Format::Three, behind)),
        None => None,
    }
}

/// The certificate of this text, in one pass: it takes exactly the texts that `write_certificate`
/// writes of certificates that can be read back. It does not test that the rows are in order.
///
/// Errors: Text where no such certificate has the text, as with a CR before an LF, an upper-case
/// digest, a number with a leading zero or beyond its range, a 65,537th line, or anything behind
/// the row `end`; Memory.
pub fn read_certificate(alloc: Global, text: &[u8]) -> Result<Certificate, CertificateFault>
    ensures { Reads certificate_text IsPrintable text.now result }
{
    let Some((format, behind)) = read_front(text) else {
        return Err(CertificateFault::Text);
    };
    let Some((digits, rows)) = split_at_byte(behind, LF) else {
        return Err(CertificateFault::Text);
    };
    let Some(digest) = read_digest(digits) else {
        return Err(CertificateFault::Text);
    };
    let (hops, after_hops) = read_rows::<Hop>(alloc, rows)?;
    let (lines, after_lines) = read_rows::<Line>(alloc, after_hops)?;
    if after_lines != b"end\n".as_slice() {
        return Err(CertificateFault::Text);
    }
    if lines.len() > MAX_LINES {
        return Err(CertificateFault::Text);
    }
    Ok(Certificate {
        format,
        digest,
        hops,
        lines,
    })
}
