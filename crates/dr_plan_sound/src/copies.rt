//! Copies, each equal to what it is made of. What derives `Clone` says so of each of its parts.
ghost use Rattle.std.specs.Prelude.{◌≡◌, IfOk};

use crate::certificate::{Certificate, Hop, Line, Stop};
use dr_base::Seq;
use std::alloc::AllocError;

/// A copy of a stop. It fails for want of memory alone.
pub fn copy_stop(stop: &Stop) -> Result<Stop, AllocError>
    ensures { IfOk result (λ copy. copy ≡ stop.now) }
{
    let copy = stop.clone()?;
    Ok(copy)
}

/// A copy of a line of a certificate. It fails for want of memory alone.
pub fn copy_line(line: &Line) -> Result<Line, AllocError>
    ensures { IfOk result (λ copy. copy ≡ line.now) }
{
    let copy = line.clone()?;
    Ok(copy)
}

/// A copy of the lines of a certificate, in order. It fails for want of memory alone.
pub fn copy_lines(lines: &Vec<Line>) -> Result<Vec<Line>, AllocError>
    ensures { IfOk result (λ v. v.items ≡ lines.now.items) }
{
    let copy = lines.clone()?;
    Ok(copy)
}

/// A copy of a numbered pair of a hop. It fails for want of memory alone.
pub fn copy_hop(hop: &Hop) -> Result<Hop, AllocError>
    ensures { IfOk result (λ copy. copy ≡ hop.now) }
{
    let copy = hop.clone()?;
    Ok(copy)
}

/// A copy of the numbered pairs of hops, in order. It fails for want of memory alone.
pub fn copy_hops(hops: &Seq<Hop>) -> Result<Seq<Hop>, AllocError>
    ensures { IfOk result (λ copy. copy ≡ hops.now) }
{
    let copy = hops.clone()?;
    Ok(copy)
}

/// A copy of a certificate. It fails for want of memory alone.
pub fn copy_certificate(certificate: &Certificate) -> Result<Certificate, AllocError>
    ensures { IfOk result (λ copy. copy ≡ certificate.now) }
{
    let copy = certificate.clone()?;
    Ok(copy)
}
