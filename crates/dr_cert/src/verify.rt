//! The tests of a certificate, one after another.
ghost use Rattle.std.specs.Prelude.{◌↔◌, IsTrue, Contains};
ghost use Rattle.dr_plan_sound.specs.declared.certificate.Line.{Line as LineValue};
ghost use Rattle.dr_cert.specs.Conditions.{IsOfPlan, UpToOrder};
ghost use Rattle.dr_cert.specs.Indexing.{IsIndexOf, AreSorted};
ghost use Rattle.dr_cert.specs.Verifying.{TestsUpToOrder, Walks, Verifies};

use crate::fault::CertFault;
use crate::hop_list::are_right_hops;
use crate::index::find;
use crate::place::StopPlace;
use crate::walk::walk_lines;
use dr_cert_text::{are_hops_in_order, are_lines_in_order};
use dr_plan_model::Plan;
use dr_plan_sound::{Certificate, Line};
use std::alloc::Global;

/// Whether the certificate's version is the plan's format, and its digest the plan's.
fn is_of_plan(plan: &Plan, certificate: &Certificate) -> bool
    ensures { IsTrue result ↔ IsOfPlan plan.now certificate.now }
{
    if certificate.format != plan.format() {
        return false;
    }
    certificate.digest == *plan.digest()
}

/// The certificate is of this plan, and its lines and hops stand in order.
pub fn test_order(alloc: Global, plan: &Plan, certificate: &Certificate) -> Result<(), CertFault>
    ensures { TestsUpToOrder plan.now certificate.now result }
{
    if !is_of_plan(plan, certificate) {
        return Err(CertFault::OtherPlan);
    }
    if !are_lines_in_order(alloc, certificate.lines.as_slice())? {
        return Err(CertFault::Order);
    }
    if !are_hops_in_order(alloc, certificate.hops.as_slice())? {
        return Err(CertFault::Order);
    }
    Ok(())
}

/// The stops of the lines are those to which a walk comes, each is let in, and each goes on. The
/// answer is whether the ranks are right among each other.
fn test_walk(
    alloc: Global,
    plan: &Plan,
    certificate: &Certificate,
    index: &[Line],
) -> Result<bool, CertFault>
    requires begun { UpToOrder plan.now certificate.now }
    requires indexed { IsIndexOf certificate.now.lines index.now }
    ensures { Walks plan.now certificate.now index.now result }
{
    let Some(walked) = walk_lines(alloc, plan, index)? else {
        return Err(CertFault::MissingLine);
    };
    if !walked.survey.accepted {
        return Err(CertFault::NoContext);
    }
    if !walked.survey.goes_on {
        return Err(CertFault::DeadEnd);
    }
    if !walked.reached {
        return Err(CertFault::Order);
    }
    Ok(walked.survey.ranked)
}

/// Whether the line is the one that the index has for its stop.
fn is_indexed(line: &Line, index: &[Line]) -> bool
    requires { AreSorted index.now }
    ensures { IsTrue result ↔ Contains index.now line.now }
{
    let stop = &line.stop;
    let Some(place) = find(
        index,
        &StopPlace::of_cell(&stop.caller, &stop.node, &stop.cell),
    ) else {
        return false;
    };
    index[place].rank == line.rank
}

/// Whether each line is the one that the index has for its stop: so no stop has two lines.
fn are_indexed(lines: &[Line], index: &[Line]) -> bool
    requires { AreSorted index.now }
    ensures { IsTrue result
        ↔ ((line : LineValue) → Contains lines.now line → Contains index.now line) }
{
    for line in lines {
        if !is_indexed(line, index) {
            return false;
        }
    }
    true
}

/// All tests behind the first ones: the walk over the lines, the ranks, and the hops.
pub fn test_lines(
    alloc: Global,
    plan: &Plan,
    certificate: &Certificate,
    index: &[Line],
) -> Result<(), CertFault>
    requires begun { UpToOrder plan.now certificate.now }
    requires indexed { IsIndexOf certificate.now.lines index.now }
    ensures { Verifies plan.now certificate.now index.now result }
{
    let ranked = test_walk(alloc, plan, certificate, index)?;
    if !ranked {
        return Err(CertFault::WrongRank);
    }
    if !are_indexed(certificate.lines.as_slice(), index) {
        return Err(CertFault::WrongRank);
    }
    if !are_right_hops(alloc, certificate.hops.as_slice(), index)? {
        return Err(CertFault::HopList);
    }
    Ok(())
}
