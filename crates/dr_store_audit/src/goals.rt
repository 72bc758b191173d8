//! Where the lines of first arrivals go on to.
ghost use Rattle.std.specs.Prelude.{◌≡◌, ◌<◌, IfOk, IsTrue, ◌↔◌, All, filter};
ghost use Rattle.dr_store_audit.specs.Goals.{AreByLine, is_at, keep_by, keep_of, to_by, to_of};

use dr_base::{Seq, Text};
use dr_route::{Targets, is_local};
use std::alloc::{AllocError, Global};

/// Whether goals are in the order of their lines.
pub fn are_by_line(goals: &[(u64, Text)]) -> bool
    ensures { IsTrue result ↔ AreByLine goals.now }
{
    goals.is_sorted_by(|goal, next| goal.0 <= next.0)
}

/// The goals of line n, which stand together where goals are in the order of their lines: so no
/// other goal is looked at but on the way there.
fn goals_of(goals: &[(u64, Text)], n: u64) -> &[(u64, Text)]
    requires { AreByLine goals.now }
    ensures { result.now ≡ filter (is_at n) goals.now }
{
    let first = goals.partition_point(|goal| goal.0 < n);
    let rest = &goals[first..];
    let end = rest.partition_point(|goal| goal.0 <= n);
    &rest[..end]
}

/// Where these goals of one line go on to, and whether it is kept.
fn targets_by(alloc: Global, goals: &[(u64, Text)]) -> Result<Targets, AllocError>
    ensures { IfOk result (λ targets.
        (targets.to ≡ to_by goals.now) × (targets.keep ≡ keep_by goals.now)) }
{
    let mut to = Seq::new(alloc);
    let mut keep = false;
    for goal in goals {
        if is_local(&goal.1) {
            keep = true;
        } else {
            to.push(goal.1.clone()?)?;
        }
    }
    Ok(Targets { to, keep })
}

/// Where line n goes on to, and whether it is kept, by the goals of all lines.
pub fn targets_of(alloc: Global, goals: &[(u64, Text)], n: u64) -> Result<Targets, AllocError>
    requires { AreByLine goals.now }
    ensures { IfOk result (λ targets.
        (targets.to ≡ to_of goals.now n) × (targets.keep ≡ keep_of goals.now n)) }
{
    let targets = targets_by(alloc, goals_of(goals, n))?;
    Ok(targets)
}

/// Whether no goal is of a line with that number or a higher one.
pub(crate) fn are_before(goals: &[(u64, Text)], next: u64) -> bool
    ensures { IsTrue result ↔ All (λ goal. goal.0 < next) goals.now }
{
    goals.iter().all(|goal| goal.0 < next)
}
