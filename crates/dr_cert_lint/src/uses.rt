//! Whether anything that comes to a node uses a part of it.
ghost use Rattle.std.specs.Prelude.{◌≡◌, ◌↔◌, IfOk, IsTrue};
ghost use Rattle.dr_cert_lint.specs.Uses.{IsKnownPart, IsUsed, ServesLine, Uses};

use dr_base::Text;
use dr_cert::Sealed;
use dr_plan_sound::Line;
use dr_route::cell::key_in;
use dr_route::{AcceptRow, Key, Rule, accepts, holds, is_local, routing};
use std::alloc::{AllocError, Global};
use std::slice;

/// A part of a node, which may be of use for what comes there.
#[derive(Clone, Copy, Drop)]
pub enum PartInUse<'a> {
    /// The node itself.
    Whole,
    /// An accept row.
    Row(&'a AcceptRow),
    /// A rule.
    Rule(&'a Rule),
    /// What its rules keep.
    Kept(&'a [Rule]),
}

/// Whether the part is of use for what the caller brings. What enters at the node itself isn't
/// accepted by a row.
fn uses(alloc: Global, part: PartInUse<'_>, caller: &Text, key: &Key) -> Result<bool, AllocError>
    ensures { IfOk result (λ b. IsTrue b ↔ Uses part.entry caller.now key.now) }
{
    match part {
        PartInUse::Whole => Ok(true),
        PartInUse::Row(row) => {
            if is_local(caller) {
                return Ok(false);
            }
            Ok(accepts(slice::from_ref(row), caller, &key.class, key.syntax))
        }
        PartInUse::Rule(rule) => Ok(holds(rule, caller, key)),
        PartInUse::Kept(rules) => {
            let targets = routing::targets(alloc, rules, caller, key)?;
            Ok(targets.keep)
        }
    }
}

/// Whether the line is of the node, and the part of use for what it speaks of.
fn serves(alloc: Global, line: &Line, name: &Text, part: PartInUse<'_>) -> Result<bool, AllocError>
    ensures { IfOk result (λ b. IsTrue b ↔ ServesLine name.now part.entry line.now) }
{
    let stop = &line.stop;
    if stop.node != *name {
        return Ok(false);
    }
    let key = key_in(alloc, &stop.cell)?;
    let is_of_use = uses(alloc, part, &stop.caller, &key)?;
    Ok(is_of_use)
}

/// Whether anything that comes to the node uses the part: one pass over the certificate's lines.
///
/// Errors: want of memory.
pub fn is_used(
    alloc: Global,
    sealed: &Sealed,
    name: &Text,
    part: PartInUse<'_>,
) -> Result<bool, AllocError>
    requires { IsKnownPart sealed.now.plan part }
    ensures { IfOk result (λ b. IsTrue b ↔ IsUsed sealed.now.plan name.now part.entry) }
{
    let _plan = sealed.plan();
    for line in sealed.certificate().lines.as_slice() {
        if serves(alloc, line, name, part)? {
            return Ok(true);
        }
    }
    Ok(false)
}
