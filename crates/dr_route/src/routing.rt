//! What the rules of a node do with a key.
ghost use Rattle.std.specs.Prelude.{◌≡◌, ◌↔◌, IsTrue, IfOk, Contains};
ghost use Rattle.dr_base.specs.Texts.{Text as Words, IsInByteOrder};
ghost use Rattle.dr_route.specs.Routes.{SendsBy, KeepsBy};

use crate::key::Key;
use crate::names::{add_names, names_in_order};
use crate::rule::{Rule, Targets, holds};
use dr_base::Text;
use std::alloc::{AllocError, Global};
use std::collections::BTreeSet;

/// What all rules that hold say together: the nodes that they name, in byte order and each once,
/// and whether any of them keeps.
pub fn targets(
    alloc: Global,
    rules: &[Rule],
    caller: &Text,
    key: &Key,
) -> Result<Targets, AllocError>
    ensures to { IfOk result (λ t.
        (name : Words) → Contains t.to name ↔ SendsBy rules.now caller.now key.now name) }
    ensures ordered { IfOk result (λ t. IsInByteOrder t.to) }
    ensures keep { IfOk result (λ t. IsTrue t.keep ↔ KeepsBy rules.now caller.now key.now) }
{
    let mut to = BTreeSet::new(alloc);
    let mut keep = false;
    for rule in rules {
        if holds(rule, caller, key) {
            add_names(&mut to, rule.to.as_slice())?;
            if rule.keep {
                keep = true;
            }
        }
    }
    let to = names_in_order(alloc, to)?;
    Ok(Targets { to, keep })
}
