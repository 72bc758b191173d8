//! Where a plan of format 3 stands for more than a plan may.
ghost use Rattle.std.specs.Prelude.{◌≡◌, ◌+◌, ◌≤◌, MatchOption, MatchResult, sum_by};
ghost use Rattle.dr_plan_expand.specs.Amounts.{most, plan_size, IsWithin};
ghost use Rattle.dr_plan_expand.specs.Meanings.{lookups_of};
ghost use Rattle.dr_plan_expand.specs.Seen.{seen};
ghost use Rattle.dr_plan_places.specs.Excess.{IsOverAt, IsExcessAt};

use crate::field_place::{FieldPlace, NodePart};
use dr_plan_expand::ShortPlan;
use dr_plan_expand::amount::{Amounting, Flows, MOST, WholeNodes, spend_definitions};
use dr_plan_expand::lookup::{standard_tables, tables_of};
use dr_plan_expand::meant::Tables;

/// What the elements leave of the room, or the index of the one for which there is none.
fn over_in<A: Amounting>(way: &A, elements: &[A::Element], room: usize) -> Result<usize, usize>
    ensures { MatchResult result (λ left. sum_by (A.amount way.now) elements.now + left ≡ room)
        (IsOverAt (A.amount way.now) elements.now room) }
{
    let mut left = room;
    for (index, element) in elements.iter().enumerate() {
        match way.spend(element, left) {
            Some(more) => left = more,
            None => return Err(index),
        }
    }
    Ok(left)
}

/// The table with which the plan stands for more than a plan may, by these tables.
fn excess_by(tables: Tables<'_>, short: &ShortPlan) -> Option<FieldPlace>
    ensures { MatchOption result (plan_size (seen tables.entry) short.now ≤ most)
        (IsExcessAt (seen tables.entry) short.now) }
{
    let Some(sets) = spend_definitions(short.sets.as_slice(), MOST) else {
        return Some(FieldPlace::Root);
    };
    let Some(groups) = spend_definitions(short.groups.as_slice(), sets) else {
        return Some(FieldPlace::Root);
    };
    let nodes = match over_in(&WholeNodes(tables), short.nodes.as_slice(), groups) {
        Ok(left) => left,
        Err(index) => return Some(FieldPlace::OfNode(index, NodePart::Own)),
    };
    match over_in(&Flows(tables), short.flows.as_slice(), nodes) {
        Ok(_) => None,
        Err(index) => Some(FieldPlace::OfFlow(index)),
    }
}

/// The first table with which the plan stands for more than a plan may: sets and groups come
/// first, which stand in front of all tables, then the nodes, then the flows.
pub fn excess_in(short: &ShortPlan) -> Option<FieldPlace>
    ensures { MatchOption result (IsWithin short.now)
        (IsExcessAt (lookups_of short.now) short.now) }
{
    let known = standard_tables();
    let tables = tables_of(&known, short);
    excess_by(tables, short)
}
