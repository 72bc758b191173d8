//! Which answers of a node's ledger a world goes on with.
ghost use Rattle.std.specs.Prelude.{◌≡◌, MatchResult, true};
ghost use Rattle.std.specs.BTreeMap as tree;
ghost use Rattle.dr_base.specs.Texts.{text_cmp};
ghost use Rattle.dr_world.specs.Answered.{IsAnsweredIf, IsUnansweredBy, armed_for, armed_in};
ghost use Rattle.dr_world.specs.Answered.{armed_of};
ghost use Rattle.dr_world.specs.Runs.{step_of};
ghost use Rattle.dr_world.specs.Whole.{noted};
ghost use Rattle.dr_world.specs.declared.steps.StepNote.TheVariants.{Refused as WasRefused};

use crate::fault::WorldFault;
use crate::steps::StepNote;
use dr_base::Text;
use dr_ledger::{Ledger, LedgerFault, Refusing};
use dr_node::Node;
use dr_world_script::Step;
use std::collections::BTreeMap;

/// Whether the store of the node of that name is to refuse the next line.
fn is_armed_at<L: Ledger>(nodes: &BTreeMap<Text, Node<Refusing<L>>>, name: &Text) -> bool
    ensures { result ≡ armed_of (tree.get text_cmp nodes.now name.now) }
{
    let Some(node) = nodes.get(name) else {
        return false;
    };
    node.is_to_refuse()
}

/// Whether it is the store of the node whose ledger a step asks.
pub fn is_armed_for<L: Ledger>(nodes: &BTreeMap<Text, Node<Refusing<L>>>, step: &Step) -> bool
    ensures { result ≡ armed_for (armed_in nodes.now) (step_of step.now) }
{
    match step {
        Step::Submit { node, .. } => is_armed_at(nodes, node),
        Step::Away { from, .. } => is_armed_at(nodes, from),
        Step::Requeue { node, .. } => is_armed_at(nodes, node),
        Step::Drop { node, .. } => is_armed_at(nodes, node),
        Step::Forget { node, .. } => is_armed_at(nodes, node),
        _ => false,
    }
}

/// What a ledger refused, where the store was told to or not.
fn refused(fault: LedgerFault, is_armed: bool) -> Result<StepNote, WorldFault>
    ensures { MatchResult result
        (λ note. (note ≡ WasRefused fault)
        × IsAnsweredIf (is_armed ≡ true) (noted (WasRefused fault)))
        (IsUnansweredBy is_armed (noted (WasRefused fault))) }
{
    match fault {
        LedgerFault::Memory => Err(WorldFault::Memory),
        LedgerFault::Store => {
            if is_armed {
                return Ok(StepNote::Refused(LedgerFault::Store));
            }
            Err(WorldFault::Store)
        }
        other => Ok(StepNote::Refused(other)),
    }
}

/// What a step came to, where a world goes on with what its ledger answered.
///
/// Errors: Store, where the store wasn't told to refuse; Memory.
pub fn answered(note: StepNote, is_armed: bool) -> Result<StepNote, WorldFault>
    ensures { MatchResult result
        (λ same. (same ≡ note) × IsAnsweredIf (is_armed ≡ true) (noted note))
        (IsUnansweredBy is_armed (noted note)) }
{
    match note {
        StepNote::Refused(fault) => refused(fault, is_armed),
        other => Ok(other),
    }
}
