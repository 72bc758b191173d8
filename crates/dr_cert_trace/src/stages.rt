//! The places that a key comes to.
ghost use Rattle.std.specs.Prelude.{◌≡◌, ◌+◌, ◌-◌, ◌^◌, IfOk, OnOk};
ghost use Rattle.dr_cert_trace.specs.Stages.{AreOrdered, AreStages, GathersStages};

use dr_base::Text;
use dr_cert::Sealed;
use dr_plan_sound::Line;
use dr_route::Key;
use std::alloc::{AllocError, Global};

/// A place that a key comes to, and how deep it lies: the fewer hops there may still be, the
/// deeper.
#[derive(Drop)]
pub struct TraceStage {
    pub depth: u32,
    /// The caller that brings the key, and the node.
    pub place: (Text, Text),
}

/// The stage of a place with this rank.
fn stage_of(caller: &Text, node: &Text, rank: u32) -> Result<TraceStage, AllocError>
    ensures { IfOk result (λ s.
        (s.place ≡ (caller.now, node.now)) × (s.depth + rank ≡ 2 ^ 32 - 1)) }
{
    let place = (caller.clone()?, node.clone()?);
    let depth = u32::MAX - rank;
    Ok(TraceStage { depth, place })
}

/// The stage of a line's place, where the key comes there.
fn add_stage(
    stages: &mut Vec<TraceStage>,
    sealed: &Sealed,
    line: &Line,
    key: &Key,
) -> Result<(), AllocError>
    ensures { OnOk result
        (GathersStages sealed.now.plan key.now line.now stages.old.items stages.new.items) }
{
    let stop = &line.stop;
    let Some(rank) = sealed.rank(&stop.caller, &stop.node, key) else {
        return Ok(());
    };
    stages.push(stage_of(&stop.caller, &stop.node, rank)?)?;
    Ok(())
}

/// The places that the key comes to, in the order of the certificate's lines; one may stand there
/// more than once.
fn unsorted_stages(alloc: Global, sealed: &Sealed, key: &Key) -> Result<Vec<TraceStage>, AllocError>
    ensures { IfOk result (λ all. AreStages sealed.now.plan key.now all.items) }
{
    let _plan = sealed.plan();
    let mut stages = Vec::new(alloc);
    for line in sealed.certificate().lines.as_slice() {
        add_stage(&mut stages, sealed, line, key)?;
    }
    Ok(stages)
}

/// The places that the key comes to, those from which it may go farthest first.
pub fn stages_of(alloc: Global, sealed: &Sealed, key: &Key) -> Result<Vec<TraceStage>, AllocError>
    ensures { IfOk result (λ all. AreOrdered sealed.now.plan key.now all.items) }
{
    let mut stages = unsorted_stages(alloc, sealed, key)?;
    stages.sort_by_key(|stage| stage.depth)?;
    Ok(stages)
}
