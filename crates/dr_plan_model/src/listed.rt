//! What the flows of a plan list, as sets in which a value is looked for.
ghost use Rattle.std.specs.Prelude.{◌≢◌, [], IfOk, OnErr};
ghost use Rattle.dr_plan_model.specs.Listings.{IsListedBy, AreListedBy};

use crate::literals::literals_in;
use crate::plan::Flow;
use dr_base::{Seq, Text};
use dr_route::names::set_of;
use std::alloc::{AllocError, Global};

/// The single modalities and stations that a flow lists, each as a set: in byte order and each
/// once.
#[derive(Clone, Debug, Drop)]
pub struct Listed {
    pub modalities: Seq<Text>,
    pub stations: Seq<Text>,
}

/// What the flow lists.
fn listed_by(alloc: Global, flow: &Flow) -> Result<Listed, AllocError>
    ensures { IfOk result (IsListedBy flow.now) }
{
    let modalities = set_of(alloc, literals_in(&flow.modalities))?;
    let stations = set_of(alloc, literals_in(&flow.stations))?;
    Ok(Listed {
        modalities,
        stations,
    })
}

/// What each of the flows lists, in their order. Of no flows it takes no memory.
pub(crate) fn all_listed(alloc: Global, flows: &[Flow]) -> Result<Seq<Listed>, AllocError>
    ensures listed { IfOk result (AreListedBy flows.now) }
    ensures memory { OnErr result (flows.now ≢ []) }
{
    let mut all = Vec::new(alloc);
    for flow in flows {
        all.push(listed_by(alloc, flow)?)?;
    }
    Ok(Seq::from_vec(all))
}
