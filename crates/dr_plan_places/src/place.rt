//! Where a fault stands in a plan.
ghost use Rattle.std.specs.Prelude.{◌≡◌, MatchOption, Err};
ghost use Rattle.dr_plan_model.specs.Formed.{IsName};
ghost use Rattle.dr_plan_core.specs.Reading.{Passes};
ghost use Rattle.dr_plan_core.specs.declared.fault.PlanFault.TheVariants.{Memory};
ghost use Rattle.dr_plan_places.specs.Placed.{IsPlaceIn, fault_at};

use crate::first::TextTest;
use crate::flaws::name_flaw;
use crate::limits::{LimitPlace, limit_in};
use crate::names::{NamePlace, name_in};
use crate::nodes::{AmongNodes, twins_in};
use crate::own::{OwnPlace, own_in};
use crate::syntaxes::{SyntaxPlace, syntax_in};
use dr_base::Text;
use dr_plan::PlanFault;
use dr_plan_text::PlanText;

/// Where a fault stands in a plan; all indices count from 0.
#[derive(Clone, Copy, PartialEq, Eq)]
pub enum Place {
    /// A transfer syntax that isn't routed.
    Syntax(SyntaxPlace),
    /// A name that isn't well-formed.
    Name(NamePlace),
    /// Two nodes of one name.
    Twins(usize, usize),
    /// A limit that isn't kept.
    Limit(LimitPlace),
    /// A name that is no node's.
    Unknown(NamePlace),
    /// A rule or a flow to its own node.
    Own(OwnPlace),
}

/// A name is well-formed.
#[derive(Drop)]
struct WellFormed;

impl TextTest for WellFormed {
    ghost holds = { λ _ name. IsName name };

    fn test(&self, name: &Text) -> bool {
        match name_flaw(name.as_bytes()) {
            Some(_) => false,
            None => true,
        }
    }
}

/// Where the plan has an ill-formed name, or two nodes of one name.
fn name_place(plan: &PlanText) -> Option<Place>
    requires { Passes plan.now (Err PlanFault.Name) }
    ensures { MatchOption result ⊥ (λ place.
        IsPlaceIn plan.now place × (fault_at place ≡ PlanFault.Name)) }
{
    if let Some(at) = name_in(&WellFormed, plan) {
        return Some(Place::Name(at));
    }
    match twins_in(plan.nodes.as_slice()) {
        Some((first, second)) => Some(Place::Twins(first, second)),
        None => None,
    }
}

/// Where the plan has a name that is no node's.
fn unknown_place(plan: &PlanText) -> Option<Place>
    requires { Passes plan.now (Err PlanFault.UnknownNode) }
    ensures { MatchOption result ⊥ (λ place.
        IsPlaceIn plan.now place × (fault_at place ≡ PlanFault.UnknownNode)) }
{
    match name_in(&AmongNodes(plan), plan) {
        Some(at) => Some(Place::Unknown(at)),
        None => None,
    }
}

/// Where the plan has a transfer syntax that isn't routed.
fn syntax_place(plan: &PlanText) -> Option<Place>
    requires { Passes plan.now (Err PlanFault.Syntax) }
    ensures { MatchOption result ⊥ (λ place.
        IsPlaceIn plan.now place × (fault_at place ≡ PlanFault.Syntax)) }
{
    match syntax_in(plan) {
        Some(at) => Some(Place::Syntax(at)),
        None => None,
    }
}

/// Where the plan has a rule or a flow to its own node.
fn own_place(plan: &PlanText) -> Option<Place>
    requires { Passes plan.now (Err PlanFault.SelfRoute) }
    ensures { MatchOption result ⊥ (λ place.
        IsPlaceIn plan.now place × (fault_at place ≡ PlanFault.SelfRoute)) }
{
    match own_in(plan) {
        Some(at) => Some(Place::Own(at)),
        None => None,
    }
}

/// Where the plan's first fault stands: at the first place that shows it. Want of memory has none.
pub fn place_of(plan: &PlanText, fault: PlanFault) -> Option<Place>
    requires { Passes plan.now (Err fault) }
    ensures { MatchOption result (fault ≡ Memory) (λ place.
        IsPlaceIn plan.now place × (fault_at place ≡ fault)) }
{
    match fault {
        PlanFault::Syntax => syntax_place(plan),
        PlanFault::Name => name_place(plan),
        PlanFault::Limit => Some(Place::Limit(limit_in(plan))),
        PlanFault::UnknownNode => unknown_place(plan),
        PlanFault::SelfRoute => own_place(plan),
        PlanFault::NotToml | PlanFault::Field | PlanFault::UnknownName => unreachable!(),
        PlanFault::Memory => None,
    }
}
