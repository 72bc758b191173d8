//! What comes of an echo from one node of a plan to another.
ghost use Rattle.std.specs.Prelude.{◌≡◌, IfOk, MatchOption};
ghost use Rattle.dr_plan_model.specs.Formed.{IsName};
ghost use Rattle.dr_plan_model.specs.Plans.{IsTheNode, NamesNoNode};
ghost use Rattle.dr_session.specs.Links.{EchoesAs};
ghost use Rattle.dr_word_echo.specs.Outcomes.{IsAskedAt, IsOutcomeOf, TellsOf, status_for};

use dr_base::Text;
use dr_plan_model::{Node, Plan};
use dr_run_net::Network;
use dr_run_open::Status;
use dr_session::{Clock, Echoed, Link, SessionFault, echo};
use std::alloc::{AllocError, Global};
use std::io;

/// What comes of an echo from one node of a plan to another.
#[derive(Drop)]
pub enum EchoOutcome {
    /// How the association ended, with the status of the response, if one came.
    Answered(Echoed),
    /// One of the two is no node of the plan.
    NoNode,
    /// The other node listens nowhere.
    Nowhere,
    /// The other node's address can't be reached.
    Unreached(io::Error),
    /// Why the session didn't end as an association does.
    Failed(SessionFault),
    /// There was no memory.
    Memory,
}

impl EchoOutcome {
    /// The status with which the program ends, where the outcome is told: success for an echo whose
    /// status is 0000H alone.
    pub fn status(&self) -> Status
        ensures { result ≡ status_for self.now }
    {
        match self {
            EchoOutcome::Answered(echoed) => match echoed.status {
                Some(0) => Status::Success,
                _ => Status::Refused,
            },
            EchoOutcome::NoNode => Status::Refused,
            EchoOutcome::Nowhere => Status::Refused,
            EchoOutcome::Unreached(_) => Status::InputOutput,
            EchoOutcome::Failed(_) => Status::InputOutput,
            EchoOutcome::Memory => Status::Memory,
        }
    }
}

/// The node of that name, and None for a stranger.
fn known_node<'a>(plan: &'a Plan, name: &Text) -> Option<&'a Node>
    ensures node { MatchOption result (NamesNoNode plan.now name.now) (λ node.
        IsTheNode plan.now name.now node.now) }
    ensures name { MatchOption result (Unit {0}) (λ node. IsName name.now) }
{
    let _nodes = plan.nodes();
    plan.node(name)
}

/// What a session over a link comes to.
fn answer<L: Link, C: Clock>(
    alloc: Global,
    link: &mut L,
    caller: &Text,
    called: &Text,
    clock: &C,
) -> EchoOutcome
    requires caller { IsName caller.now }
    requires called { IsName called.now }
    ensures { TellsOf
        (λ came. EchoesAs L.hears L.sends L.closes (C.tells clock.now) caller.now called.now came
        link.old link.new) result }
{
    match echo(alloc, link, caller, called, clock) {
        Ok(echoed) => EchoOutcome::Answered(echoed),
        Err(SessionFault::Memory) => EchoOutcome::Memory,
        Err(fault) => EchoOutcome::Failed(fault),
    }
}

/// Asks the node at that address.
fn ask<N: Network, C: Clock>(
    alloc: Global,
    caller: &Text,
    called: &Text,
    address: &Text,
    network: &N,
    clock: &C,
) -> EchoOutcome
    requires caller { IsName caller.now }
    requires called { IsName called.now }
    ensures { IsAskedAt (N.connects network.now) N.Socket.hears N.Socket.sends N.Socket.closes
        (C.tells clock.now) caller.now called.now address.now result }
{
    let mut link = match network.connect(alloc, address) {
        Ok(link) => link,
        Err(error) => {
            if error.kind() == io::ErrorKind::OutOfMemory {
                return EchoOutcome::Memory;
            }
            return EchoOutcome::Unreached(error);
        }
    };
    answer(alloc, &mut link, caller, called, clock)
}

/// What comes of an echo between nodes of these names.
fn outcome_between<N: Network, C: Clock>(
    alloc: Global,
    plan: &Plan,
    caller: &Text,
    called: &Text,
    network: &N,
    clock: &C,
) -> EchoOutcome
    ensures { IsOutcomeOf (N.connects network.now) N.Socket.hears N.Socket.sends N.Socket.closes
        (C.tells clock.now) plan.now caller.now called.now result }
{
    let Some(_known) = known_node(plan, caller) else {
        return EchoOutcome::NoNode;
    };
    let Some(node) = known_node(plan, called) else {
        return EchoOutcome::NoNode;
    };
    let Some(address) = node.listens.address() else {
        return EchoOutcome::Nowhere;
    };
    ask(alloc, caller, called, address, network, clock)
}

/// What comes of an echo from the node of the first name to that of the second.
pub fn outcome_of<N: Network, C: Clock>(
    alloc: Global,
    plan: &Plan,
    caller: &str,
    called: &str,
    network: &N,
    clock: &C,
) -> EchoOutcome
    ensures { IsOutcomeOf (N.connects network.now) N.Socket.hears N.Socket.sends N.Socket.closes
        (C.tells clock.now) plan.now caller.now called.now result }
{
    let Ok(caller) = Text::copy_of(alloc, caller.as_bytes()) else {
        return EchoOutcome::Memory;
    };
    let Ok(called) = Text::copy_of(alloc, called.as_bytes()) else {
        return EchoOutcome::Memory;
    };
    outcome_between(alloc, plan, &caller, &called, network, clock)
}
