//! What a caller proposes.
ghost use Rattle.std.specs.Prelude.{◌≡◌, IfOk, Ok, map, replicate, ◌∷◌, []};
ghost use Rattle.dr_base.specs.Syntaxes.{syntax_uid};
ghost use Rattle.dr_pdu.specs.declared.pdu.Pdu.TheVariants.{AssociateRq};
ghost use Rattle.dr_pdu.specs.Written.{Fits};
ghost use Rattle.dr_plan_sound.specs.declared.certificate.Hop.{Hop as HopValue};
ghost use Rattle.dr_nego.specs.Proposing.{IsHopTo, Proposes, context_of, echo_proposal};

use crate::acceptor::APPLICATION_CONTEXT;
use crate::choosing::VERIFICATION;
use crate::fault::NegoFault;
use dr_base::{Seq, Syntax, Text};
use dr_pdu::{AssociateRq, ContextProposal, Front};
use dr_plan_sound::Hop;
use dr_site::Site;
use std::alloc::{AllocError, Global};

/// The greatest length, in bytes, that the caller of an echo takes.
const ECHO_LIMIT: u32 = 16_384;

/// What stands in front of a request: version 1, the titles, and reserved bytes of 0.
fn front(alloc: Global, calling: &Text, called: &Text) -> Result<Front, AllocError>
    ensures { IfOk result (λ f. f
        ≡ record {
          version = 1;
          called = called.now;
          calling = calling.now;
          reserved = replicate 32 0;
        }) }
{
    Ok(Front {
        version: 1,
        called: called.clone()?,
        calling: calling.clone()?,
        reserved: Text::copy_of(alloc, &[0; 32])?,
    })
}

/// A context of the class in that transfer syntax.
fn context(
    alloc: Global,
    id: u8,
    class: Text,
    syntax: Syntax,
) -> Result<ContextProposal, AllocError>
    ensures { IfOk result (λ c.
        c ≡ record { id = id; class = class; syntaxes = syntax_uid syntax ∷ [] }) }
{
    let mut syntaxes = Seq::new(alloc);
    syntaxes.push(Text::copy_of(alloc, syntax.uid())?)?;
    Ok(ContextProposal {
        id,
        class,
        syntaxes,
    })
}

/// The context of a numbered pair.
fn context_of(alloc: Global, hop: &Hop) -> Result<ContextProposal, AllocError>
    ensures { IfOk result (λ c. c ≡ context_of hop.now) }
{
    let class = hop.class.clone()?;
    let context = context(alloc, hop.id, class, hop.syntax)?;
    Ok(context)
}

/// The contexts of the pairs, in their order.
fn contexts_of(alloc: Global, hops: &[Hop]) -> Result<Seq<ContextProposal>, AllocError>
    ensures { IfOk result (λ s. s ≡ map context_of hops.now) }
{
    let mut contexts = Seq::new(alloc);
    for hop in hops {
        contexts.push(context_of(alloc, hop)?)?;
    }
    Ok(contexts)
}

/// What the site's node proposes to that node: a context with one transfer syntax for each pair of
/// the hop, by their ids 1, 3, 5 and so on. Its title is the calling one (PS3.8 9.3.2).
///
/// Errors: NoHop where the site has no hop to that node, whatever memory there is; Memory.
pub fn propose(alloc: Global, site: &Site, dest: &Text) -> Result<AssociateRq, NegoFault>
    ensures proposes { Proposes site.now dest.now result }
    ensures fits { IfOk result (λ rq. Fits (AssociateRq rq)) }
{
    if !site.has_hop(dest) {
        return Err(NegoFault::NoHop);
    }
    let proposal = propose_hop(alloc, site, dest)?;
    Ok(proposal)
}

/// The same, over a hop that the site has.
fn propose_hop(alloc: Global, site: &Site, dest: &Text) -> Result<AssociateRq, AllocError>
    requires { (hop : HopValue) × IsHopTo site.now dest.now hop }
    ensures proposes { IfOk result (λ rq. Proposes site.now dest.now (Ok rq)) }
    ensures fits { IfOk result (λ rq. Fits (AssociateRq rq)) }
{
    let hops = site.hops_to(alloc, dest)?;
    let contexts = contexts_of(alloc, hops.as_slice())?;
    Ok(AssociateRq {
        front: front(alloc, site.name(), dest)?,
        application: Text::copy_of(alloc, APPLICATION_CONTEXT)?,
        contexts,
        max_pdu: site.max_pdu(),
    })
}

/// What a caller of that title proposes for an echo: Verification in context 1, in the implicit
/// syntax alone, with a greatest length of 16,384 bytes.
pub fn propose_echo(alloc: Global, calling: &Text, called: &Text) -> Result<AssociateRq, AllocError>
    ensures { IfOk result (λ rq. rq ≡ echo_proposal calling.now called.now) }
{
    let class = Text::copy_of(alloc, VERIFICATION)?;
    let mut contexts = Seq::new(alloc);
    contexts.push(context(alloc, 1, class, Syntax::Implicit)?)?;
    Ok(AssociateRq {
        front: front(alloc, calling, called)?,
        application: Text::copy_of(alloc, APPLICATION_CONTEXT)?,
        contexts,
        max_pdu: ECHO_LIMIT,
    })
}
