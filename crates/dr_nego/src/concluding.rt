//! What a caller concludes from an acceptance.
ghost use Rattle.std.specs.Prelude.{◌≡◌, ◌&&◌, ◌++◌, IfOk, OnOk, nat_le, option_copied};
ghost use Rattle.std.specs.List.{list_any, flat_map};
ghost use Rattle.dr_nego.specs.Agreeing.{Concludes, answer_to, pair_if};
ghost use Rattle.dr_nego.specs.Tests.{is_proposed_id, has_strange_id, is_proposed_with};
ghost use Rattle.dr_nego.specs.Tests.{is_strange_syntax, has_strange_syntax};

use crate::acceptor::add_pair;
use crate::agreed::{Agreed, Pair};
use crate::choosing::is_member;
use crate::fault::NegoFault;
use dr_base::Seq;
use dr_pdu::{AssociateAc, AssociateRq, ContextAnswer, ContextProposal};
use std::alloc::{AllocError, Global};

/// Whether a greatest length of this many bytes fits no fragment (PS3.8 annex D.1); 0 is no limit.
pub fn is_too_small(limit: u32) -> bool
    ensures { result ≡ (nat_le 1 limit && nat_le limit 7) }
{
    limit >= 1 && limit <= 7
}

/// Whether a context of that id was proposed.
fn is_proposed_id(contexts: &[ContextProposal], id: u8) -> bool
    ensures { result ≡ is_proposed_id contexts.now id }
{
    contexts.iter().any(|context| context.id == id)
}

/// Whether some answered context wasn't proposed.
fn has_strange_id(contexts: &[ContextProposal], answers: &[ContextAnswer]) -> bool
    ensures { result ≡ has_strange_id contexts.now answers.now }
{
    answers
        .iter()
        .any(|answer| !is_proposed_id(contexts, answer.id))
}

/// Whether the answer's transfer syntax was proposed in its context.
fn is_proposed_with(contexts: &[ContextProposal], answer: &ContextAnswer) -> bool
    ensures { result ≡ is_proposed_with contexts.now answer.now }
{
    contexts.iter().any(|context| {
        context.id == answer.id && is_member(answer.syntax.as_bytes(), context.syntaxes.as_slice())
    })
}

/// Whether the answer accepts a transfer syntax that wasn't proposed in its context.
fn is_strange_syntax(contexts: &[ContextProposal], answer: &ContextAnswer) -> bool
    ensures { result ≡ is_strange_syntax contexts.now answer.now }
{
    if answer.result != 0 {
        return false;
    }
    !is_proposed_with(contexts, answer)
}

/// Whether some answer does.
fn has_strange_syntax(contexts: &[ContextProposal], answers: &[ContextAnswer]) -> bool
    ensures { result ≡ has_strange_syntax contexts.now answers.now }
{
    answers
        .iter()
        .any(|answer| is_strange_syntax(contexts, answer))
}

/// The answer to the context.
fn answer_to<'a>(
    answers: &'a [ContextAnswer],
    context: &ContextProposal,
) -> Option<&'a ContextAnswer>
    ensures { option_copied result ≡ answer_to answers.now context.now }
{
    answers.iter().find(|answer| answer.id == context.id)
}

/// Adds the context's pair, where it is accepted.
fn add_agreed(
    pairs: &mut Seq<Pair>,
    context: &ContextProposal,
    answers: &[ContextAnswer],
) -> Result<(), AllocError>
    ensures { OnOk result
        (pairs.new ≡ pairs.old ++ pair_if context.now (answer_to answers.now context.now)) }
{
    let Some(answer) = answer_to(answers, context) else {
        return Ok(());
    };
    add_pair(pairs, context, answer)?;
    Ok(())
}

/// The pairs of the accepted contexts, in the order of the request.
fn agreed_pairs(
    alloc: Global,
    contexts: &[ContextProposal],
    answers: &[ContextAnswer],
) -> Result<Seq<Pair>, AllocError>
    ensures { IfOk result (λ s.
        s ≡ flat_map (λ c. pair_if c (answer_to answers.now c)) contexts.now) }
{
    let mut pairs = Seq::new(alloc);
    for context in contexts {
        add_agreed(&mut pairs, context, answers)?;
    }
    Ok(pairs)
}

/// What the caller concludes from the answer to its request (PS3.8 7.1.1.14): the contexts that
/// were accepted, in the order of the request, and the greatest length that the other side takes.
///
/// Errors, each over the whole acceptance before the next: StrangeId where a context is answered
/// that wasn't proposed; StrangeSyntax where one is accepted with a transfer syntax that wasn't
/// proposed in it; LimitTooSmall for a greatest length of 1 to 7; Memory.
pub fn conclude(alloc: Global, rq: &AssociateRq, ac: &AssociateAc) -> Result<Agreed, NegoFault>
    ensures { Concludes rq.now ac.now result }
{
    let contexts = rq.contexts.as_slice();
    let answers = ac.contexts.as_slice();
    if has_strange_id(contexts, answers) {
        return Err(NegoFault::StrangeId);
    }
    if has_strange_syntax(contexts, answers) {
        return Err(NegoFault::StrangeSyntax);
    }
    if is_too_small(ac.max_pdu) {
        return Err(NegoFault::LimitTooSmall);
    }
    let pairs = agreed_pairs(alloc, contexts, answers)?;
    Ok(Agreed {
        pairs,
        limit: ac.max_pdu,
    })
}
