//! What an acceptor answers to a request.
ghost use Rattle.std.specs.Prelude.{◌≡◌, ◌++◌, IfOk, OnOk, map};
ghost use Rattle.dr_nego.specs.Agreeing.{pair_of};
ghost use Rattle.dr_site.specs.Sites.{IsSite};
ghost use Rattle.dr_nego.specs.Answering.{answer, answer_of, refusal, pairs_of, acceptance_of};
ghost use Rattle.dr_nego.specs.Answering.{agreed_by};

use crate::agreed::{Agreed, Pair};
use crate::answering::{Answer, Policy};
use crate::choosing::{answer_of, is_stranger};
use crate::concluding::is_too_small;
use dr_base::{Seq, Text};
use dr_pdu::{AssociateAc, AssociateRq, ContextAnswer, ContextProposal, Front};
use dr_route::AcceptRow;
use dr_site::Site;
use std::alloc::{AllocError, Global};

/// The application context name of DICOM (PS3.7 A.2.1).
pub(crate) const APPLICATION_CONTEXT: &[u8] = b"1.2.840.10008.3.1.1.1";

/// How many associations a node has open at once.
const MOST_ASSOCIATIONS: usize = 256;

/// Why the request isn't accepted: the first of these reasons.
fn refusal(rq: &AssociateRq, site: &Site, others: usize) -> Option<Answer>
    ensures refusal { result ≡ refusal rq.now site.now others }
    ensures site { IsSite site.now }
{
    let rows = site.accepts();
    if rq.application.as_bytes() != APPLICATION_CONTEXT {
        return Some(Answer::Reject(1, 1, 2));
    }
    if rq.front.version % 2 == 0 {
        return Some(Answer::Reject(1, 2, 2));
    }
    if rq.front.called != *site.name() {
        return Some(Answer::Reject(1, 1, 7));
    }
    if is_stranger(rows, &rq.front.calling) {
        return Some(Answer::Reject(1, 1, 3));
    }
    if others >= MOST_ASSOCIATIONS {
        return Some(Answer::Reject(2, 3, 2));
    }
    if is_too_small(rq.max_pdu) {
        return Some(Answer::TooSmall);
    }
    None
}

/// Adds the context's pair, where it is accepted.
pub fn add_pair(
    pairs: &mut Seq<Pair>,
    proposal: &ContextProposal,
    answer: &ContextAnswer,
) -> Result<(), AllocError>
    ensures { OnOk result (pairs.new ≡ pairs.old ++ pair_of proposal.now answer.now) }
{
    if answer.result != 0 {
        return Ok(());
    }
    pairs.push(Pair {
        id: proposal.id,
        class: proposal.class.clone()?,
        syntax: answer.syntax.clone()?,
    })?;
    Ok(())
}

/// What the caller is answered for each context, and the pairs of those that are accepted.
fn answers_of(
    alloc: Global,
    rows: &[AcceptRow],
    caller: &Text,
    proposals: &[ContextProposal],
) -> Result<(Seq<ContextAnswer>, Seq<Pair>), AllocError>
    ensures answers { IfOk result (λ both.
        both.0 ≡ map (answer_of rows.now caller.now) proposals.now) }
    ensures pairs { IfOk result (λ both. both.1 ≡ pairs_of rows.now caller.now proposals.now) }
{
    let mut answers = Seq::new(alloc);
    let mut pairs = Seq::new(alloc);
    for proposal in proposals {
        let answer = answer_of(alloc, rows, caller, proposal)?;
        add_pair(&mut pairs, proposal, &answer)?;
        answers.push(answer)?;
    }
    Ok((answers, pairs))
}

/// What stands in front of an acceptance: the request's titles and its reserved bytes, and
/// version 1.
fn front_of(rq: &AssociateRq) -> Result<Front, AllocError>
    ensures { IfOk result (λ f. f
        ≡ record {
          version = 1;
          called = rq.now.front.called;
          calling = rq.now.front.calling;
          reserved = rq.now.front.reserved;
        }) }
{
    Ok(Front {
        version: 1,
        called: rq.front.called.clone()?,
        calling: rq.front.calling.clone()?,
        reserved: rq.front.reserved.clone()?,
    })
}

/// The acceptance of a request, whatever speaks against it.
fn acceptance(
    alloc: Global,
    rq: &AssociateRq,
    site: &Site,
) -> Result<(AssociateAc, Agreed), AllocError>
    ensures ac { IfOk result (λ both. both.0 ≡ acceptance_of rq.now site.now) }
    ensures site { IsSite site.now }
    ensures agreed { IfOk result (λ both. both.1 ≡ agreed_by rq.now site.now) }
{
    let (contexts, pairs) = answers_of(
        alloc,
        site.accepts(),
        &rq.front.calling,
        rq.contexts.as_slice(),
    )?;
    let ac = AssociateAc {
        front: front_of(rq)?,
        application: Text::copy_of(alloc, APPLICATION_CONTEXT)?,
        contexts,
        max_pdu: site.max_pdu(),
    };
    let agreed = Agreed {
        pairs,
        limit: rq.max_pdu,
    };
    Ok((ac, agreed))
}

/// What a request is answered where so many other associations are open (PS3.8 7.1.1 and 9.3.4).
/// The tests, in their order: the application context (rejected as 1, 1, 2), the protocol version
/// (1, 2, 2), the called title (1, 1, 7), the calling title, of which some accept row must speak
/// (1, 1, 3), fewer than 256 others (2, 3, 2), and a greatest length that a fragment fits
/// (TooSmall).
///
/// Of the contexts, Verification is accepted for everybody, in the implicit syntax or else the
/// explicit one; another class by the accept rows for the caller and the class, in the plan's
/// order, in the first of their syntaxes that was proposed. A class without such a row is refused
/// by 3, one without such a syntax by 4.
pub fn answer(
    alloc: Global,
    rq: &AssociateRq,
    policy: &Policy<'_>,
    others: usize,
) -> Result<Answer, AllocError>
    ensures answer { IfOk result (λ a. a ≡ answer rq.now policy.now.site.now others) }
    ensures site { IsSite policy.now.site.now }
{
    let site = policy.site;
    if let Some(refused) = refusal(rq, site, others) {
        return Ok(refused);
    }
    let (ac, agreed) = acceptance(alloc, rq, site)?;
    Ok(Answer::Accept(ac, agreed))
}
