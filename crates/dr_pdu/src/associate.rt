//! The bodies of A-ASSOCIATE-RQ and A-ASSOCIATE-AC.
ghost use Rattle.std.specs.Prelude.{◌≡◌, ◌^◌, ◌<◌, Bool, false, ℕ, List, length, IfOk};
ghost use Rattle.std.specs.Option.{SomeIff};
ghost use Rattle.dr_pdu.specs.Fitting.{ProposalFits, AnswerFits};
ghost use Rattle.dr_pdu.specs.Written.{proposal_body, answer_body};
ghost use Rattle.dr_pdu.specs.Grammar.{IsProposal, IsAnswer, IsGreatestLength, IsAssociation};
ghost use Rattle.dr_base.specs.Lists.{Each};
ghost use Rattle.dr_pdu.specs.Grammar.{IsFront};
ghost use Rattle.dr_pdu.specs.Items.{bodies, first_body};
ghost use Rattle.dr_pdu.specs.Reads.{Reads, items};
ghost use Rattle.dr_pdu.specs.declared.pdu.Front.{Front as FrontText};

use crate::contexts::{answer_bytes, answer_len, proposal_bytes, proposal_len};
use crate::fault::PduFault;
use crate::items::{PduItem, first, items_of, uids};
use crate::pdu::{Association, ContextAnswer, ContextProposal, Front};
use dr_base::padding::{trimmed, unpadded};
use dr_base::{Seq, Text};
use std::alloc::{AllocError, Global};

/// A presentation context of an association PDU.
pub trait Context: Drop {
    /// Whether the body of an item is this context.
    ghost is_context: { List ℕ → Self → Type 0 };

    /// Its id.
    ghost id_of: { Self → ℕ };

    /// Whether an item can be this context.
    ghost context_fits: { Self → Type 0 };

    /// The body of its item, in full or without what nobody needs.
    ghost body_text: { Bool → Self → List ℕ };

    /// Its id.
    fn id(&self) -> u8
        ensures { result ≡ id_of self.now };

    /// The context that the body of an item is.
    fn read(alloc: Global, body: &[u8]) -> Result<Self, PduFault>
    where
        Self: Sized,
        ensures { Reads (λ c. c) result (is_context body.now) };

    /// The body of its item, in full or without what nobody needs.
    fn body(&self, alloc: Global, full: bool) -> Result<Vec<u8>, AllocError>
        requires { context_fits self.now }
        ensures { IfOk result (λ bytes.
            (bytes.items ≡ body_text full self.now) × (length bytes.items < 2 ^ 16)) };

    /// The length of the bare body, if an item can be this context.
    fn bare_len(&self) -> Option<usize>
        ensures { SomeIff result (context_fits self.now) (length (body_text false self.now)) };
}

impl Context for ContextProposal {
    ghost is_context = { IsProposal };

    ghost id_of = { λ c. c.id };

    ghost context_fits = { ProposalFits };

    ghost body_text = { λ full c. proposal_body c };

    fn id(&self) -> u8 {
        self.id
    }

    fn read(alloc: Global, body: &[u8]) -> Result<ContextProposal, PduFault> {
        proposal_of(alloc, body)
    }

    fn body(&self, alloc: Global, _full: bool) -> Result<Vec<u8>, AllocError> {
        proposal_bytes(alloc, self)
    }

    fn bare_len(&self) -> Option<usize> {
        proposal_len(self)
    }
}

impl Context for ContextAnswer {
    ghost is_context = { IsAnswer };

    ghost id_of = { λ c. c.id };

    ghost context_fits = { AnswerFits };

    ghost body_text = { answer_body };

    fn id(&self) -> u8 {
        self.id
    }

    fn read(alloc: Global, body: &[u8]) -> Result<ContextAnswer, PduFault> {
        answer_of(alloc, body)
    }

    fn body(&self, alloc: Global, full: bool) -> Result<Vec<u8>, AllocError> {
        answer_bytes(alloc, full, self)
    }

    fn bare_len(&self) -> Option<usize> {
        answer_len(self)
    }
}

fn proposal_of(alloc: Global, body: &[u8]) -> Result<ContextProposal, PduFault>
    ensures { Reads (λ c. c) result (IsProposal body.now) }
{
    let [id, _, _, _, text @ ..] = body else {
        return Err(PduFault::BadItem);
    };
    let found = items_of(alloc, text)?;
    let Some(class) = first(&found, 0x30) else {
        return Err(PduFault::BadItem);
    };
    let class = Text::copy_of(alloc, unpadded(class))?;
    let syntaxes = uids(alloc, &found, 0x40)?;
    if syntaxes.is_empty() {
        return Err(PduFault::BadItem);
    }
    Ok(ContextProposal {
        id: *id,
        class,
        syntaxes,
    })
}

fn answer_of(alloc: Global, body: &[u8]) -> Result<ContextAnswer, PduFault>
    ensures { Reads (λ c. c) result (IsAnswer body.now) }
{
    let [id, _, outcome, _, text @ ..] = body else {
        return Err(PduFault::BadItem);
    };
    let found = items_of(alloc, text)?;
    if *outcome != 0 {
        return Ok(ContextAnswer {
            id: *id,
            result: *outcome,
            syntax: Text::empty(alloc),
        });
    }
    let Some(syntax) = first(&found, 0x40) else {
        return Err(PduFault::BadItem);
    };
    let syntax = Text::copy_of(alloc, unpadded(syntax))?;
    Ok(ContextAnswer {
        id: *id,
        result: *outcome,
        syntax,
    })
}

/// The contexts of an association PDU, whose items are of that type, in order.
fn contexts_of<C: Context>(
    alloc: Global,
    found: &[PduItem<'_>],
    kind: u8,
) -> Result<Seq<C>, PduFault>
    ensures { Reads (λ cs. cs) result (Each C.is_context (bodies kind (items found.now))) }
{
    let mut contexts = Vec::new(alloc);
    for item in found {
        if item.kind != kind {
            continue;
        }
        contexts.push(C::read(alloc, item.body)?)?;
    }
    Ok(Seq::from_vec(contexts))
}

/// The greatest length that the user information gives, 0 where it gives none.
fn greatest_length_of(alloc: Global, found: &[PduItem<'_>]) -> Result<u32, PduFault>
    ensures { Reads (λ n. n) result (IsGreatestLength (first_body 0x50 (items found.now))) }
{
    let Some(body) = first(found, 0x50) else {
        return Ok(0);
    };
    let inside = items_of(alloc, body)?;
    let Some(length) = first(&inside, 0x51) else {
        return Ok(0);
    };
    if length.len() != 4 {
        return Err(PduFault::BadItem);
    }
    Ok(u32::from_be_bytes([length[0], length[1], length[2], length[3]]))
}

/// The version and the titles, and the text of the items.
fn front_of(alloc: Global, body: &[u8]) -> Result<(Front, &[u8]), PduFault>
    ensures { Reads {Y = FrontText × List ℕ}
        (λ x. (x.0, x.1.now)) result
        (λ x. IsFront body.now x.0 x.1) }
{
    let [high, low, _, _, text @ ..] = body else {
        return Err(PduFault::BadItem);
    };
    if text.len() < 64 {
        return Err(PduFault::BadItem);
    }
    let (called, text) = text.split_at(16);
    let (calling, text) = text.split_at(16);
    let (reserved, text) = text.split_at(32);
    let front = Front {
        version: u16::from_be_bytes([*high, *low]),
        called: Text::copy_of(alloc, trimmed(called))?,
        calling: Text::copy_of(alloc, trimmed(calling))?,
        reserved: Text::copy_of(alloc, reserved)?,
    };
    Ok((front, text))
}

/// The body of an association PDU, but for what its context ids have to meet.
pub fn association_of<C: Context>(
    alloc: Global,
    kind: u8,
    body: &[u8],
) -> Result<Association<C>, PduFault>
    ensures { Reads (λ x. x) result (IsAssociation kind C.is_context body.now) }
{
    let (front, text) = front_of(alloc, body)?;
    let found = items_of(alloc, text)?;
    let Some(application) = first(&found, 0x10) else {
        return Err(PduFault::BadItem);
    };
    let application = Text::copy_of(alloc, unpadded(application))?;
    let contexts = contexts_of(alloc, &found, kind)?;
    let max_pdu = greatest_length_of(alloc, &found)?;
    Ok(Association {
        front,
        application,
        contexts,
        max_pdu,
    })
}
