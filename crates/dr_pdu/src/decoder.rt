//! The PDU in front of a text.
ghost use Rattle.std.specs.Prelude.{◌≡◌, IsTrue, ◌↔◌, map, Contains};
ghost use Rattle.dr_pdu.specs.Grammar.{header_fault, IsBody, HasContextIds, AreContextIds, Decodes};
ghost use Rattle.dr_pdu.specs.Reads.{Reads};

use crate::associate::{Context, association_of};
use crate::fault::PduFault;
use crate::pdu::{Abort, AssociateRj, Pdu};
use crate::pdvs::pdvs_of;
use std::alloc::Global;

/// The greatest length field of an association PDU, in bytes.
pub const GREATEST_ASSOCIATION: u32 = 262_144;

/// The least one: what stands in front of the items.
const LEAST_ASSOCIATION: u32 = 68;

/// The greatest length field of a P-DATA-TF where the limit is 0, in bytes.
pub const GREATEST_TRANSFER: u32 = 134_217_728;

/// The PDU in front of a text, and the length of its spelling in bytes. `limit` bounds the length
/// field of a P-DATA-TF; 0 stands for 134,217,728.
///
/// `More` where the text ends before the PDU does; `UnknownType`, `TooLong` and a length field of a
/// wrong form as soon as the 6 bytes of the header are there; `BadItem` and then `BadContextId`
/// once the body is whole; `Memory` last.
pub fn decode(alloc: Global, text: &[u8], limit: u32) -> Result<(Pdu, usize), PduFault>
    ensures { Decodes limit text.now result }
{
    let [kind, _, a, b, c, d, rest @ ..] = text else {
        return Err(PduFault::More);
    };
    let len = u32::from_be_bytes([*a, *b, *c, *d]);
    if let Some(fault) = fault_of_header(limit, *kind, len) {
        return Err(fault);
    }
    let len = len as usize;
    if rest.len() < len {
        return Err(PduFault::More);
    }
    let (body, _) = rest.split_at(len);
    let pdu = body_of(alloc, *kind, body)?;
    if !has_context_ids(&pdu) {
        return Err(PduFault::BadContextId);
    }
    Ok((pdu, len + 6))
}

/// What the type and the length field show at once.
fn fault_of_header(limit: u32, kind: u8, len: u32) -> Option<PduFault>
    ensures { result ≡ header_fault limit kind len }
{
    match kind {
        1 | 2 if len > GREATEST_ASSOCIATION => Some(PduFault::TooLong),
        1 | 2 if len < LEAST_ASSOCIATION => Some(PduFault::BadItem),
        1 | 2 => None,
        4 => {
            let greatest = if limit == 0 { GREATEST_TRANSFER } else { limit };
            if len > greatest {
                Some(PduFault::TooLong)
            } else {
                None
            }
        }
        3 | 5 | 6 | 7 if len == 4 => None,
        3 | 5 | 6 | 7 => Some(PduFault::BadItem),
        _ => Some(PduFault::UnknownType),
    }
}

/// The PDU of a whole body, but for what its context ids have to meet.
fn body_of(alloc: Global, kind: u8, body: &[u8]) -> Result<Pdu, PduFault>
    ensures { Reads (λ p. p) result (IsBody kind body.now) }
{
    match (kind, body) {
        (1, _) => Ok(Pdu::AssociateRq(association_of(alloc, 0x20, body)?)),
        (2, _) => Ok(Pdu::AssociateAc(association_of(alloc, 0x21, body)?)),
        (3, [_, result, source, reason]) => Ok(Pdu::AssociateRj(AssociateRj {
            result: *result,
            source: *source,
            reason: *reason,
        })),
        (4, _) => Ok(Pdu::Transfer(pdvs_of(alloc, body)?)),
        (5, [_, _, _, _]) => Ok(Pdu::ReleaseRq),
        (6, [_, _, _, _]) => Ok(Pdu::ReleaseRp),
        (7, [_, _, source, reason]) => Ok(Pdu::Abort(Abort {
            source: *source,
            reason: *reason,
        })),
        _ => Err(PduFault::BadItem),
    }
}

/// Whether the ids of the contexts are odd, and no two are alike.
fn has_context_ids(pdu: &Pdu) -> bool
    ensures { IsTrue result ↔ HasContextIds pdu.now }
{
    match pdu {
        Pdu::AssociateRq(rq) => are_context_ids(rq.contexts.as_slice()),
        Pdu::AssociateAc(ac) => are_context_ids(ac.contexts.as_slice()),
        _ => true,
    }
}

/// Whether the ids are odd, and no two are alike. There are 128 odd ids, so the loop has 129 rounds
/// at most.
pub fn are_context_ids<C: Context>(contexts: &[C]) -> bool
    ensures { IsTrue result ↔ AreContextIds (map C.id_of contexts.now) }
{
    for (i, context) in contexts.iter().enumerate() {
        let id = context.id();
        if id % 2 == 0 {
            return false;
        }
        if is_among(id, &contexts[i + 1..]) {
            return false;
        }
    }
    true
}

fn is_among<C: Context>(id: u8, contexts: &[C]) -> bool
    ensures { IsTrue result ↔ Contains (map C.id_of contexts.now) id }
{
    for context in contexts {
        if context.id() == id {
            return true;
        }
    }
    false
}
