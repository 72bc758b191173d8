//! What an association was asked for and how that was answered, as the PDUs on its link show it.
use crate::ahead::Ahead;
use crate::gate::Gate;
use dr_pdu::{AssociateRq, Pdu, decode};
use dr_session::Heard;
use std::alloc::Global;

/// The request that came first, if it is one that can be read.
pub fn request_in(alloc: Global, ahead: &Ahead) -> Option<AssociateRq> {
    let Some(Heard::Bytes(text)) = &ahead.first else {
        return None;
    };
    match decode(alloc, text.as_bytes(), 0) {
        Ok((Pdu::AssociateRq(request), _)) => Some(request),
        _ => None,
    }
}

/// Tells the gate how a request was answered: by an acceptance, or by anything else.
pub fn tell_answer<G: Gate>(
    alloc: Global,
    gate: &G,
    session: u64,
    request: Option<AssociateRq>,
    bytes: &[u8],
) {
    let Some(request) = request else {
        return;
    };
    match decode(alloc, bytes, 0) {
        Ok((Pdu::AssociateAc(answer), _)) => gate.asked(session, &request, Some(&answer)),
        _ => gate.asked(session, &request, None),
    }
}
