//! The presentation data values of a P-DATA-TF: length (4), context id, message control header,
//! fragment.
ghost use Rattle.std.specs.Prelude.{[], ℕ, List};
ghost use Rattle.dr_base.specs.Runs.{Run};
ghost use Rattle.dr_pdu.specs.Items.{StartsPdv};
ghost use Rattle.dr_pdu.specs.Reads.{Reads};
ghost use Rattle.dr_pdu.specs.declared.pdu.Pdv.{Pdv as PdvText};

use crate::fault::PduFault;
use crate::pdu::Pdv;
use dr_base::{Seq, Text};
use std::alloc::Global;

/// The first PDV of a text that isn't empty, and what follows it.
fn pdv_at(alloc: Global, text: &[u8]) -> Result<(Pdv, &[u8]), PduFault>
    ensures { Reads {Y = PdvText × List ℕ}
        (λ x. (x.0, x.1.now)) result
        (λ x. StartsPdv text.now x.0 x.1) }
{
    let [a, b, c, d, rest @ ..] = text else {
        return Err(PduFault::BadItem);
    };
    let len = u32::from_be_bytes([*a, *b, *c, *d]) as usize;
    if len < 2 || rest.len() < len {
        return Err(PduFault::BadItem);
    }
    let (value, rest) = rest.split_at(len);
    let (id, header) = (value[0], value[1]);
    let fragment = Text::copy_of(alloc, &value[2..])?;
    Ok((
        Pdv {
            id,
            header,
            fragment,
        },
        rest,
    ))
}

/// The PDVs of a text, in order.
pub fn pdvs_of(alloc: Global, text: &[u8]) -> Result<Seq<Pdv>, PduFault>
    ensures { Reads (λ v. v) result (λ pdvs. Run StartsPdv pdvs text.now []) }
{
    let mut found = Vec::new(alloc);
    let mut rest = text;
    while !rest.is_empty() {
        let (pdv, after) = pdv_at(alloc, rest)?;
        found.push(pdv)?;
        rest = after;
    }
    Ok(Seq::from_vec(found))
}
