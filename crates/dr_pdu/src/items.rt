//! Items and sub-items: type, reserved, length (2), body.
ghost use Rattle.std.specs.Prelude.{◌≡◌, ℕ, List, map, IfOk};
ghost use Rattle.std.specs.Option.{option_copied};
ghost use Rattle.dr_base.specs.Padding.{unpadded};
ghost use Rattle.dr_pdu.specs.Items.{Item as ItemText, AreItems, StartsPduItem, first_body, bodies};
ghost use Rattle.dr_pdu.specs.Reads.{Reads, item, items};

use crate::fault::PduFault;
use dr_base::padding::unpadded;
use dr_base::{Seq, Text};
use std::alloc::{AllocError, Global};

/// An item where it stands in its text.
#[derive(Clone, Copy)]
pub struct PduItem<'a> {
    pub kind: u8,
    pub body: &'a [u8],
}

/// The first item of a text that isn't empty, and what follows it.
fn item_at(text: &[u8]) -> Result<(PduItem<'_>, &[u8]), PduFault>
    ensures { Reads {Y = ItemText × List ℕ}
        (λ x. (item x.0, x.1.now)) result
        (λ x. StartsPduItem text.now x.0 x.1) }
{
    let [kind, _, high, low, rest @ ..] = text else {
        return Err(PduFault::BadItem);
    };
    let len = usize::from(u16::from_be_bytes([*high, *low]));
    if rest.len() < len {
        return Err(PduFault::BadItem);
    }
    let (body, rest) = rest.split_at(len);
    Ok((PduItem { kind: *kind, body }, rest))
}

/// The items of a text, in order.
pub fn items_of(alloc: Global, text: &[u8]) -> Result<Vec<PduItem<'_>>, PduFault>
    ensures { Reads (λ v. items v.items) result (λ is. AreItems is text.now) }
{
    let mut found = Vec::new(alloc);
    let mut rest = text;
    while !rest.is_empty() {
        let (item, after) = item_at(rest)?;
        found.push(item)?;
        rest = after;
    }
    Ok(found)
}

/// The body of the first item of that type.
pub fn first<'a>(found: &[PduItem<'a>], kind: u8) -> Option<&'a [u8]>
    ensures { option_copied result ≡ first_body kind (items found.now) }
{
    for item in found {
        if item.kind == kind {
            return Some(item.body);
        }
    }
    None
}

/// The UIDs of the items of one type, in order.
pub fn uids(alloc: Global, found: &[PduItem<'_>], kind: u8) -> Result<Seq<Text>, AllocError>
    ensures { IfOk result (λ them. them ≡ map unpadded (bodies kind (items found.now))) }
{
    let mut them = Vec::new(alloc);
    for item in found {
        if item.kind == kind {
            them.push(Text::copy_of(alloc, unpadded(item.body))?)?;
        }
    }
    Ok(Seq::from_vec(them))
}
