//! The spelling of a PDU that is written.
ghost use Rattle.std.specs.Prelude.{◌≡◌, ◌+◌, ◌^◌, ◌<◌, ◌≤◌, [], ◌∷◌, ◌++◌, true, false, length};
ghost use Rattle.std.specs.Prelude.{OnOk, OnErr, IfOk};
ghost use Rattle.std.specs.Int.{w32, to_be_bytes};
ghost use Rattle.std.specs.List.{flat_map, AllByRecursion};
ghost use Rattle.dr_pdu.specs.Items.{pdv_text};
ghost use Rattle.dr_pdu.specs.Written.{item, padded, framed, user_text, association_text};
ghost use Rattle.dr_pdu.specs.Written.{unless_long, written, Fits};
ghost use Rattle.dr_pdu.specs.Fitting.{AssociationFits};
ghost use Rattle.dr_base.specs.Texts.{Begins};
ghost use Rattle.dr_pdu.specs.declared.pdu.Pdu.TheVariants.{Transfer};

use crate::associate::Context;
use crate::lengths::{LONGEST_ASSOCIATION, values_len};
use crate::pdu::{Association, Pdu, Pdv};
use std::alloc::{AllocError, Global};

/// The implementation class UID, and the implementation version name (PS3.8 annex D.3.3.2).
const IMPLEMENTATION: &[u8] = b"2.25.331274590186724905318462075136948210573";

const VERSION_NAME: &[u8] = b"DR_ROUTER_1";

/// What titles are padded with.
const SPACES: &[u8] = b"                ";

/// The spelling of a PDU: items in the order 10H, 20H or 21H, 50H; titles padded by spaces;
/// reserved bytes 0, but for the 32 of an association. What nobody needs (the user information
/// where there is no limit, the product's name, the syntax of a refused context) is left out where
/// it would make the length field greater than 262,144.
pub fn encode(alloc: Global, pdu: &Pdu) -> Result<Vec<u8>, AllocError>
    requires { Fits pdu.now }
    ensures { IfOk result (λ bytes. bytes.items ≡ written pdu.now) }
{
    let mut out = Vec::new(alloc);
    put(&mut out, pdu)?;
    Ok(out)
}

/// Puts the spelling of a PDU, as `encode` gives it, behind what `out` has. Without memory `out`
/// has what it had.
pub fn put(out: &mut Vec<u8>, pdu: &Pdu) -> Result<(), AllocError>
    requires { Fits pdu.now }
    ensures ok { OnOk result (out.new.items ≡ out.old.items ++ written pdu.now) }
    ensures err { OnErr result (out.new.items ≡ out.old.items) }
{
    let alloc = *out.allocator();
    match pdu {
        Pdu::AssociateRq(rq) => {
            let body = association_body(alloc, 0x20, rq)?;
            put_framed(out, 1, &body)
        }
        Pdu::AssociateAc(ac) => {
            let body = association_body(alloc, 0x21, ac)?;
            put_framed(out, 2, &body)
        }
        Pdu::AssociateRj(rj) => put_framed(out, 3, &[0, rj.result, rj.source, rj.reason]),
        Pdu::Transfer(pdvs) => put_transfer(out, pdvs.as_slice()),
        Pdu::ReleaseRq => put_framed(out, 5, &[0, 0, 0, 0]),
        Pdu::ReleaseRp => put_framed(out, 6, &[0, 0, 0, 0]),
        Pdu::Abort(abort) => put_framed(out, 7, &[0, 0, abort.source, abort.reason]),
    }
}

/// Puts a P-DATA-TF of one presentation data value, whose fragment is a slice, behind what `out`
/// has: its context id, its message control header, and up to 134,217,722 bytes of a message.
/// Without memory `out` has what it had.
pub fn put_fragment(
    out: &mut Vec<u8>,
    id: u8,
    header: u8,
    fragment: &[u8],
) -> Result<(), AllocError>
    requires { length fragment.now ≤ 134217722 }
    ensures ok { OnOk result
        (out.new.items
        ≡ out.old.items
        ++ written (Transfer (record { id = id; header = header; fragment = fragment.now } ∷ []))) }
    ensures err { OnErr result (out.new.items ≡ out.old.items) }
{
    let before = out.len();
    out.extend_from_slice(&header_of(4, fragment.len() as u32 + 6))?;
    let done = put_value(out, id, header, fragment);
    if done.is_err() {
        out.truncate(before);
    }
    done
}

/// Type, reserved, and the length of what follows (PS3.8 section 9.3.1).
fn header_of(kind: u8, len: u32) -> [u8; 6]
    ensures { result ≡ kind ∷ 0 ∷ to_be_bytes w32 len }
{
    let [a, b, c, d] = len.to_be_bytes();
    [kind, 0, a, b, c, d]
}

/// The header and the body.
fn put_framed(out: &mut Vec<u8>, kind: u8, body: &[u8]) -> Result<(), AllocError>
    requires { length body.now < 2 ^ 32 }
    ensures ok { OnOk result (out.new.items ≡ out.old.items ++ framed kind body.now) }
    ensures err { OnErr result (out.new.items ≡ out.old.items) }
{
    let before = out.len();
    out.extend_from_slice(&header_of(kind, body.len() as u32))?;
    let done = out.extend_from_slice(body);
    if done.is_err() {
        out.truncate(before);
    }
    done
}

/// A P-DATA-TF of these values.
fn put_transfer(out: &mut Vec<u8>, pdvs: &[Pdv]) -> Result<(), AllocError>
    requires { length (flat_map pdv_text pdvs.now) ≤ 134217728 }
    ensures ok { OnOk result
        (out.new.items ≡ out.old.items ++ framed 4 (flat_map pdv_text pdvs.now)) }
    ensures err { OnErr result (out.new.items ≡ out.old.items) }
{
    let Some(len) = values_len(pdvs) else {
        unreachable!();
    };
    let before = out.len();
    out.extend_from_slice(&header_of(4, len as u32))?;
    let done = put_values(out, pdvs);
    if done.is_err() {
        out.truncate(before);
    }
    done
}

fn put_values(out: &mut Vec<u8>, pdvs: &[Pdv]) -> Result<(), AllocError>
    requires { length (flat_map pdv_text pdvs.now) < 2 ^ 32 }
    ensures ok { OnOk result (out.new.items ≡ out.old.items ++ flat_map pdv_text pdvs.now) }
    ensures err { OnErr result (Begins out.old.items out.new.items) }
{
    for pdv in pdvs {
        put_value(out, pdv.id, pdv.header, pdv.fragment.as_bytes())?;
    }
    Ok(())
}

fn put_value(out: &mut Vec<u8>, id: u8, header: u8, fragment: &[u8]) -> Result<(), AllocError>
    requires { 2 + length fragment.now < 2 ^ 32 }
    ensures ok { OnOk result
        (out.new.items
        ≡ out.old.items
        ++ pdv_text (record { id = id; header = header; fragment = fragment.now })) }
    ensures err { OnErr result (Begins out.old.items out.new.items) }
{
    let [a, b, c, d] = (fragment.len() as u32 + 2).to_be_bytes();
    out.extend_from_slice(&[a, b, c, d, id, header])?;
    out.extend_from_slice(fragment)?;
    Ok(())
}

/// The body of an association PDU, in full or, where that is too long, without what nobody needs.
fn association_body<C: Context>(
    alloc: Global,
    kind: u8,
    association: &Association<C>,
) -> Result<Vec<u8>, AllocError>
    requires { AssociationFits C.context_fits (C.body_text false) association.now }
    ensures { IfOk result (λ bytes. bytes.items
        ≡ unless_long
        (association_text kind (C.body_text true) (user_text true association.now.max_pdu)
        association.now)
        (association_text kind (C.body_text false) (user_text false association.now.max_pdu)
        association.now)) }
{
    let full = association_with(alloc, true, kind, association)?;
    if full.len() <= LONGEST_ASSOCIATION {
        return Ok(full);
    }
    association_with(alloc, false, kind, association)
}

fn association_with<C: Context>(
    alloc: Global,
    full: bool,
    kind: u8,
    association: &Association<C>,
) -> Result<Vec<u8>, AllocError>
    requires { AssociationFits C.context_fits (C.body_text false) association.now }
    ensures { IfOk result (λ bytes. bytes.items
        ≡ association_text kind (C.body_text full) (user_text full association.now.max_pdu)
        association.now) }
{
    let front = &association.front;
    let mut out = Vec::new(alloc);
    out.extend_from_slice(&front.version.to_be_bytes())?;
    out.extend_from_slice(&[0, 0])?;
    put_title(&mut out, front.called.as_bytes())?;
    put_title(&mut out, front.calling.as_bytes())?;
    out.extend_from_slice(front.reserved.as_bytes())?;
    put_item(&mut out, 0x10, association.application.as_bytes())?;
    put_contexts(alloc, &mut out, full, kind, association.contexts.as_slice())?;
    put_user(alloc, &mut out, full, association.max_pdu)?;
    Ok(out)
}

fn put_contexts<C: Context>(
    alloc: Global,
    out: &mut Vec<u8>,
    full: bool,
    kind: u8,
    contexts: &[C],
) -> Result<(), AllocError>
    requires { AllByRecursion C.context_fits contexts.now }
    ensures ok { OnOk result
        (out.new.items
        ≡ out.old.items ++ flat_map (λ c. item kind (C.body_text full c)) contexts.now) }
    ensures err { OnErr result (Begins out.old.items out.new.items) }
{
    for context in contexts {
        let body = context.body(alloc, full)?;
        put_item(out, kind, &body)?;
    }
    Ok(())
}

/// The user information (annex D).
fn put_user(alloc: Global, out: &mut Vec<u8>, full: bool, max_pdu: u32) -> Result<(), AllocError>
    ensures ok { OnOk result (out.new.items ≡ out.old.items ++ user_text full max_pdu) }
    ensures err { OnErr result (Begins out.old.items out.new.items) }
{
    if !full && max_pdu == 0 {
        return Ok(());
    }
    let mut inside = Vec::new(alloc);
    put_item(&mut inside, 0x51, &max_pdu.to_be_bytes())?;
    if full {
        put_item(&mut inside, 0x52, IMPLEMENTATION)?;
        put_item(&mut inside, 0x55, VERSION_NAME)?;
    }
    put_item(out, 0x50, &inside)
}

/// A title, padded to 16 bytes.
fn put_title(out: &mut Vec<u8>, name: &[u8]) -> Result<(), AllocError>
    requires { length name.now ≤ 16 }
    ensures ok { OnOk result (out.new.items ≡ out.old.items ++ padded name.now) }
    ensures err { OnErr result (Begins out.old.items out.new.items) }
{
    out.extend_from_slice(name)?;
    out.extend_from_slice(&SPACES[name.len()..])?;
    Ok(())
}

/// An item or a sub-item.
pub fn put_item(out: &mut Vec<u8>, kind: u8, body: &[u8]) -> Result<(), AllocError>
    requires { length body.now < 2 ^ 16 }
    ensures ok { OnOk result (out.new.items ≡ out.old.items ++ item kind body.now) }
    ensures err { OnErr result (Begins out.old.items out.new.items) }
{
    out.push(kind)?;
    out.push(0)?;
    out.extend_from_slice(&(body.len() as u16).to_be_bytes())?;
    out.extend_from_slice(body)?;
    Ok(())
}
