//! Which PDUs have a spelling.
ghost use Rattle.std.specs.Prelude.{◌≡◌, ◌^◌, ◌<◌, ◌≤◌, length, false, IsTrue, ◌↔◌, map};
ghost use Rattle.std.specs.Option.{SomeIff};
ghost use Rattle.std.specs.List.{flat_map, AllByRecursion};
ghost use Rattle.dr_pdu.specs.Grammar.{AreContextIds};
ghost use Rattle.dr_pdu.specs.Items.{pdv_text};
ghost use Rattle.dr_pdu.specs.Written.{Fits};
ghost use Rattle.dr_pdu.specs.Fitting.{IsTitle, IsUnpadded, FrontFits, AssociationFits, weight};

use crate::associate::Context;
use crate::decoder::{GREATEST_ASSOCIATION, GREATEST_TRANSFER, are_context_ids};
use crate::pdu::{Association, Front, Pdu, Pdv};
use dr_base::Text;
use dr_base::padding::{trimmed, unpadded};

/// The greatest length field of an association PDU, as a length.
pub const LONGEST_ASSOCIATION: usize = GREATEST_ASSOCIATION as usize;

/// The greatest length field of a P-DATA-TF where there is no limit, as a length.
const LONGEST_TRANSFER: usize = GREATEST_TRANSFER as usize;

/// Whether a PDU has a spelling: its lengths are those that the format holds, names are without the
/// padding that reading drops, context ids are odd and distinct, a proposal has a transfer syntax,
/// and a refused context has none.
pub fn fits(pdu: &Pdu) -> bool
    ensures { IsTrue result ↔ Fits pdu.now }
{
    match pdu {
        Pdu::AssociateRq(rq) => association_fits(rq),
        Pdu::AssociateAc(ac) => association_fits(ac),
        Pdu::Transfer(pdvs) => values_len(pdvs.as_slice()).is_some(),
        _ => true,
    }
}

fn association_fits<C: Context>(association: &Association<C>) -> bool
    ensures fits { IsTrue result
        ↔ (AssociationFits C.context_fits (C.body_text false) association.now
        × AreContextIds (map C.id_of association.now.contexts)) }
    ensures version { association.now.front.version < 2 ^ 16 }
    ensures greatest { association.now.max_pdu < 2 ^ 32 }
{
    let _version = association.front.version;
    let user = if association.max_pdu == 0 { 0 } else { 12 };
    if !front_fits(&association.front) {
        return false;
    }
    if !is_unpadded(&association.application) {
        return false;
    }
    let application = association.application.len();
    if application >= 65_536 {
        return false;
    }
    let Some(contexts) = contexts_len(association.contexts.as_slice()) else {
        return false;
    };
    if 72 + application + contexts + user > LONGEST_ASSOCIATION {
        return false;
    }
    are_context_ids(association.contexts.as_slice())
}

fn front_fits(front: &Front) -> bool
    ensures { IsTrue result ↔ FrontFits front.now }
{
    is_title(&front.called) && is_title(&front.calling) && front.reserved.len() == 32
}

/// Whether a title is read as it was written.
fn is_title(name: &Text) -> bool
    ensures { IsTrue result ↔ IsTitle name.now }
{
    name.len() <= 16 && trimmed(name.as_bytes()) == name.as_bytes()
}

/// How many bytes the shortest items of the contexts take, if they fit.
fn contexts_len<C: Context>(contexts: &[C]) -> Option<usize>
    ensures { SomeIff result
        (AllByRecursion C.context_fits contexts.now
        × (weight (map (C.body_text false) contexts.now) ≤ 262144))
        (weight (map (C.body_text false) contexts.now)) }
{
    let mut len = 0;
    for context in contexts {
        let Some(body) = context.bare_len() else {
            return None;
        };
        if body > LONGEST_ASSOCIATION {
            return None;
        }
        len += 4 + body;
        if len > LONGEST_ASSOCIATION {
            return None;
        }
    }
    Some(len)
}

/// How many bytes the values take in a P-DATA-TF, if they fit.
pub fn values_len(pdvs: &[Pdv]) -> Option<usize>
    ensures { SomeIff result (length (flat_map pdv_text pdvs.now) ≤ 134217728)
        (length (flat_map pdv_text pdvs.now)) }
{
    let mut len = 0;
    for pdv in pdvs {
        let fragment = pdv.fragment.len();
        if fragment > LONGEST_TRANSFER {
            return None;
        }
        len += 6 + fragment;
        if len > LONGEST_TRANSFER {
            return None;
        }
    }
    Some(len)
}

/// How many bytes the names take as items, if each is read as it was written and they are below
/// 65,536 bytes.
pub fn names_len(names: &[Text]) -> Option<usize>
    ensures { SomeIff result (AllByRecursion IsUnpadded names.now × (weight names.now < 2 ^ 16))
        (weight names.now) }
{
    let mut len = 0;
    for name in names {
        if !is_unpadded(name) {
            return None;
        }
        let more = name.len();
        if more >= 65_536 {
            return None;
        }
        len += 4 + more;
        if len >= 65_536 {
            return None;
        }
    }
    Some(len)
}

/// Whether a name is read as it was written.
pub fn is_unpadded(name: &Text) -> bool
    ensures { IsTrue result ↔ IsUnpadded name.now }
{
    unpadded(name.as_bytes()) == name.as_bytes()
}
