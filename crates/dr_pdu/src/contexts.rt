//! Presentation contexts as they are written.
ghost use Rattle.std.specs.Prelude.{◌≡◌, ◌++◌, ◌^◌, ◌<◌, false, length, IfOk, OnOk, OnErr};
ghost use Rattle.std.specs.List.{flat_map, AllByRecursion};
ghost use Rattle.std.specs.Option.{SomeIff};
ghost use Rattle.dr_pdu.specs.Fitting.{ProposalFits, AnswerFits, weight};
ghost use Rattle.dr_base.specs.Texts.{Begins};
ghost use Rattle.dr_pdu.specs.Written.{item, proposal_body, answer_body};

use crate::encoder::put_item;
use crate::lengths::{is_unpadded, names_len};
use crate::pdu::{ContextAnswer, ContextProposal};
use dr_base::Text;
use std::alloc::{AllocError, Global};

/// Implicit VR Little Endian, which a refused context names.
const IMPLICIT: &[u8] = b"1.2.840.10008.1.2";

/// The body of a 20H item.
pub fn proposal_bytes(alloc: Global, context: &ContextProposal) -> Result<Vec<u8>, AllocError>
    requires { ProposalFits context.now }
    ensures { IfOk result (λ bytes.
        (bytes.items ≡ proposal_body context.now) × (length bytes.items < 2 ^ 16)) }
{
    let mut out = Vec::new(alloc);
    out.extend_from_slice(&[context.id, 0, 0, 0])?;
    put_item(&mut out, 0x30, context.class.as_bytes())?;
    put_names(&mut out, context.syntaxes.as_slice())?;
    Ok(out)
}

fn put_names(out: &mut Vec<u8>, names: &[Text]) -> Result<(), AllocError>
    requires { weight names.now < 2 ^ 16 }
    ensures ok { OnOk result (out.new.items ≡ out.old.items ++ flat_map (item 0x40) names.now) }
    ensures err { OnErr result (Begins out.old.items out.new.items) }
{
    for name in names {
        put_item(out, 0x40, name.as_bytes())?;
    }
    Ok(())
}

/// The length of the body of a 20H item, if it has one.
pub fn proposal_len(context: &ContextProposal) -> Option<usize>
    ensures { SomeIff result (ProposalFits context.now) (length (proposal_body context.now)) }
{
    if !is_unpadded(&context.class) {
        return None;
    }
    if context.syntaxes.is_empty() {
        return None;
    }
    let Some(names) = names_len(context.syntaxes.as_slice()) else {
        return None;
    };
    let class = context.class.len();
    if class >= 65_536 {
        return None;
    }
    if 8 + class + names >= 65_536 {
        return None;
    }
    Some(8 + class + names)
}

/// The body of a 21H item.
pub fn answer_bytes(
    alloc: Global,
    full: bool,
    context: &ContextAnswer,
) -> Result<Vec<u8>, AllocError>
    requires { AnswerFits context.now }
    ensures { IfOk result (λ bytes.
        (bytes.items ≡ answer_body full context.now) × (length bytes.items < 2 ^ 16)) }
{
    let mut out = Vec::new(alloc);
    out.extend_from_slice(&[context.id, 0, context.result, 0])?;
    if context.result == 0 {
        put_item(&mut out, 0x40, context.syntax.as_bytes())?;
        return Ok(out);
    }
    if full {
        put_item(&mut out, 0x40, IMPLICIT)?;
        return Ok(out);
    }
    Ok(out)
}

/// The length of the shortest body of a 21H item, if it has one.
pub fn answer_len(context: &ContextAnswer) -> Option<usize>
    ensures { SomeIff result (AnswerFits context.now) (length (answer_body false context.now)) }
{
    let syntax = context.syntax.len();
    if context.result != 0 {
        if syntax != 0 {
            return None;
        }
        return Some(4);
    }
    if !is_unpadded(&context.syntax) || syntax >= 65_528 {
        return None;
    }
    Some(8 + syntax)
}
