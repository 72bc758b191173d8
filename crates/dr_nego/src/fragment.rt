//! Commands and data sets in fragments (PS3.8 annexes D.1 and E).
ghost use Rattle.std.specs.Prelude.{◌≡◌, ◌≤◌, ◌∷◌, ◌++◌, OnOk, OnErr, length};
ghost use Rattle.std.specs.Int.{w32, to_be_bytes};
ghost use Rattle.dr_pdu.specs.Items.{pdv_text};
ghost use Rattle.dr_base.specs.Texts.{Begins};
ghost use Rattle.dr_pdu.specs.Written.{written};
ghost use Rattle.dr_nego.specs.Agreeing.{IsTooSmall};
ghost use Rattle.dr_nego.specs.Fragments.{piece_size, value_pdu, header_of, is_command};
ghost use Rattle.dr_nego.specs.Fragments.{fragment_pdus, spellings};

use crate::agreed::Agreed;
use std::alloc::AllocError;

/// The greatest length, in bytes, of a P-DATA-TF that is written where there is no limit, or a
/// greater one.
const GREATEST: u32 = 1_048_576;

/// What a fragment is part of.
#[derive(Clone, Copy, PartialEq, Eq, Debug)]
pub enum FragmentKind {
    Command,
    DataSet,
}

/// How long fragments are within a limit, in bytes: even, and 6 bytes less than the limit.
fn piece_size(limit: u32) -> usize
    requires { IsTooSmall limit → ⊥ }
    ensures size { result ≡ piece_size limit }
    ensures some { 2 ≤ result }
    ensures fits { result ≤ 1048570 }
{
    if limit == 0 || limit > GREATEST {
        return (GREATEST as usize - 6) / 2 * 2;
    }
    (limit as usize - 6) / 2 * 2
}

/// The message control header (annex E.2): bit 0 is set for a command, bit 1 for the last fragment.
fn header_of(kind: FragmentKind, is_last: bool) -> u8
    ensures { result ≡ header_of (is_command kind) is_last }
{
    let command = match kind {
        FragmentKind::Command => 1,
        FragmentKind::DataSet => 0,
    };
    let last = if is_last { 2 } else { 0 };
    command + last
}

/// Writes the header of a P-DATA-TF of that length (9.3.5).
fn put_header(out: &mut Vec<u8>, len: u32) -> Result<(), AllocError>
    ensures ok { OnOk result (out.new.items ≡ out.old.items ++ (4 ∷ 0 ∷ to_be_bytes w32 len)) }
    ensures err { OnErr result (Begins out.old.items out.new.items) }
{
    out.extend_from_slice(&[4, 0])?;
    out.extend_from_slice(&len.to_be_bytes())?;
    Ok(())
}

/// Writes a value (9.3.5.1).
fn put_value(out: &mut Vec<u8>, id: u8, header: u8, fragment: &[u8]) -> Result<(), AllocError>
    requires { length fragment.now ≤ 1048570 }
    ensures ok { OnOk result
        (out.new.items
        ≡ out.old.items
        ++ pdv_text (record { id = id; header = header; fragment = fragment.now })) }
    ensures err { OnErr result (Begins out.old.items out.new.items) }
{
    let len = fragment.len() as u32 + 2;
    out.extend_from_slice(&len.to_be_bytes())?;
    out.push(id)?;
    out.push(header)?;
    out.extend_from_slice(fragment)?;
    Ok(())
}

/// Writes a P-DATA-TF with one value behind what is there.
fn put_fragment(
    out: &mut Vec<u8>,
    id: u8,
    kind: FragmentKind,
    is_last: bool,
    fragment: &[u8],
) -> Result<(), AllocError>
    requires { length fragment.now ≤ 1048570 }
    ensures ok { OnOk result
        (out.new.items
        ≡ out.old.items ++ written (value_pdu id (is_command kind) is_last fragment.now)) }
    ensures err { OnErr result (Begins out.old.items out.new.items) }
{
    let len = fragment.len() as u32 + 6;
    put_header(out, len)?;
    put_value(out, id, header_of(kind, is_last), fragment)?;
    Ok(())
}

/// Writes a command or a data set in fragments behind what is there: each is the one value of a
/// P-DATA-TF, in that context, and fits the length that was agreed on. The last alone is marked as
/// the last; nothing is one empty fragment, and none follows a full one.
///
/// Errors: AllocError; some of the fragments may then be there.
pub fn put_fragments(
    out: &mut Vec<u8>,
    agreed: &Agreed,
    id: u8,
    kind: FragmentKind,
    bytes: &[u8],
) -> Result<(), AllocError>
    requires { IsTooSmall agreed.now.limit → ⊥ }
    ensures ok { OnOk result
        (out.new.items
        ≡ out.old.items ++ spellings (fragment_pdus agreed.now.limit id kind bytes.now)) }
    ensures err { OnErr result (Begins out.old.items out.new.items) }
{
    let size = piece_size(agreed.limit);
    let mut rest = bytes;
    while rest.len() > size {
        let (piece, later) = rest.split_at(size);
        put_fragment(out, id, kind, false, piece)?;
        rest = later;
    }
    put_fragment(out, id, kind, true, rest)?;
    Ok(())
}
