//! What changes of plan came to, and what wasn't done by other makers' products, as text.
ghost use Rattle.std.specs.Prelude.{◌≡◌, ◌++◌, OnOk};
ghost use Rattle.dr_word_simulate.specs.Reported.{note_of, notes_of, refusal_line, refusal_of};
ghost use Rattle.dr_word_simulate.specs.Reported.{no_node_line, refusal_word, refusals_of};

use dr_base::Text;
use dr_base::fields::{add_field, add_number};
use dr_world::{Change, ForeignRefusal, RefusedForeign};
use std::alloc::AllocError;

const TAB: u8 = 9;

const LF: u8 = 10;

/// Adds what a change that wasn't made came to.
fn tell_change(change: &Change, out: &mut Vec<u8>) -> Result<(), AllocError>
    ensures { OnOk result (out.new.items ≡ out.old.items ++ note_of change.now) }
{
    match change {
        Change::Adopted => Ok(()),
        Change::Skipped => {
            out.extend_from_slice(b"Skipped\n")?;
            Ok(())
        }
        Change::Unfit { node, uid, dest } => {
            out.extend_from_slice(b"Unfit")?;
            out.push(TAB)?;
            out.extend_from_slice(node.as_bytes())?;
            out.push(TAB)?;
            out.extend_from_slice(uid.as_bytes())?;
            out.push(TAB)?;
            out.extend_from_slice(dest.as_bytes())?;
            out.push(LF)?;
            Ok(())
        }
    }
}

/// Adds what the changes came to that weren't made, in order.
pub fn tell_changes(changes: &[Change], out: &mut Vec<u8>) -> Result<(), AllocError>
    ensures { OnOk result (out.new.items ≡ out.old.items ++ notes_of changes.now) }
{
    for change in changes {
        tell_change(change, out)?;
    }
    Ok(())
}

/// The word for why it wasn't done.
fn refusal_word(why: ForeignRefusal) -> &'static [u8]
    ensures { result.now ≡ refusal_word why }
{
    match why {
        ForeignRefusal::NoLink => b"no-link",
        ForeignRefusal::NotForeign => b"not-foreign",
        ForeignRefusal::BothForeign => b"both-foreign",
        ForeignRefusal::NoContext => b"no-context",
        ForeignRefusal::NotAsked => b"not-asked",
    }
}

/// Adds what wasn't done at a link, by its word in a script, and why.
fn put_refusal(
    out: &mut Vec<u8>,
    word: &[u8],
    link: u64,
    why: ForeignRefusal,
) -> Result<(), AllocError>
    ensures { OnOk result (out.new.items ≡ out.old.items ++ refusal_line word.now link why) }
{
    out.extend_from_slice(b"Refused")?;
    add_field(out, word)?;
    add_number(out, link)?;
    add_field(out, refusal_word(why))?;
    out.push(LF)?;
    Ok(())
}

/// Adds that no node has the name of what was to be another maker's product.
fn put_no_node(out: &mut Vec<u8>, node: &Text) -> Result<(), AllocError>
    ensures { OnOk result (out.new.items ≡ out.old.items ++ no_node_line node.now) }
{
    out.extend_from_slice(b"Refused")?;
    add_field(out, b"foreign")?;
    add_field(out, node.as_bytes())?;
    add_field(out, b"no-node")?;
    out.push(LF)?;
    Ok(())
}

/// Adds what another maker's product was told and didn't do.
fn tell_refusal(refused: &RefusedForeign, out: &mut Vec<u8>) -> Result<(), AllocError>
    ensures { OnOk result (out.new.items ≡ out.old.items ++ refusal_of refused.now) }
{
    match refused {
        RefusedForeign::Node { node } => put_no_node(out, node),
        RefusedForeign::Store { link, why } => put_refusal(out, b"store", *link, *why),
        RefusedForeign::Answer { link, why } => put_refusal(out, b"answer", *link, *why),
    }
}

/// Adds what other makers' products were told and didn't do, in order.
pub fn tell_refusals(refusals: &[RefusedForeign], out: &mut Vec<u8>) -> Result<(), AllocError>
    ensures { OnOk result (out.new.items ≡ out.old.items ++ refusals_of refusals.now) }
{
    for refused in refusals {
        tell_refusal(refused, out)?;
    }
    Ok(())
}
