//! Lines of a journal as text.
ghost use Rattle.std.specs.Prelude.{◌≡◌, ◌++◌, OnOk, codes, flat_map};
ghost use Rattle.dr_ledger_text.specs.Lines.{arrived_part, begun_line, content_part};
ghost use Rattle.dr_ledger_text.specs.Lines.{further_name, goals_part, item_part, key_part};
ghost use Rattle.dr_ledger_text.specs.Lines.{kind_part, line_part, moment_part, names_text};
ghost use Rattle.dr_ledger_text.specs.Lines.{outcome_text, row_part, sealed_text};
ghost use Rattle.dr_ledger_text.specs.Members.{word};
ghost use Rattle.dr_ledger_history.specs.declared.line.JournalLine.TheVariants as told;
ghost use Rattle.hex.specs.Hex.{encode_lower};

use crate::members::{put_flag, put_named, put_number, put_said, put_word};
use dr_base::fields::add_decimal;
use dr_base::{Seq, Text};
use dr_base_quoted::put_text;
use dr_ledger::{Instance, Outcome};
use dr_ledger_history::JournalLine;
use std::alloc::AllocError;

/// Adds a name behind another.
fn put_further(out: &mut Vec<u8>, name: &Text) -> Result<(), AllocError>
    ensures { OnOk result (out.new.items ≡ out.old.items ++ further_name name.now) }
{
    out.push(b',')?;
    put_text(out, name)
}

/// Adds names that stand behind another.
fn put_others(out: &mut Vec<u8>, names: &[Text]) -> Result<(), AllocError>
    ensures { OnOk result (out.new.items ≡ out.old.items ++ flat_map further_name names.now) }
{
    for name in names {
        put_further(out, name)?;
    }
    Ok(())
}

/// Adds names one behind the other.
fn put_names(out: &mut Vec<u8>, names: &[Text]) -> Result<(), AllocError>
    ensures { OnOk result (out.new.items ≡ out.old.items ++ names_text names.now) }
{
    let [first, more @ ..] = names else {
        return Ok(());
    };
    put_text(out, first)?;
    put_others(out, more)
}

/// Adds where a first arrival goes on to.
fn put_to(out: &mut Vec<u8>, to: &Seq<Text>) -> Result<(), AllocError>
    ensures { OnOk result (out.new.items
        ≡ out.old.items ++ (codes ",\"" ++ codes "to" ++ codes "\":"
        ++ (codes "[" ++ names_text to.now ++ codes "]"))) }
{
    out.extend_from_slice(b",\"to\":[")?;
    put_names(out, to.as_slice())?;
    out.push(b']')?;
    Ok(())
}

/// Adds where a first arrival goes on to, and whether it is kept.
fn put_goals(out: &mut Vec<u8>, to: &Seq<Text>, keep: bool) -> Result<(), AllocError>
    ensures { OnOk result (out.new.items ≡ out.old.items ++ goals_part to.now keep) }
{
    put_to(out, to)?;
    put_flag(out, "keep", keep)?;
    Ok(())
}

/// Adds what rules read of an instance.
fn put_key(out: &mut Vec<u8>, instance: &Instance) -> Result<(), AllocError>
    ensures { OnOk result (out.new.items ≡ out.old.items ++ key_part instance.now) }
{
    put_named(out, "class", &instance.key.class)?;
    put_word(out, "syntax", instance.key.syntax.uid())?;
    put_named(out, "modality", &instance.key.modality)?;
    put_named(out, "station", &instance.key.station)?;
    Ok(())
}

/// Adds the SHA-256 of a data set.
fn put_digest(out: &mut Vec<u8>, digest: &[u8; 32]) -> Result<(), AllocError>
    ensures { OnOk result
        (out.new.items ≡ out.old.items ++ word (codes "sha256") (encode_lower digest.now)) }
{
    let alloc = *out.allocator();
    let digits = hex::encode(alloc, digest.as_slice())?;
    put_word(out, "sha256", digits.as_bytes())
}

/// Adds the length and the SHA-256 of an instance's data set.
fn put_content(out: &mut Vec<u8>, instance: &Instance) -> Result<(), AllocError>
    ensures { OnOk result (out.new.items ≡ out.old.items ++ content_part instance.now) }
{
    put_number(out, "length", instance.size)?;
    put_digest(out, &instance.digest)?;
    Ok(())
}

/// Adds an instance.
fn put_item(out: &mut Vec<u8>, instance: &Instance) -> Result<(), AllocError>
    ensures { OnOk result (out.new.items ≡ out.old.items ++ item_part instance.now) }
{
    put_named(out, "uid", &instance.uid)?;
    put_key(out, instance)?;
    put_content(out, instance)?;
    Ok(())
}

/// Adds which call a line is of.
fn put_kind(out: &mut Vec<u8>, kind: &str) -> Result<(), AllocError>
    ensures { OnOk result (out.new.items ≡ out.old.items ++ kind_part kind.now) }
{
    put_said(out, "kind", kind)
}

/// Adds of which row a line is.
fn put_row_name(out: &mut Vec<u8>, uid: &Text, dest: &Text) -> Result<(), AllocError>
    ensures { OnOk result (out.new.items ≡ out.old.items ++ row_part uid.now dest.now) }
{
    put_named(out, "uid", uid)?;
    put_named(out, "dest", dest)?;
    Ok(())
}

/// Adds an arrival.
fn put_arrived(
    out: &mut Vec<u8>,
    kind: &str,
    caller: &Text,
    instance: &Instance,
) -> Result<(), AllocError>
    ensures { OnOk result
        (out.new.items ≡ out.old.items ++ arrived_part kind.now caller.now instance.now) }
{
    put_kind(out, kind)?;
    put_named(out, "caller", caller)?;
    put_item(out, instance)?;
    Ok(())
}

/// Adds a first arrival.
fn put_arrival(
    out: &mut Vec<u8>,
    caller: &Text,
    instance: &Instance,
    to: &Seq<Text>,
    keep: bool,
) -> Result<(), AllocError>
    ensures { OnOk result (out.new.items
        ≡ out.old.items ++ line_part (told.Arrival caller.now instance.now to.now keep)) }
{
    put_arrived(out, "arrival", caller, instance)?;
    put_goals(out, to, keep)?;
    Ok(())
}

/// Adds what came of a try.
fn put_outcome(out: &mut Vec<u8>, outcome: Outcome) -> Result<(), AllocError>
    ensures { OnOk result
        (out.new.items ≡ out.old.items ++ word (codes "outcome") (outcome_text outcome)) }
{
    match outcome {
        Outcome::Status(status) => {
            let bytes = status.to_be_bytes();
            let alloc = *out.allocator();
            let digits = hex::encode_upper(alloc, bytes.as_slice())?;
            put_word(out, "outcome", digits.as_bytes())
        }
        Outcome::Broken => put_word(out, "outcome", b"broken"),
        Outcome::NoContext => put_word(out, "outcome", b"no-context"),
        Outcome::Unreadable => put_word(out, "outcome", b"unreadable"),
    }
}

/// Adds what came of a try, and when.
fn put_settling(
    out: &mut Vec<u8>,
    uid: &Text,
    dest: &Text,
    outcome: Outcome,
    now: u64,
) -> Result<(), AllocError>
    ensures { OnOk result (out.new.items
        ≡ out.old.items ++ line_part (told.Settling uid.now dest.now outcome now)) }
{
    put_kind(out, "settling")?;
    put_row_name(out, uid, dest)?;
    put_outcome(out, outcome)?;
    put_number(out, "moment", now)?;
    Ok(())
}

/// Adds that a row was queued again.
fn put_requeuing(out: &mut Vec<u8>, uid: &Text, dest: &Text) -> Result<(), AllocError>
    ensures { OnOk result
        (out.new.items ≡ out.old.items ++ line_part (told.Requeuing uid.now dest.now)) }
{
    put_kind(out, "requeuing")?;
    put_row_name(out, uid, dest)?;
    Ok(())
}

/// Adds that a row was given up, and when.
fn put_dropping(out: &mut Vec<u8>, uid: &Text, dest: &Text, now: u64) -> Result<(), AllocError>
    ensures { OnOk result
        (out.new.items ≡ out.old.items ++ line_part (told.Dropping uid.now dest.now now)) }
{
    put_kind(out, "dropping")?;
    put_row_name(out, uid, dest)?;
    put_number(out, "moment", now)?;
    Ok(())
}

/// Adds that an instance was let go.
fn put_forgetting(out: &mut Vec<u8>, uid: &Text) -> Result<(), AllocError>
    ensures { OnOk result (out.new.items ≡ out.old.items ++ line_part (told.Forgetting uid.now)) }
{
    put_kind(out, "forgetting")?;
    put_named(out, "uid", uid)?;
    Ok(())
}

/// Adds what a line says.
fn put_said_in(out: &mut Vec<u8>, line: &JournalLine) -> Result<(), AllocError>
    ensures { OnOk result (out.new.items ≡ out.old.items ++ line_part line.now) }
{
    match line {
        JournalLine::Arrival {
            caller,
            instance,
            to,
            keep,
        } => put_arrival(out, caller, instance, to, *keep),
        JournalLine::Repeat { caller, instance } => put_arrived(out, "repeat", caller, instance),
        JournalLine::Settling {
            uid,
            dest,
            outcome,
            now,
        } => put_settling(out, uid, dest, *outcome, *now),
        JournalLine::Requeuing { uid, dest } => put_requeuing(out, uid, dest),
        JournalLine::Dropping { uid, dest, now } => put_dropping(out, uid, dest, *now),
        JournalLine::Forgetting { uid } => put_forgetting(out, uid),
        JournalLine::Adoption => put_kind(out, "adoption"),
    }
}

/// Adds a line with its number, as an object without its end.
pub fn begin_line(out: &mut Vec<u8>, number: u64, line: &JournalLine) -> Result<(), AllocError>
    ensures { OnOk result (out.new.items ≡ out.old.items ++ begun_line number line.now) }
{
    out.extend_from_slice(b"{\"line\":")?;
    add_decimal(out, number)?;
    put_said_in(out, line)?;
    Ok(())
}

/// Adds the moment (milliseconds) at which a line was written, where it is known.
fn put_moment(out: &mut Vec<u8>, moment: Option<u64>) -> Result<(), AllocError>
    ensures { OnOk result (out.new.items ≡ out.old.items ++ moment_part moment) }
{
    match moment {
        Some(moment) => put_number(out, "at", moment),
        None => Ok(()),
    }
}

/// Adds a line as it is sealed: with its number and its moment (milliseconds), and without an end
/// of line.
pub fn put_sealed(
    out: &mut Vec<u8>,
    number: u64,
    line: &JournalLine,
    moment: Option<u64>,
) -> Result<(), AllocError>
    ensures { OnOk result (out.new.items ≡ out.old.items ++ sealed_text number line.now moment) }
{
    begin_line(out, number, line)?;
    put_moment(out, moment)?;
    out.push(b'}')?;
    Ok(())
}
