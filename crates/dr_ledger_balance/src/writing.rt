//! A balance, written as a text.
ghost use Rattle.std.specs.Prelude.{◌≡◌, ◌++◌, IfOk, OnOk};
ghost use Rattle.std.specs.BTreeMap as tree;
ghost use Rattle.std.specs.BTreeSet as sorted;
ghost use Rattle.dr_base.specs.Texts.{text_cmp};
ghost use Rattle.dr_ledger.specs.Pairs.{pair_cmp};
ghost use Rattle.dr_ledger_balance.specs.Adding.{Adds, AddsAll, AreOrdered, balance_of, values_of};
ghost use Rattle.dr_ledger_balance.specs.Balances.{balance_text};
ghost use Rattle.dr_ledger_balance.specs.Fields.{digest_then, field_then, number_then};
ghost use Rattle.dr_ledger_balance.specs.Fields.{progress_then};
ghost use Rattle.dr_ledger_balance.specs.Spelling.{arrival_then, end_then, item_then, kept_then};
ghost use Rattle.dr_ledger_balance.specs.Spelling.{key_then, row_then};

use crate::sealing::put_seal;
use dr_base::Text;
use dr_base::fields::add_decimal;
use dr_ledger::{Cause, Instance, Progress};
use dr_route::Key;
use std::alloc::{AllocError, Global};
use std::collections::{BTreeMap, BTreeSet};

/// Adds a number.
fn put_number(out: &mut Vec<u8>, number: u64) -> Result<(), AllocError>
    ensures { OnOk result (Adds out.old.items out.new.items (number_then number)) }
{
    out.push(b' ')?;
    add_decimal(out, number)?;
    out.push(b':')?;
    Ok(())
}

/// Adds bytes as a field.
fn put_bytes(out: &mut Vec<u8>, bytes: &[u8]) -> Result<(), AllocError>
    ensures { OnOk result (Adds out.old.items out.new.items (field_then bytes.now)) }
{
    put_number(out, bytes.len() as u64)?;
    out.extend_from_slice(bytes)?;
    Ok(())
}

/// The same of a text.
fn put_field(out: &mut Vec<u8>, text: &Text) -> Result<(), AllocError>
    ensures { OnOk result (Adds out.old.items out.new.items (field_then text.now)) }
{
    put_bytes(out, text.as_bytes())?;
    Ok(())
}

/// Adds a digest.
fn put_digest(out: &mut Vec<u8>, digest: &[u8; 32]) -> Result<(), AllocError>
    ensures { OnOk result (Adds out.old.items out.new.items (digest_then digest.now)) }
{
    let alloc = *out.allocator();
    let digits = hex::encode(alloc, digest.as_slice())?;
    put_bytes(out, digits.as_bytes())?;
    Ok(())
}

/// Adds what rules read of an instance.
fn put_key(out: &mut Vec<u8>, key: &Key) -> Result<(), AllocError>
    ensures { OnOk result (Adds out.old.items out.new.items (key_then key.now)) }
{
    put_field(out, &key.class)?;
    put_bytes(out, key.syntax.uid())?;
    put_field(out, &key.modality)?;
    put_field(out, &key.station)?;
    Ok(())
}

/// Adds the line of an instance.
fn put_item(out: &mut Vec<u8>, item: &Instance) -> Result<(), AllocError>
    ensures { OnOk result (Adds out.old.items out.new.items (item_then item.now)) }
{
    out.extend_from_slice(b"instance")?;
    put_field(out, &item.uid)?;
    put_key(out, &item.key)?;
    put_number(out, item.size)?;
    put_digest(out, &item.digest)?;
    out.push(b'\n')?;
    Ok(())
}

/// Adds the line of an arrival.
fn put_arrival(out: &mut Vec<u8>, at: &(Text, Text)) -> Result<(), AllocError>
    ensures { OnOk result (Adds out.old.items out.new.items (arrival_then at.now)) }
{
    out.extend_from_slice(b"arrival")?;
    put_field(out, &at.0)?;
    put_field(out, &at.1)?;
    out.push(b'\n')?;
    Ok(())
}

/// Adds the line of a kept uid.
fn put_kept(out: &mut Vec<u8>, uid: &Text) -> Result<(), AllocError>
    ensures { OnOk result (Adds out.old.items out.new.items (kept_then uid.now)) }
{
    out.extend_from_slice(b"kept")?;
    put_field(out, uid)?;
    out.push(b'\n')?;
    Ok(())
}

/// Adds bytes as they are.
fn put_literal(out: &mut Vec<u8>, bytes: &[u8]) -> Result<(), AllocError>
    ensures { OnOk result (Adds out.old.items out.new.items (λ rest. bytes.now ++ rest)) }
{
    out.extend_from_slice(bytes)?;
    Ok(())
}

/// Adds the status for which a row is held.
fn put_status(out: &mut Vec<u8>, status: u16) -> Result<(), AllocError>
    ensures { OnOk result (Adds out.old.items out.new.items
        (progress_then (Progress.Held (Cause.Status status)))) }
{
    out.extend_from_slice(b" status")?;
    put_number(out, u64::from(status))?;
    Ok(())
}

/// Adds why a row is held.
fn put_cause(out: &mut Vec<u8>, cause: Cause) -> Result<(), AllocError>
    ensures { OnOk result
        (Adds out.old.items out.new.items (progress_then (Progress.Held cause))) }
{
    match cause {
        Cause::Status(status) => put_status(out, status),
        Cause::NoContext => put_literal(out, b" no-context"),
        Cause::Unreadable => put_literal(out, b" unreadable"),
    }
}

/// Adds a row's tries, and when it is sent again.
fn put_waiting(out: &mut Vec<u8>, tries: u32, due: u64) -> Result<(), AllocError>
    ensures { OnOk result
        (Adds out.old.items out.new.items (progress_then (Progress.Waiting tries due))) }
{
    out.extend_from_slice(b" waiting")?;
    put_number(out, u64::from(tries))?;
    put_number(out, due)?;
    Ok(())
}

/// Adds how far a row is.
fn put_progress(out: &mut Vec<u8>, progress: Progress) -> Result<(), AllocError>
    ensures { OnOk result (Adds out.old.items out.new.items (progress_then progress)) }
{
    match progress {
        Progress::Waiting { tries, due } => put_waiting(out, tries, due),
        Progress::Held(cause) => put_cause(out, cause),
        Progress::Done => put_literal(out, b" done"),
        Progress::Dropped => put_literal(out, b" dropped"),
    }
}

/// Adds the line of a row.
fn put_row(out: &mut Vec<u8>, at: &(Text, Text), progress: Progress) -> Result<(), AllocError>
    ensures { OnOk result (Adds out.old.items out.new.items (row_then (at.now, progress))) }
{
    out.extend_from_slice(b"row")?;
    put_field(out, &at.0)?;
    put_field(out, &at.1)?;
    put_progress(out, progress)?;
    out.push(b'\n')?;
    Ok(())
}

/// Adds the lines of instances.
fn put_items(out: &mut Vec<u8>, items: &BTreeMap<Text, Instance>) -> Result<(), AllocError>
    ensures adds { OnOk result
        (AddsAll out.old.items out.new.items item_then (values_of items.now.entries)) }
    ensures ordered { tree.IsOrdered text_cmp items.now }
{
    for (_uid, item) in items {
        put_item(out, item)?;
    }
    Ok(())
}

/// Adds the lines of arrivals.
fn put_arrivals(out: &mut Vec<u8>, arrivals: &BTreeSet<(Text, Text)>) -> Result<(), AllocError>
    ensures adds { OnOk result
        (AddsAll out.old.items out.new.items arrival_then arrivals.now.keys) }
    ensures ordered { sorted.IsOrdered pair_cmp arrivals.now }
{
    for at in arrivals {
        put_arrival(out, at)?;
    }
    Ok(())
}

/// Adds the lines of kept uids.
fn put_all_kept(out: &mut Vec<u8>, kept: &BTreeSet<Text>) -> Result<(), AllocError>
    ensures adds { OnOk result (AddsAll out.old.items out.new.items kept_then kept.now.keys) }
    ensures ordered { sorted.IsOrdered text_cmp kept.now }
{
    for uid in kept {
        put_kept(out, uid)?;
    }
    Ok(())
}

/// Adds the lines of rows.
fn put_rows(out: &mut Vec<u8>, rows: &BTreeMap<(Text, Text), Progress>) -> Result<(), AllocError>
    ensures adds { OnOk result (AddsAll out.old.items out.new.items row_then rows.now.entries) }
    ensures ordered { tree.IsOrdered pair_cmp rows.now }
{
    for (at, progress) in rows {
        put_row(out, at, *progress)?;
    }
    Ok(())
}

/// Adds the last line.
fn put_end(out: &mut Vec<u8>, count: u64) -> Result<(), AllocError>
    ensures { OnOk result (Adds out.old.items out.new.items (end_then count)) }
{
    out.extend_from_slice(b"lines")?;
    put_number(out, count)?;
    out.push(b'\n')?;
    Ok(())
}

/// The text of the balance of so many lines of a journal, which made these instances by uid,
/// arrivals, kept uids and rows. It takes time and memory by its length.
pub fn put_balance(
    alloc: Global,
    count: u64,
    items: &BTreeMap<Text, Instance>,
    arrivals: &BTreeSet<(Text, Text)>,
    kept: &BTreeSet<Text>,
    rows: &BTreeMap<(Text, Text), Progress>,
) -> Result<Vec<u8>, AllocError>
    ensures text { IfOk result (λ bytes. bytes.items
        ≡ balance_text (balance_of count items.now arrivals.now kept.now rows.now)) }
    ensures ordered { IfOk result (λ bytes.
        AreOrdered items.now arrivals.now kept.now rows.now) }
{
    let mut out = Vec::new(alloc);
    put_items(&mut out, items)?;
    put_arrivals(&mut out, arrivals)?;
    put_all_kept(&mut out, kept)?;
    put_rows(&mut out, rows)?;
    put_end(&mut out, count)?;
    put_seal(out)
}
