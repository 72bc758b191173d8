//! The option `--all-held` of the word `requeue`.
ghost use Rattle.std.specs.Prelude.{◌≡◌, ◌++◌, IfOk, MatchResult, OnOk, flat_map};
ghost use Rattle.dr_word_list.specs.Requeuings.{RequeuesAll, RequeuesEach};
ghost use Rattle.dr_word_list.specs.Requeuings.{RequeuesFirst, RequeuesFirstOf, held_in, uid_line};

use dr_base::Text;
use dr_ledger::{Ledger, LedgerFault, Row};
use dr_ledger_views::Stage;
use dr_ledger_views::listed::is_to;
use std::alloc::{AllocError, Global};

const TAB: u8 = 9;

const LF: u8 = 10;

/// The uids of the rows that are held and for that node, in the order of the rows.
fn held_in(alloc: Global, rows: &[Row], dest: &Text) -> Result<Vec<Text>, AllocError>
    ensures { IfOk result (λ uids. uids.items ≡ held_in rows.now dest.now) }
{
    let mut uids = Vec::new(alloc);
    for row in rows {
        if is_to(row, dest, Some(Stage::Held)) {
            uids.push(row.0.0.clone()?)?;
        }
    }
    Ok(uids)
}

/// Adds the line of an instance that is queued again.
fn put_uid(out: &mut Vec<u8>, uid: &Text) -> Result<(), AllocError>
    ensures { OnOk result (out.new.items ≡ out.old.items ++ uid_line uid.now) }
{
    out.extend_from_slice(b"requeued")?;
    out.push(TAB)?;
    out.extend_from_slice(uid.as_bytes())?;
    out.push(LF)?;
    Ok(())
}

/// The lines of these instances.
fn lines_of(alloc: Global, uids: &[Text]) -> Result<Text, AllocError>
    ensures { IfOk result (λ text. text ≡ flat_map uid_line uids.now) }
{
    let mut out = Vec::new(alloc);
    for uid in uids {
        put_uid(&mut out, uid)?;
    }
    Ok(Text::from_vec(out))
}

/// Queues the rows of these instances to that node again, one after the other, until one is
/// refused.
///
/// Errors: NotHeld, Store, Memory.
fn requeue_each<L: Ledger>(ledger: &mut L, uids: &[Text], dest: &Text) -> Result<(), LedgerFault>
    ensures each { MatchResult result
        (λ _. L.stands ledger.new
        → RequeuesEach uids.now dest.now (L.book ledger.old) (L.book ledger.new))
        (λ _. L.stands ledger.new
        → RequeuesFirstOf uids.now dest.now (L.book ledger.old) (L.book ledger.new)) }
    ensures stood { L.stands ledger.new → L.stands ledger.old }
{
    for uid in uids {
        ledger.requeue(uid, dest)?;
    }
    Ok(())
}

/// Queues all held rows to that node again. The lines to be printed are made first, so that none is
/// wanting once a row waits.
///
/// Errors: NotHeld, Store, Memory.
pub(crate) fn requeue_held<L: Ledger>(
    alloc: Global,
    ledger: &mut L,
    dest: &str,
) -> Result<Text, LedgerFault>
    ensures { MatchResult result
        (λ text.
        L.stands ledger.new → RequeuesAll dest.now (L.book ledger.old) text (L.book ledger.new))
        (λ _.
        L.stands ledger.new → RequeuesFirst dest.now (L.book ledger.old) (L.book ledger.new)) }
{
    let dest = Text::copy_of(alloc, dest.as_bytes())?;
    let rows = ledger.rows()?;
    let uids = held_in(alloc, rows.as_slice(), &dest)?;
    let text = lines_of(alloc, uids.as_slice())?;
    requeue_each(ledger, uids.as_slice(), &dest)?;
    Ok(text)
}
