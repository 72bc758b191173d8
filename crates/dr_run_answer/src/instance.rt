//! An instance: who brought it, and its rows, with the moment of their last try where that is
//! known.
ghost use Rattle.std.specs.Prelude.{◌≡◌, ◌++◌, OnOk, flat_map};
ghost use Rattle.dr_run_answer.specs.Answers.{from_line, last_try, own_row_line, tried_at};
ghost use Rattle.dr_run_answer.specs.Answers.{tried_part};

use crate::json::put_progress;
use dr_base::Text;
use dr_base_quoted::put_text;
use dr_ledger::{Progress, seconds};
use dr_ledger_text::{put_named, put_number};
use std::alloc::AllocError;

/// When a row was tried last that waits until that moment (milliseconds) after so many tries; None
/// where it wasn't tried.
fn tried_at(tries: u32, due: u64) -> Option<u64>
    ensures { result ≡ tried_at tries due }
{
    if tries == 0 {
        return None;
    }
    Some(due.saturating_sub(1000 * seconds(tries)))
}

/// When a row was tried last, where its progress tells it.
fn last_try(progress: Progress) -> Option<u64>
    ensures { result ≡ last_try progress }
{
    match progress {
        Progress::Waiting { tries, due } => tried_at(tries, due),
        Progress::Held(_) => None,
        Progress::Done => None,
        Progress::Dropped => None,
    }
}

/// Adds when a row was tried last, where that is known.
fn put_tried(out: &mut Vec<u8>, progress: Progress) -> Result<(), AllocError>
    ensures { OnOk result (out.new.items ≡ out.old.items ++ tried_part (last_try progress)) }
{
    match last_try(progress) {
        Some(moment) => put_number(out, "tried", moment),
        None => Ok(()),
    }
}

/// Adds the line of a row.
fn put_own_row(
    out: &mut Vec<u8>,
    uid: &Text,
    dest: &Text,
    progress: Progress,
) -> Result<(), AllocError>
    ensures { OnOk result
        (out.new.items ≡ out.old.items ++ own_row_line ((uid.now, dest.now), progress)) }
{
    out.extend_from_slice(b"{\"uid\":")?;
    put_text(out, uid)?;
    put_named(out, "dest", dest)?;
    put_progress(out, progress)?;
    put_tried(out, progress)?;
    out.extend_from_slice(b"}\n")?;
    Ok(())
}

/// Adds a line for each of the rows of an instance.
pub fn put_own_rows(out: &mut Vec<u8>, rows: &[((Text, Text), Progress)]) -> Result<(), AllocError>
    ensures { OnOk result (out.new.items ≡ out.old.items ++ flat_map own_row_line rows.now) }
{
    for row in rows {
        put_own_row(out, &row.0.0, &row.0.1, row.1)?;
    }
    Ok(())
}

/// Adds the line of a caller who brought an instance.
fn put_from(out: &mut Vec<u8>, caller: &Text) -> Result<(), AllocError>
    ensures { OnOk result (out.new.items ≡ out.old.items ++ from_line caller.now) }
{
    out.extend_from_slice(b"{\"from\":")?;
    put_text(out, caller)?;
    out.extend_from_slice(b"}\n")?;
    Ok(())
}

/// Adds a line for each caller who brought an instance.
pub fn put_froms(out: &mut Vec<u8>, callers: &[Text]) -> Result<(), AllocError>
    ensures { OnOk result (out.new.items ≡ out.old.items ++ flat_map from_line callers.now) }
{
    for caller in callers {
        put_from(out, caller)?;
    }
    Ok(())
}
