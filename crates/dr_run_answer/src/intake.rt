//! What callers have brought.
ghost use Rattle.std.specs.Prelude.{◌≡◌, ◌++◌, OnOk, flat_map};
ghost use Rattle.dr_run_answer.specs.Answers.{brought_figure, brought_figures, brought_of};
ghost use Rattle.dr_run_answer.specs.Answers.{bytes_figures, bytes_of, recent_line};

use crate::figures::{put_labelled, put_twice_labelled};
use dr_base::Text;
use dr_base_quoted::put_text;
use dr_ledger_text::{put_named, put_number};
use std::alloc::AllocError;

/// What a caller has brought since the node serves: how many instances that were new, were there
/// already, or were refused, and how many bytes the data sets of the new ones have.
#[derive(Drop)]
pub struct Brought {
    pub caller: Text,
    pub stored: u64,
    pub again: u64,
    pub refused: u64,
    pub bytes: u64,
}

/// What came within the last hour from a caller, of a modality (0008,0060): how many instances were
/// taken, and how many refused.
#[derive(Drop)]
pub struct Recent {
    pub caller: Text,
    pub modality: Text,
    pub stored: u64,
    pub refused: u64,
}

/// Adds the line of what came from a caller, of a modality.
fn put_recent(out: &mut Vec<u8>, recent: &Recent) -> Result<(), AllocError>
    ensures { OnOk result (out.new.items ≡ out.old.items ++ recent_line recent.now) }
{
    out.extend_from_slice(b"{\"from\":")?;
    put_text(out, &recent.caller)?;
    put_named(out, "modality", &recent.modality)?;
    put_number(out, "stored", recent.stored)?;
    put_number(out, "refused", recent.refused)?;
    out.extend_from_slice(b"}\n")?;
    Ok(())
}

/// Adds a line for each caller and modality of which something came.
pub fn put_recents(out: &mut Vec<u8>, recents: &[Recent]) -> Result<(), AllocError>
    ensures { OnOk result (out.new.items ≡ out.old.items ++ flat_map recent_line recents.now) }
{
    for recent in recents {
        put_recent(out, recent)?;
    }
    Ok(())
}

/// Adds how many instances of a caller were answered so.
fn put_answered(
    out: &mut Vec<u8>,
    caller: &Text,
    answer: &str,
    value: u64,
) -> Result<(), AllocError>
    ensures { OnOk result
        (out.new.items ≡ out.old.items ++ brought_figure caller.now answer.now value) }
{
    put_twice_labelled(
        out,
        "dr_router_instances_total",
        "caller",
        caller,
        "answer",
        answer,
        value,
    )
}

/// Adds what a caller has brought.
fn put_brought(out: &mut Vec<u8>, brought: &Brought) -> Result<(), AllocError>
    ensures { OnOk result (out.new.items ≡ out.old.items ++ brought_of brought.now) }
{
    put_answered(out, &brought.caller, "stored", brought.stored)?;
    put_answered(out, &brought.caller, "again", brought.again)?;
    put_answered(out, &brought.caller, "refused", brought.refused)
}

/// The same of each caller.
fn put_each_brought(out: &mut Vec<u8>, callers: &[Brought]) -> Result<(), AllocError>
    ensures { OnOk result (out.new.items ≡ out.old.items ++ flat_map brought_of callers.now) }
{
    for brought in callers {
        put_brought(out, brought)?;
    }
    Ok(())
}

/// Adds how many instances each caller has brought.
pub fn put_callers(out: &mut Vec<u8>, callers: &[Brought]) -> Result<(), AllocError>
    ensures { OnOk result (out.new.items ≡ out.old.items ++ brought_figures callers.now) }
{
    out.extend_from_slice(b"# TYPE dr_router_instances_total counter\n")?;
    put_each_brought(out, callers)?;
    Ok(())
}

/// Adds how many bytes those have that were stored of a caller.
fn put_bytes_of(out: &mut Vec<u8>, brought: &Brought) -> Result<(), AllocError>
    ensures { OnOk result (out.new.items ≡ out.old.items ++ bytes_of brought.now) }
{
    put_labelled(
        out,
        "dr_router_stored_bytes_total",
        "caller",
        &brought.caller,
        brought.bytes,
    )
}

/// The same of each caller.
fn put_all_bytes(out: &mut Vec<u8>, callers: &[Brought]) -> Result<(), AllocError>
    ensures { OnOk result (out.new.items ≡ out.old.items ++ flat_map bytes_of callers.now) }
{
    for brought in callers {
        put_bytes_of(out, brought)?;
    }
    Ok(())
}

/// Adds how many bytes those have that were stored of each caller.
pub fn put_stored_bytes(out: &mut Vec<u8>, callers: &[Brought]) -> Result<(), AllocError>
    ensures { OnOk result (out.new.items ≡ out.old.items ++ bytes_figures callers.now) }
{
    out.extend_from_slice(b"# TYPE dr_router_stored_bytes_total counter\n")?;
    put_all_bytes(out, callers)?;
    Ok(())
}
