//! What a first arrival puts in.
ghost use Rattle.std.specs.Prelude.{◌≡◌, IfOk, T};
ghost use Rattle.std.specs.FinMap.{is_sorted};
ghost use Rattle.dr_base.specs.Texts.{text_cmp};
ghost use Rattle.dr_ledger_memory.specs.Bringings.{AreCopies, IsFor, IsJoined, IsLine};

use crate::holding::filled;
use crate::parts::Bringing;
use dr_base::Text;
use dr_ledger::{Instance, Item, Progress};
use dr_ledger_history::JournalLine;
use dr_route::Targets;
use std::alloc::{AllocError, Global};

/// All that the item's first arrival from the caller puts in, for these targets, where its uid has
/// these rows.
pub fn bringing(
    alloc: Global,
    caller: &Text,
    item: Item,
    targets: Targets,
    rows: &[(Text, Progress)],
) -> Result<Bringing, AllocError>
    requires { T (is_sorted text_cmp rows.now) }
    ensures { IfOk result (IsFor caller.now item targets rows.now) }
{
    match copied(alloc, caller, &item, targets.to.as_slice(), rows) {
        Ok(copies) => Ok(joined(item, targets, copies)),
        Err(fault) => Err(fault),
    }
}

/// What is copied for it: nothing else of it takes memory.
#[derive(Drop)]
struct Copies {
    arrival: (Text, Text),
    instance: Instance,
    rows: Vec<(Text, Progress)>,
    line: CopiedLine,
}

/// What is copied for its line.
#[derive(Drop)]
struct CopiedLine {
    caller: Text,
    instance: Instance,
}

fn copied(
    alloc: Global,
    caller: &Text,
    item: &Item,
    to: &[Text],
    rows: &[(Text, Progress)],
) -> Result<Copies, AllocError>
    requires { T (is_sorted text_cmp rows.now) }
    ensures { IfOk result (AreCopies caller.now item.now to.now rows.now) }
{
    let arrival = arrival_of(caller, item.uid())?;
    let rows = filled(alloc, rows, to)?;
    let instance = item.instance()?;
    let line = line_of(caller, item)?;
    Ok(Copies {
        arrival,
        instance,
        rows,
        line,
    })
}

fn line_of(caller: &Text, item: &Item) -> Result<CopiedLine, AllocError>
    ensures { IfOk result (IsLine caller.now item.now) }
{
    let caller = caller.clone()?;
    let instance = item.instance()?;
    Ok(CopiedLine { caller, instance })
}

/// The copies with what the item and the targets have. Nothing fails here, so that nothing is let
/// go by halves.
fn joined(item: Item, targets: Targets, copies: Copies) -> Bringing
    ensures { IsJoined item targets copies result }
{
    let job = item.into_job();
    let note = JournalLine::Arrival {
        caller: copies.line.caller,
        instance: copies.line.instance,
        to: targets.to,
        keep: targets.keep,
    };
    Bringing {
        arrival: copies.arrival,
        uid: job.uid,
        instance: copies.instance,
        rows: copies.rows,
        keep: targets.keep,
        body: job.body,
        note,
    }
}

/// What an arrival is noted by.
pub fn arrival_of(caller: &Text, uid: &Text) -> Result<(Text, Text), AllocError>
    ensures { IfOk result (λ arrival. arrival ≡ (caller.now, uid.now)) }
{
    let caller = caller.clone()?;
    let uid = uid.clone()?;
    Ok((caller, uid))
}
