//! The same, of the rows as a ledger lists them.
ghost use Rattle.std.specs.Prelude.{◌≡◌, ◌++◌, IfOk, OnOk, Some};
ghost use Rattle.dr_ledger_views.specs.Earlier.{earlier};
ghost use Rattle.dr_ledger_views.specs.Views.{IsLeast, caller_if, callers_among, due_for, due_of};
ghost use Rattle.dr_ledger_views.specs.Views.{dues, how_many, is_at, is_behind, is_of, is_to};
ghost use Rattle.dr_ledger_views.specs.Views.{is_wanted, page_of, rows_of};

use crate::stage::Stage;
use dr_base::{Seq, Text};
use dr_ledger::{Progress, Row};
use std::alloc::{AllocError, Global};

/// Whether a row is at the stage, if one is named.
pub fn is_at(stage: Option<Stage>, progress: Progress) -> bool
    ensures { result ≡ is_at stage progress }
{
    match stage {
        Some(named) => named.number() == Stage::of(progress).number(),
        None => true,
    }
}

/// Whether the row goes to the destination, and is at the stage, if one is named.
pub fn is_to(row: &Row, dest: &Text, stage: Option<Stage>) -> bool
    ensures { result ≡ is_to dest.now stage row.now }
{
    row.0.1 == *dest && is_at(stage, row.1)
}

/// How many of the rows go there and are at the stage.
pub fn how_many(rows: &[Row], dest: &Text, stage: Stage) -> u64
    ensures { result ≡ how_many rows.now dest.now (Some stage) }
{
    let mut count = 0;
    for row in rows {
        if is_to(row, dest, Some(stage)) {
            count += 1;
        }
    }
    count
}

/// Whether the row's uid comes behind this one.
fn is_behind(row: &Row, after: &Text) -> bool
    ensures { result ≡ is_behind after.now row.now }
{
    *after < row.0.0
}

/// Whether the row goes there, is at the stage, if one is named, and comes behind that uid.
fn is_wanted(row: &Row, dest: &Text, stage: Option<Stage>, after: &Text) -> bool
    ensures { result ≡ is_wanted dest.now stage after.now row.now }
{
    is_to(row, dest, stage) && is_behind(row, after)
}

/// A copy of the row.
fn copied(row: &Row) -> Result<Row, AllocError>
    ensures { IfOk result (λ copy. copy ≡ row.now) }
{
    let uid = row.0.0.clone()?;
    let dest = row.0.1.clone()?;
    Ok(((uid, dest), row.1))
}

/// A page of the rows.
pub fn page_of(
    alloc: Global,
    rows: &[Row],
    dest: &Text,
    stage: Option<Stage>,
    after: &Text,
    limit: u32,
) -> Result<Seq<Row>, AllocError>
    ensures { IfOk result (λ all. all ≡ page_of rows.now dest.now stage after.now limit) }
{
    let mut all = Seq::new(alloc);
    let mut left = limit;
    for row in rows {
        if left == 0 {
            return Ok(all);
        }
        if is_wanted(row, dest, stage, after) {
            all.push(copied(row)?)?;
            left -= 1;
        }
    }
    Ok(all)
}

/// Whether the row is the instance's.
fn is_of(row: &Row, uid: &Text) -> bool
    ensures { result ≡ is_of uid.now row.now }
{
    row.0.0 == *uid
}

/// The rows of an instance.
pub fn rows_of(alloc: Global, rows: &[Row], uid: &Text) -> Result<Seq<Row>, AllocError>
    ensures { IfOk result (λ all. all ≡ rows_of rows.now uid.now) }
{
    let mut all = Seq::new(alloc);
    for row in rows {
        if is_of(row, uid) {
            all.push(copied(row)?)?;
        }
    }
    Ok(all)
}

/// Adds the caller of an arrival, where it is of the instance.
fn add_caller(callers: &mut Seq<Text>, arrival: &(Text, Text), uid: &Text) -> Result<(), AllocError>
    ensures { OnOk result (callers.new ≡ callers.old ++ caller_if uid.now arrival.now) }
{
    if arrival.1 == *uid {
        return callers.push(arrival.0.clone()?);
    }
    Ok(())
}

/// The callers of those of the arrivals that are of the instance, in the order of the arrivals.
pub fn callers_of(
    alloc: Global,
    arrivals: &[(Text, Text)],
    uid: &Text,
) -> Result<Seq<Text>, AllocError>
    ensures { IfOk result (λ callers. callers ≡ callers_among arrivals.now uid.now) }
{
    let mut callers = Seq::new(alloc);
    for arrival in arrivals {
        add_caller(&mut callers, arrival, uid)?;
    }
    Ok(callers)
}

/// The moment from which on a row that waits is due.
fn due_of(progress: Progress) -> Option<u64>
    ensures { result ≡ due_of progress }
{
    match progress {
        Progress::Waiting { tries: _, due } => Some(due),
        Progress::Held(_) => None,
        Progress::Done => None,
        Progress::Dropped => None,
    }
}

/// The same, where the row goes to the destination.
fn due_for(row: &Row, dest: &Text) -> Option<u64>
    ensures { result ≡ due_for dest.now row.now }
{
    if row.0.1 == *dest {
        return due_of(row.1);
    }
    None
}

/// The earlier of two moments; where there is one alone, that.
fn earlier(first: Option<u64>, second: Option<u64>) -> Option<u64>
    ensures { result ≡ earlier first second }
{
    let Some(this) = first else {
        return second;
    };
    let Some(that) = second else {
        return first;
    };
    Some(this.min(that))
}

/// The moment from which on the first row to the destination that waits is due.
pub fn first_due(rows: &[Row], dest: &Text) -> Option<u64>
    ensures { IsLeast (dues rows.now dest.now) result }
{
    let mut least = None;
    for row in rows {
        least = earlier(least, due_for(row, dest));
    }
    least
}
