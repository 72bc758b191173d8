//! The option `--long` of the word `list`: the lines of a report, each with the class of its
//! instance by its name and the date when it came.
ghost use Rattle.std.specs.Prelude.{◌≡◌};

use crate::date::put_date;
use dr_base::fields::{add_field, add_number};
use dr_base::{Seq, Text};
use dr_ledger::{LedgerFault, Progress};
use dr_ledger_report::{put_cause, put_name};
use dr_ledger_views::{Origin, Views};
use dr_plan_expand::lookup::class_name;
use dr_run_open::Opened;
use std::alloc::{AllocError, Global};

const LF: u8 = 10;

/// A line as far as no instance has to be looked up for it, and the UID of its instance.
#[derive(Drop)]
struct Draft {
    line: Vec<u8>,
    uid: Text,
}

/// Adds the name that the standard has for a class as a field, or else its UID.
pub fn put_class(out: &mut Vec<u8>, class: &Text) -> Result<(), AllocError> {
    match class_name(class.as_bytes()) {
        Some(name) => add_field(out, name.as_bytes()),
        None => add_field(out, class.as_bytes()),
    }
}

/// The moment from which on a row is due that waits; None where it was never tried.
fn known(due: u64) -> Option<u64> {
    if due == 0 {
        return None;
    }
    Some(due)
}

/// Adds how far a row is, with dates.
fn put_stage(out: &mut Vec<u8>, progress: Progress) -> Result<(), AllocError> {
    match progress {
        Progress::Waiting { tries, due } => {
            add_field(out, b"waiting")?;
            add_number(out, tries as u64)?;
            put_date(out, known(due))
        }
        Progress::Held(cause) => {
            add_field(out, b"held")?;
            put_cause(out, cause)
        }
        Progress::Done => add_field(out, b"done"),
        Progress::Dropped => add_field(out, b"dropped"),
    }
}

/// The begun line of an arrival.
fn arrival_begun(alloc: Global, arrival: &(Text, Text)) -> Result<Draft, AllocError> {
    let mut line = Vec::new(alloc);
    line.extend_from_slice(b"arrival")?;
    add_field(&mut line, arrival.0.as_bytes())?;
    add_field(&mut line, arrival.1.as_bytes())?;
    let uid = arrival.1.clone()?;
    Ok(Draft { line, uid })
}

/// The begun line of a kept instance.
fn kept_begun(alloc: Global, kept: &(Text, u64)) -> Result<Draft, AllocError> {
    let mut line = Vec::new(alloc);
    line.extend_from_slice(b"kept")?;
    add_field(&mut line, kept.0.as_bytes())?;
    add_number(&mut line, kept.1)?;
    let uid = kept.0.clone()?;
    Ok(Draft { line, uid })
}

/// The begun line of a row.
fn row_begun(alloc: Global, row: &((Text, Text), Progress)) -> Result<Draft, AllocError> {
    let mut line = Vec::new(alloc);
    line.extend_from_slice(b"row")?;
    add_field(&mut line, row.0.0.as_bytes())?;
    add_field(&mut line, row.0.1.as_bytes())?;
    put_stage(&mut line, row.1)?;
    let uid = row.0.0.clone()?;
    Ok(Draft { line, uid })
}

/// The begun lines of these arrivals.
fn begin_arrivals(
    alloc: Global,
    begun: &mut Vec<Draft>,
    arrivals: &[(Text, Text)],
) -> Result<(), AllocError> {
    for arrival in arrivals {
        begun.push(arrival_begun(alloc, arrival)?)?;
    }
    Ok(())
}

/// The begun lines of these kept instances.
fn begin_kept(
    alloc: Global,
    begun: &mut Vec<Draft>,
    kept: &[(Text, u64)],
) -> Result<(), AllocError> {
    for one in kept {
        begun.push(kept_begun(alloc, one)?)?;
    }
    Ok(())
}

/// The begun lines of these rows.
fn begin_rows(
    alloc: Global,
    begun: &mut Vec<Draft>,
    rows: &[((Text, Text), Progress)],
) -> Result<(), AllocError> {
    for row in rows {
        begun.push(row_begun(alloc, row)?)?;
    }
    Ok(())
}

/// The begun lines of what a ledger lists.
fn begin_all(
    alloc: Global,
    arrivals: &Seq<(Text, Text)>,
    kept: &Seq<(Text, u64)>,
    rows: &Seq<((Text, Text), Progress)>,
) -> Result<Vec<Draft>, AllocError> {
    let mut begun = Vec::new(alloc);
    begin_arrivals(alloc, &mut begun, arrivals.as_slice())?;
    begin_kept(alloc, &mut begun, kept.as_slice())?;
    begin_rows(alloc, &mut begun, rows.as_slice())?;
    Ok(begun)
}

/// Adds a begun line, and where its instance is from.
fn put_ended(out: &mut Vec<u8>, begun: &Draft, origin: Option<Origin>) -> Result<(), AllocError> {
    out.extend_from_slice(begun.line.as_slice())?;
    match origin {
        Some(origin) => {
            put_class(out, &origin.class)?;
            put_date(out, origin.moment)?;
        }
        None => {
            add_field(out, b"-")?;
            add_field(out, b"-")?;
        }
    }
    out.push(LF)?;
    Ok(())
}

/// Adds these lines, each with where its instance is from. The ledger is only read.
///
/// Errors: Store, Memory.
fn put_all<L: Views>(out: &mut Vec<u8>, ledger: &mut L, begun: &[Draft]) -> Result<(), LedgerFault>
    ensures same { L.stands ledger.new → L.book ledger.new ≡ L.book ledger.old }
    ensures stood { L.stands ledger.new → L.stands ledger.old }
{
    for one in begun {
        let origin = ledger.origin_of(&one.uid)?;
        put_ended(out, one, origin)?;
    }
    Ok(())
}

/// The long report of a node with this ledger, which is only read.
///
/// Errors: Store, Memory.
fn long_of<L: Views>(alloc: Global, name: &Text, ledger: &mut L) -> Result<Text, LedgerFault>
    ensures same { L.stands ledger.new → L.book ledger.new ≡ L.book ledger.old }
    ensures stood { L.stands ledger.new → L.stands ledger.old }
{
    let arrivals = ledger.arrivals()?;
    let kept = ledger.kept()?;
    let rows = ledger.rows()?;
    let lines = ledger.lines()?;
    let begun = begin_all(alloc, &arrivals, &kept, &rows)?;
    let mut out = Vec::new(alloc);
    put_name(&mut out, name)?;
    put_all(&mut out, ledger, begun.as_slice())?;
    out.extend_from_slice(b"lines")?;
    add_number(&mut out, lines.len() as u64)?;
    out.push(LF)?;
    Ok(Text::from_vec(out))
}

/// The long report of a node that was opened.
///
/// Errors: Store, Memory.
pub(crate) fn list_opened_long<L: Views + Drop>(
    alloc: Global,
    opened: &mut Opened<L>,
) -> Result<Text, LedgerFault>
    ensures same { L.stands opened.new.ledger
        → L.book opened.new.ledger ≡ L.book opened.old.ledger }
{
    long_of(alloc, opened.site.name(), &mut opened.ledger)
}
