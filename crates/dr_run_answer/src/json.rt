//! Lines of JSON.
ghost use Rattle.std.specs.Prelude.{◌≡◌, ◌++◌, OnOk};
ghost use Rattle.dr_run_answer.specs.Answers.{came_part, cause_part, done_line, due_part};
ghost use Rattle.dr_run_answer.specs.Answers.{fault_line};
ghost use Rattle.dr_run_answer.specs.Answers.{held_part, instance_line, late_line};
ghost use Rattle.dr_run_answer.specs.Answers.{line_of_node, line_of_queue, origin_part};
ghost use Rattle.dr_run_answer.specs.Answers.{progress_part, row_line, visit_part, waiting_part};
ghost use Rattle.dr_run_answer.specs.Answers.{waited_part, well_line};

use dr_base::Text;
use dr_base_quoted::{put_quoted, put_text};
use dr_ledger::{Cause, Progress};
use dr_ledger_text::{put_flag, put_named, put_number, put_said, put_word};
use dr_ledger_views::Origin;
use std::alloc::AllocError;

/// Which node it is: its name, the digest of its plan in lower-case hexadecimal digits, the version
/// of its program, and since when it serves (milliseconds).
#[derive(Clone, Copy, Drop)]
pub struct Identity<'a> {
    pub name: &'a Text,
    pub plan: &'a str,
    pub version: &'a str,
    pub since: u64,
}

/// How much a node has: accepted arrivals, kept instances, lines of the journal, and how often the
/// store has failed.
#[derive(Clone, Copy, PartialEq, Eq)]
pub struct Counts {
    pub arrivals: u64,
    pub kept: u64,
    pub lines: u64,
    pub failures: u64,
}

/// A visit to a node: when it ended (milliseconds), and what it came to, in a word.
#[derive(Clone, Copy)]
pub struct Visited {
    pub at: u64,
    pub came: &'static str,
}

/// How many visits to a node ended in each way, since this one serves.
#[derive(Clone, Copy, PartialEq, Eq)]
pub struct Visits {
    pub released: u64,
    pub rejected: u64,
    pub aborted: u64,
    pub closed: u64,
    pub unreached: u64,
    pub failed: u64,
}

/// How many rows to a node wait, are held and are done, from which moment on the first one that
/// waits is due (milliseconds), the last visit to it, if it is known, and how its visits ended.
#[derive(Drop)]
pub struct Queue<'a> {
    pub dest: &'a Text,
    pub waiting: u64,
    pub held: u64,
    pub done: u64,
    pub due: Option<u64>,
    /// For how many seconds the row that is there longest has waited, where one waits.
    pub waited: Option<u64>,
    pub visit: Option<Visited>,
    pub visits: Visits,
}

/// Adds why a row is held.
fn put_cause(out: &mut Vec<u8>, cause: Cause) -> Result<(), AllocError>
    ensures { OnOk result (out.new.items ≡ out.old.items ++ cause_part cause) }
{
    match cause {
        Cause::Status(status) => {
            let bytes = status.to_be_bytes();
            let alloc = *out.allocator();
            let digits = hex::encode_upper(alloc, bytes.as_slice())?;
            put_word(out, "cause", digits.as_bytes())
        }
        Cause::NoContext => put_word(out, "cause", b"no-context"),
        Cause::Unreadable => put_word(out, "cause", b"unreadable"),
    }
}

/// Adds that a row waits: how often it was tried, and from when on it is due.
fn put_waiting(out: &mut Vec<u8>, tries: u64, due: u64) -> Result<(), AllocError>
    ensures { OnOk result (out.new.items ≡ out.old.items ++ waiting_part tries due) }
{
    put_word(out, "state", b"waiting")?;
    put_number(out, "tries", tries)?;
    put_number(out, "due", due)?;
    Ok(())
}

/// Adds that a row is held, and why.
fn put_held(out: &mut Vec<u8>, cause: Cause) -> Result<(), AllocError>
    ensures { OnOk result (out.new.items ≡ out.old.items ++ held_part cause) }
{
    put_word(out, "state", b"held")?;
    put_cause(out, cause)?;
    Ok(())
}

/// Adds how far a row is.
pub(crate) fn put_progress(out: &mut Vec<u8>, progress: Progress) -> Result<(), AllocError>
    ensures { OnOk result (out.new.items ≡ out.old.items ++ progress_part progress) }
{
    match progress {
        Progress::Waiting { tries, due } => put_waiting(out, u64::from(tries), due),
        Progress::Held(cause) => put_held(out, cause),
        Progress::Done => put_word(out, "state", b"done"),
        Progress::Dropped => put_word(out, "state", b"dropped"),
    }
}

/// Adds the line of a row.
pub fn put_row(
    out: &mut Vec<u8>,
    uid: &Text,
    dest: &Text,
    progress: Progress,
) -> Result<(), AllocError>
    ensures { OnOk result
        (out.new.items ≡ out.old.items ++ row_line ((uid.now, dest.now), progress)) }
{
    out.extend_from_slice(b"{\"uid\":")?;
    put_text(out, uid)?;
    put_word(out, "dest", dest.as_bytes())?;
    put_progress(out, progress)?;
    out.extend_from_slice(b"}\n")?;
    Ok(())
}

/// Adds when an instance came, where that is known.
fn put_came(out: &mut Vec<u8>, moment: Option<u64>) -> Result<(), AllocError>
    ensures { OnOk result (out.new.items ≡ out.old.items ++ came_part moment) }
{
    match moment {
        Some(moment) => put_number(out, "came", moment),
        None => Ok(()),
    }
}

/// Adds where an instance is from, where that is known.
fn put_origin(out: &mut Vec<u8>, origin: &Option<Origin>) -> Result<(), AllocError>
    ensures { OnOk result (out.new.items ≡ out.old.items ++ origin_part origin.now) }
{
    match origin {
        Some(origin) => {
            put_named(out, "class", &origin.class)?;
            put_came(out, origin.moment)
        }
        None => Ok(()),
    }
}

/// Adds the line of an instance: whether its data set is there, whether all its rows are over, and
/// where it is from.
pub fn put_instance(
    out: &mut Vec<u8>,
    uid: &Text,
    body: bool,
    over: bool,
    origin: &Option<Origin>,
) -> Result<(), AllocError>
    ensures { OnOk result
        (out.new.items ≡ out.old.items ++ instance_line uid.now body over origin.now) }
{
    out.extend_from_slice(b"{\"instance\":")?;
    put_text(out, uid)?;
    put_flag(out, "body", body)?;
    put_flag(out, "over", over)?;
    put_origin(out, origin)?;
    out.extend_from_slice(b"}\n")?;
    Ok(())
}

/// Adds the line of a node.
pub fn put_node(out: &mut Vec<u8>, node: &Identity<'_>, counts: Counts) -> Result<(), AllocError>
    ensures { OnOk result (out.new.items ≡ out.old.items ++ line_of_node node.now counts) }
{
    out.extend_from_slice(b"{\"node\":")?;
    put_text(out, node.name)?;
    put_said(out, "plan", node.plan)?;
    put_said(out, "version", node.version)?;
    put_number(out, "since", node.since)?;
    put_number(out, "arrivals", counts.arrivals)?;
    put_number(out, "kept", counts.kept)?;
    put_number(out, "lines", counts.lines)?;
    put_number(out, "failures", counts.failures)?;
    out.extend_from_slice(b"}\n")?;
    Ok(())
}

/// Adds the moment from which on the first row is due that waits.
fn put_due(out: &mut Vec<u8>, due: Option<u64>) -> Result<(), AllocError>
    ensures { OnOk result (out.new.items ≡ out.old.items ++ due_part due) }
{
    match due {
        Some(due) => put_number(out, "due", due),
        None => Ok(()),
    }
}

/// Adds when the last visit to a node ended, and what it came to.
fn put_visit(out: &mut Vec<u8>, visit: Option<Visited>) -> Result<(), AllocError>
    ensures { OnOk result (out.new.items ≡ out.old.items ++ visit_part visit) }
{
    let Some(visit) = visit else {
        return Ok(());
    };
    put_number(out, "visited", visit.at)?;
    put_word(out, "came", visit.came.as_bytes())?;
    Ok(())
}

/// Adds for how long a row has waited, where one waits.
fn put_waited(out: &mut Vec<u8>, waited: Option<u64>) -> Result<(), AllocError>
    ensures { OnOk result (out.new.items ≡ out.old.items ++ waited_part waited) }
{
    match waited {
        Some(seconds) => put_number(out, "waited", seconds),
        None => Ok(()),
    }
}

/// Adds the line of the rows to a node.
pub fn put_queue(out: &mut Vec<u8>, queue: &Queue<'_>) -> Result<(), AllocError>
    ensures { OnOk result (out.new.items ≡ out.old.items ++ line_of_queue queue.now) }
{
    out.extend_from_slice(b"{\"dest\":")?;
    put_text(out, queue.dest)?;
    put_number(out, "waiting", queue.waiting)?;
    put_number(out, "held", queue.held)?;
    put_number(out, "done", queue.done)?;
    put_due(out, queue.due)?;
    put_waited(out, queue.waited)?;
    put_visit(out, queue.visit)?;
    out.extend_from_slice(b"}\n")?;
    Ok(())
}

/// Adds the line of an act that was done.
pub fn put_done(out: &mut Vec<u8>) -> Result<(), AllocError>
    ensures { OnOk result (out.new.items ≡ out.old.items ++ done_line) }
{
    out.extend_from_slice(b"{\"done\":true}\n")
}

/// Adds the line of a node that is well.
pub fn put_well(out: &mut Vec<u8>) -> Result<(), AllocError>
    ensures { OnOk result (out.new.items ≡ out.old.items ++ well_line) }
{
    out.extend_from_slice(b"{\"well\":true}\n")
}

/// Adds the line of a fault.
pub fn put_fault(out: &mut Vec<u8>, fault: &str) -> Result<(), AllocError>
    ensures { OnOk result (out.new.items ≡ out.old.items ++ fault_line fault.now) }
{
    out.extend_from_slice(b"{\"fault\":")?;
    put_quoted(out, fault.as_bytes())?;
    out.extend_from_slice(b"}\n")?;
    Ok(())
}

/// Adds the line of a node to which a row is due, and which wasn't visited for long.
pub fn put_late(out: &mut Vec<u8>, dest: &Text) -> Result<(), AllocError>
    ensures { OnOk result (out.new.items ≡ out.old.items ++ late_line dest.now) }
{
    out.extend_from_slice(b"{\"fault\":\"Late\",\"dest\":")?;
    put_text(out, dest)?;
    out.extend_from_slice(b"}\n")?;
    Ok(())
}
