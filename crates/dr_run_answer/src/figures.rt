//! Figures in the text format of Prometheus.
ghost use Rattle.std.specs.Prelude.{◌≡◌, ◌++◌, OnOk, decimal, flat_map};
ghost use Rattle.dr_run_answer.specs.Answers.{figure, figure_head, figures, queues_figures};
ghost use Rattle.dr_run_answer.specs.Answers.{age_figure, age_of, age_told, ages_figures};
ghost use Rattle.dr_run_answer.specs.Answers.{rows_figure, stages_figures};
ghost use Rattle.dr_run_answer.specs.Answers.{labelled, open_figure, stages_of, twice_labelled};
ghost use Rattle.dr_run_answer.specs.Answers.{label_part, other_part, value_part};
ghost use Rattle.dr_run_answer.specs.Answers.{visits_figure, visits_figures, visits_of};

use crate::json::{Counts, Queue};
use dr_base::Text;
use dr_base::fields::add_decimal;
use dr_base_quoted::{put_text, put_words};
use std::alloc::AllocError;

/// Adds what stands before the number of a figure of the whole node.
pub(crate) fn put_head(out: &mut Vec<u8>, name: &str, kind: &str) -> Result<(), AllocError>
    ensures { OnOk result (out.new.items ≡ out.old.items ++ figure_head name.now kind.now) }
{
    out.extend_from_slice(b"# TYPE ")?;
    out.extend_from_slice(name.as_bytes())?;
    out.extend_from_slice(b" ")?;
    out.extend_from_slice(kind.as_bytes())?;
    out.extend_from_slice(b"\n")?;
    out.extend_from_slice(name.as_bytes())?;
    out.extend_from_slice(b" ")
}

/// Adds a figure of the whole node.
pub(crate) fn put_figure(
    out: &mut Vec<u8>,
    name: &str,
    kind: &str,
    value: u64,
) -> Result<(), AllocError>
    ensures { OnOk result (out.new.items ≡ out.old.items ++ figure name.now kind.now value) }
{
    put_head(out, name, kind)?;
    add_decimal(out, value)?;
    out.extend_from_slice(b"\n")
}

/// Adds how much a node has.
pub fn put_figures(out: &mut Vec<u8>, counts: Counts) -> Result<(), AllocError>
    ensures { OnOk result (out.new.items ≡ out.old.items ++ figures counts) }
{
    put_figure(out, "dr_router_arrivals", "gauge", counts.arrivals)?;
    put_figure(out, "dr_router_kept", "gauge", counts.kept)?;
    put_figure(out, "dr_router_journal_lines", "counter", counts.lines)?;
    put_figure(out, "dr_router_store_failures", "counter", counts.failures)
}

/// Adds how many associations are open.
pub fn put_open(out: &mut Vec<u8>, count: u64) -> Result<(), AllocError>
    ensures { OnOk result (out.new.items ≡ out.old.items ++ open_figure count) }
{
    put_figure(out, "dr_router_associations", "gauge", count)
}

/// Adds a figure's name and its first label.
fn put_label(out: &mut Vec<u8>, name: &str, label: &str, of: &Text) -> Result<(), AllocError>
    ensures { OnOk result
        (out.new.items ≡ out.old.items ++ label_part name.now label.now of.now) }
{
    out.extend_from_slice(name.as_bytes())?;
    out.extend_from_slice(b"{")?;
    out.extend_from_slice(label.as_bytes())?;
    out.extend_from_slice(b"=")?;
    put_text(out, of)
}

/// Adds the end of a figure with labels.
fn put_value(out: &mut Vec<u8>, value: u64) -> Result<(), AllocError>
    ensures { OnOk result (out.new.items ≡ out.old.items ++ value_part value) }
{
    out.extend_from_slice(b"} ")?;
    add_decimal(out, value)?;
    out.extend_from_slice(b"\n")
}

/// Adds a figure with a label.
pub(crate) fn put_labelled(
    out: &mut Vec<u8>,
    name: &str,
    label: &str,
    of: &Text,
    value: u64,
) -> Result<(), AllocError>
    ensures { OnOk result
        (out.new.items ≡ out.old.items ++ labelled name.now label.now of.now value) }
{
    put_label(out, name, label, of)?;
    put_value(out, value)
}

/// Adds a second label.
fn put_other(out: &mut Vec<u8>, other: &str, to: &str) -> Result<(), AllocError>
    ensures { OnOk result (out.new.items ≡ out.old.items ++ other_part other.now to.now) }
{
    out.extend_from_slice(b",")?;
    out.extend_from_slice(other.as_bytes())?;
    out.extend_from_slice(b"=")?;
    put_words(out, to)
}

/// Adds a figure with two labels.
pub(crate) fn put_twice_labelled(
    out: &mut Vec<u8>,
    name: &str,
    label: &str,
    of: &Text,
    other: &str,
    to: &str,
    value: u64,
) -> Result<(), AllocError>
    ensures { OnOk result (out.new.items ≡ out.old.items
        ++ twice_labelled name.now label.now of.now other.now to.now value) }
{
    put_label(out, name, label, of)?;
    put_other(out, other, to)?;
    put_value(out, value)
}

/// Adds how many rows to a node are at a stage.
fn put_rows(out: &mut Vec<u8>, dest: &Text, state: &str, value: u64) -> Result<(), AllocError>
    ensures { OnOk result (out.new.items ≡ out.old.items ++ rows_figure dest.now state.now value) }
{
    put_twice_labelled(out, "dr_router_rows", "dest", dest, "state", state, value)
}

/// Adds how many rows to a node wait, are held and are done.
fn put_stages(out: &mut Vec<u8>, queue: &Queue<'_>) -> Result<(), AllocError>
    ensures { OnOk result (out.new.items ≡ out.old.items ++ stages_of queue.now) }
{
    put_rows(out, queue.dest, "waiting", queue.waiting)?;
    put_rows(out, queue.dest, "held", queue.held)?;
    put_rows(out, queue.dest, "done", queue.done)
}

/// The same for each node.
fn put_each(out: &mut Vec<u8>, queues: &[Queue<'_>]) -> Result<(), AllocError>
    ensures { OnOk result (out.new.items ≡ out.old.items ++ flat_map stages_of queues.now) }
{
    for queue in queues {
        put_stages(out, queue)?;
    }
    Ok(())
}

/// Adds how many rows to each node wait, are held and are done.
fn put_all_stages(out: &mut Vec<u8>, queues: &[Queue<'_>]) -> Result<(), AllocError>
    ensures { OnOk result (out.new.items ≡ out.old.items ++ stages_figures queues.now) }
{
    out.extend_from_slice(b"# TYPE dr_router_rows gauge\n")?;
    put_each(out, queues)?;
    Ok(())
}

/// For how many seconds a row to a node has waited, as it is told where so many wait.
fn age_told(waiting: u64, waited: Option<u64>) -> Option<u64>
    ensures { result ≡ age_told waiting waited }
{
    match waited {
        Some(seconds) => Some(seconds),
        None => { if waiting == 0 { Some(0) } else { None } }
    }
}

/// Adds for how many seconds a row to a node has waited, where that is known.
fn put_known_age(out: &mut Vec<u8>, dest: &Text, seconds: Option<u64>) -> Result<(), AllocError>
    ensures { OnOk result (out.new.items ≡ out.old.items ++ age_figure dest.now seconds) }
{
    match seconds {
        Some(seconds) => put_labelled(
            out,
            "dr_router_oldest_waiting_seconds",
            "dest",
            dest,
            seconds,
        ),
        None => Ok(()),
    }
}

/// Adds for how long a row to a node has waited, where that is known.
fn put_age(out: &mut Vec<u8>, queue: &Queue<'_>) -> Result<(), AllocError>
    ensures { OnOk result (out.new.items ≡ out.old.items ++ age_of queue.now) }
{
    let seconds = age_told(queue.waiting, queue.waited);
    put_known_age(out, queue.dest, seconds)
}

/// The same for each node.
fn put_each_age(out: &mut Vec<u8>, queues: &[Queue<'_>]) -> Result<(), AllocError>
    ensures { OnOk result (out.new.items ≡ out.old.items ++ flat_map age_of queues.now) }
{
    for queue in queues {
        put_age(out, queue)?;
    }
    Ok(())
}

/// Adds for how long a row to each node has waited.
fn put_ages(out: &mut Vec<u8>, queues: &[Queue<'_>]) -> Result<(), AllocError>
    ensures { OnOk result (out.new.items ≡ out.old.items ++ ages_figures queues.now) }
{
    out.extend_from_slice(b"# TYPE dr_router_oldest_waiting_seconds gauge\n")?;
    put_each_age(out, queues)?;
    Ok(())
}

/// Adds how many rows to each node wait, are held and are done, and for how long they have waited.
pub fn put_queues(out: &mut Vec<u8>, queues: &[Queue<'_>]) -> Result<(), AllocError>
    ensures { OnOk result (out.new.items ≡ out.old.items ++ queues_figures queues.now) }
{
    put_all_stages(out, queues)?;
    put_ages(out, queues)?;
    Ok(())
}

/// Adds how many visits to a node ended so.
fn put_came(out: &mut Vec<u8>, dest: &Text, came: &str, value: u64) -> Result<(), AllocError>
    ensures { OnOk result (out.new.items ≡ out.old.items ++ visits_figure dest.now came.now value) }
{
    put_twice_labelled(
        out,
        "dr_router_visits_total",
        "dest",
        dest,
        "came",
        came,
        value,
    )
}

/// Adds in which ways the visits to a node ended.
fn put_visits_of(out: &mut Vec<u8>, queue: &Queue<'_>) -> Result<(), AllocError>
    ensures { OnOk result (out.new.items ≡ out.old.items ++ visits_of queue.now) }
{
    put_came(out, queue.dest, "released", queue.visits.released)?;
    put_came(out, queue.dest, "rejected", queue.visits.rejected)?;
    put_came(out, queue.dest, "aborted", queue.visits.aborted)?;
    put_came(out, queue.dest, "closed", queue.visits.closed)?;
    put_came(out, queue.dest, "unreached", queue.visits.unreached)?;
    put_came(out, queue.dest, "failed", queue.visits.failed)?;
    Ok(())
}

/// The same for each node.
fn put_each_visits(out: &mut Vec<u8>, queues: &[Queue<'_>]) -> Result<(), AllocError>
    ensures { OnOk result (out.new.items ≡ out.old.items ++ flat_map visits_of queues.now) }
{
    for queue in queues {
        put_visits_of(out, queue)?;
    }
    Ok(())
}

/// Adds in which ways the visits to each node ended.
pub fn put_visits(out: &mut Vec<u8>, queues: &[Queue<'_>]) -> Result<(), AllocError>
    ensures { OnOk result (out.new.items ≡ out.old.items ++ visits_figures queues.now) }
{
    out.extend_from_slice(b"# TYPE dr_router_visits_total counter\n")?;
    put_each_visits(out, queues)?;
    Ok(())
}
