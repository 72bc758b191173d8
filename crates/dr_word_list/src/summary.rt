//! The option `--summary` of the word `list`.
ghost use Rattle.std.specs.Prelude.{◌≡◌, ◌++◌, IfOk, OnOk, Some, decimal};
ghost use Rattle.dr_base.specs.Texts.{Text as Words, next_field};
ghost use Rattle.dr_ledger_views.specs.Views.{IsLeast, dues, how_many as number_of};
ghost use Rattle.dr_ledger_views.specs.declared.stage.Stage.TheVariants as stages;
ghost use Rattle.dr_run_open.specs.Hops.{hops_from};
ghost use Rattle.dr_word_list.specs.Summaries.{AreQueueLines, IsQueueLine, IsSummary, IsSummaryOf};
ghost use Rattle.dr_word_list.specs.Summaries.{count_line, queue_line};

use dr_base::Text;
use dr_base::fields::{add_field, add_number};
use dr_ledger::{Ledger, LedgerFault, Row};
use dr_ledger_report::{put_moment, put_name};
use dr_ledger_views::Stage;
use dr_ledger_views::listed::{first_due, how_many};
use dr_run_open::{NextHop, Opened, hops_of};
use std::alloc::{AllocError, Global};

const LF: u8 = 10;

/// Adds the line of a kind, with how many there are.
fn put_count(out: &mut Vec<u8>, word: &[u8], count: usize) -> Result<(), AllocError>
    ensures { OnOk result (out.new.items ≡ out.old.items ++ count_line word.now count) }
{
    out.extend_from_slice(word)?;
    add_number(out, count as u64)?;
    out.push(LF)?;
    Ok(())
}

/// How many rows to a node wait, are held and are done, and from when on the first one that waits
/// is due.
#[derive(Clone, Copy)]
pub struct QueueCounts {
    pub waiting: u64,
    pub held: u64,
    pub done: u64,
    pub oldest: Option<u64>,
}

/// Adds a number behind its word.
fn put_counted(out: &mut Vec<u8>, word: &[u8], count: u64) -> Result<(), AllocError>
    ensures { OnOk result
        (out.new.items ≡ out.old.items ++ (next_field word.now ++ next_field (decimal count))) }
{
    add_field(out, word)?;
    add_number(out, count)
}

/// Adds the line of the rows to a node, of which there are so many.
pub fn put_queue_line(out: &mut Vec<u8>, dest: &[u8], counts: QueueCounts) -> Result<(), AllocError>
    ensures { OnOk result
        (out.new.items
        ≡ out.old.items
        ++ queue_line dest.now counts.waiting counts.held counts.done counts.oldest) }
{
    out.extend_from_slice(b"queue")?;
    add_field(out, dest)?;
    put_counted(out, b"waiting", counts.waiting)?;
    put_counted(out, b"held", counts.held)?;
    put_counted(out, b"done", counts.done)?;
    add_field(out, b"oldest")?;
    put_moment(out, counts.oldest)?;
    out.push(LF)?;
    Ok(())
}

/// How many of the rows go there, and from when on the first one that waits is due.
fn counts_of(rows: &[Row], dest: &Text) -> QueueCounts
    ensures waiting { result.waiting ≡ number_of rows.now dest.now (Some stages.Waiting) }
    ensures held { result.held ≡ number_of rows.now dest.now (Some stages.Held) }
    ensures done { result.done ≡ number_of rows.now dest.now (Some stages.Done) }
    ensures oldest { IsLeast (dues rows.now dest.now) result.oldest }
{
    QueueCounts {
        waiting: how_many(rows, dest, Stage::Waiting),
        held: how_many(rows, dest, Stage::Held),
        done: how_many(rows, dest, Stage::Done),
        oldest: first_due(rows, dest),
    }
}

/// Adds the line of a node to which this one sends.
fn put_queue(out: &mut Vec<u8>, rows: &[Row], dest: &Text) -> Result<(), AllocError>
    ensures { OnOk result
        ((line : Words)
        × IsQueueLine rows.now dest.now line
        × (out.new.items ≡ out.old.items ++ line)) }
{
    let counts = counts_of(rows, dest);
    put_queue_line(out, dest.as_bytes(), counts)?;
    Ok(())
}

/// Adds the lines of the nodes to which these hops lead.
fn put_queues(out: &mut Vec<u8>, rows: &[Row], hops: &[NextHop]) -> Result<(), AllocError>
    ensures { OnOk result
        ((lines : Words)
        × AreQueueLines rows.now hops.now lines
        × (out.new.items ≡ out.old.items ++ lines)) }
{
    for hop in hops {
        put_queue(out, rows, &hop.dest)?;
    }
    Ok(())
}

/// The lines of a node with so many arrivals and kept instances, these rows, and so many lines in
/// its journal.
fn summary_text(
    alloc: Global,
    name: &Text,
    hops: &[NextHop],
    arrivals: usize,
    kept: usize,
    rows: &[Row],
    lines: usize,
) -> Result<Text, AllocError>
    ensures { IfOk result (λ text. IsSummary name.now hops.now arrivals kept rows.now lines text) }
{
    let mut out = Vec::new(alloc);
    put_name(&mut out, name)?;
    put_count(&mut out, b"arrivals", arrivals)?;
    put_count(&mut out, b"kept", kept)?;
    put_queues(&mut out, rows, hops)?;
    put_count(&mut out, b"lines", lines)?;
    Ok(Text::from_vec(out))
}

/// How much a node with these hops and this ledger has. The ledger is only read.
///
/// Errors: Store, Memory.
fn summary_of<L: Ledger>(
    alloc: Global,
    name: &Text,
    hops: &[NextHop],
    ledger: &mut L,
) -> Result<Text, LedgerFault>
    ensures summary { IfOk result (λ text.
        L.stands ledger.new → IsSummaryOf name.now hops.now (L.book ledger.new) text) }
    ensures same { L.stands ledger.new → L.book ledger.new ≡ L.book ledger.old }
    ensures stood { L.stands ledger.new → L.stands ledger.old }
{
    let arrivals = ledger.arrivals()?;
    let kept = ledger.kept()?;
    let rows = ledger.rows()?;
    let lines = ledger.lines()?;
    let text = summary_text(
        alloc,
        name,
        hops,
        arrivals.len(),
        kept.len(),
        rows.as_slice(),
        lines.len(),
    )?;
    Ok(text)
}

/// How much a node that was opened has.
///
/// Errors: Store, Memory.
pub(crate) fn summarize_opened<L: Ledger + Drop>(
    alloc: Global,
    opened: &mut Opened<L>,
) -> Result<Text, LedgerFault>
    ensures summary { IfOk result (λ text. L.stands opened.new.ledger
        → IsSummaryOf opened.old.site.name (hops_from opened.old.site opened.old.sealed.plan.nodes)
        (L.book opened.new.ledger) text) }
    ensures same { L.stands opened.new.ledger
        → L.book opened.new.ledger ≡ L.book opened.old.ledger }
{
    let hops = hops_of(alloc, &opened.site, opened.sealed.plan())?;
    summary_of(
        alloc,
        opened.site.name(),
        hops.as_slice(),
        &mut opened.ledger,
    )
}
