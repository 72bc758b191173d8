//! What is told of a running node now and then: a report of what it has, and a summary in the log.
use crate::events::{tell_holdings, tell_queue, tell_unread, tell_unwritten};
use crate::intake::MINUTE;
use crate::live::LiveNode;
use crate::monitor::Monitor;
use dr_base::Text;
use dr_desk::{Holdings, SharedDesk, Sharing};
use dr_ledger::{Ledger, LedgerFault};
use dr_ledger_report::report_text;
use dr_ledger_views::{HopTally, Views};
use dr_run_open::NextHop;
use dr_session::Clock;
use log::{Level, Log, log_enabled};
use std::alloc::Global;
use std::io;
use std::sync::Wait;

/// Between two reports are so many milliseconds at least.
pub const PERIOD: u64 = 10_000;

/// How many lines the journal had when the node was told of last, if it was; and from which moment
/// on it may be told of again.
#[derive(Clone, Copy)]
struct Telling {
    lines: Option<u64>,
    next: u64,
}

impl Telling {
    /// Whether it is to be told now that the journal has so many lines; at the end at once.
    fn is_due(&self, lines: u64, now: u64, is_over: bool) -> bool {
        self.lines != Some(lines) && (is_over || now >= self.next)
    }

    /// It is tried again as late as the next report.
    fn later(self, now: u64) -> Telling {
        Telling {
            lines: self.lines,
            next: now.saturating_add(PERIOD),
        }
    }
}

/// When the node was told of last, by reports and by summaries.
#[derive(Clone, Copy)]
pub struct LastTold {
    report: Telling,
    summary: Telling,
}

impl LastTold {
    /// Nothing was told yet.
    pub fn new() -> LastTold {
        let never = Telling {
            lines: None,
            next: 0,
        };
        LastTold {
            report: never,
            summary: never,
        }
    }
}

/// How many rows to each hop are at which stage. The lock is given back between one hop and the
/// next.
///
/// Errors: Store, Memory.
fn tallies_of<R: Wait, L: Views, B: Sharing>(
    rt: &R,
    alloc: Global,
    desk: &SharedDesk<L, B>,
    hops: &[NextHop],
) -> Result<Vec<HopTally>, LedgerFault> {
    let mut tallies = Vec::with_capacity(alloc, hops.len())?;
    for hop in hops {
        tallies.push(desk.tally(rt, &hop.dest)?)?;
    }
    Ok(tallies)
}

/// Logs how many rows to each hop are at which stage.
fn tell_queues<G: Log>(hops: &[NextHop], tallies: &[HopTally], log: &G) {
    for (hop, tally) in hops.iter().zip(tallies.iter()) {
        let stages = [tally.waiting, tally.held, tally.done];
        tell_queue(log, &hop.dest, stages, tally.due);
    }
}

/// Logs how much the node has, and for each node to which it sends how many rows are at which
/// stage: all of it, or nothing. How many lines the journal had then.
///
/// Errors: Store, Memory.
fn summarize<R: Wait, L: Views, B: Sharing, C: Clock, G: Log>(
    node: &LiveNode<'_, R, L, B, C, G>,
) -> Result<u64, LedgerFault> {
    let (hops, log) = (node.hops, node.log);
    let totals = node.desk.totals(node.rt)?;
    let tallies = tallies_of(node.rt, node.alloc, node.desk, hops)?;
    tell_holdings(log, totals.arrivals, totals.kept, totals.lines);
    tell_queues(hops, tallies.as_slice(), log);
    Ok(totals.lines)
}

/// Reports what the node has.
///
/// Errors: those of the monitor; want of memory.
fn report<G: Monitor>(
    alloc: Global,
    name: &Text,
    holdings: &Holdings,
    monitor: &G,
) -> io::Result<()> {
    let text = report_text(
        alloc,
        name,
        &holdings.arrivals,
        &holdings.kept,
        &holdings.rows,
        holdings.lines,
    )?;
    monitor.report(alloc, &text)
}

/// Reports what the node has; how many lines the journal had then. None where that couldn't be
/// read or written.
fn try_report<R: Wait, L: Ledger, B: Sharing, C: Clock, G: Monitor>(
    node: &LiveNode<'_, R, L, B, C, G>,
) -> Option<u64> {
    let (desk, monitor) = (node.desk, node.log);
    let holdings = match desk.holdings(node.rt) {
        Ok(holdings) => holdings,
        Err(fault) => {
            tell_unread(monitor, fault);
            return None;
        }
    };
    match report(node.alloc, desk.site().name(), &holdings, monitor) {
        Ok(()) => Some(holdings.lines),
        Err(error) => {
            tell_unwritten(monitor, &error);
            None
        }
    }
}

/// Tells of the node if its journal has grown since it was told of last, and it is time to. What
/// couldn't be read or written is tried again as late as the next report.
pub fn report_changes<R: Wait, L: Views, B: Sharing, C: Clock, G: Monitor>(
    node: &LiveNode<'_, R, L, B, C, G>,
    told: LastTold,
    now: u64,
    is_over: bool,
) -> LastTold {
    let (mut told, monitor) = (told, node.log);
    let lines = node.desk.line_count(node.rt);
    let is_logged = log_enabled!(monitor; target: "node", Level::Info);
    if is_logged && told.summary.is_due(lines, now, is_over) {
        told.summary = match summarize(node) {
            Ok(lines) => Telling {
                lines: Some(lines),
                next: now.saturating_add(MINUTE),
            },
            Err(fault) => {
                tell_unread(monitor, fault);
                told.summary.later(now)
            }
        };
    }
    if monitor.wants_reports() && told.report.is_due(lines, now, is_over) {
        told.report = told.report.later(now);
        if let Some(lines) = try_report(node) {
            told.report.lines = Some(lines);
        }
    }
    told
}
