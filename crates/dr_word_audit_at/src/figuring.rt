//! How much the nodes have whose journals these are.

use dr_base::Text;
use dr_cert::Sealed;
use dr_ledger::Row;
use dr_ledger_history::{History, HistoryFault, JournalLine, copy_line};
use dr_run_ask::AskFault;
use dr_site::{Site, SiteFault};
use dr_word_audit::counting::{Figures, figures_of};
use dr_word_audit::figuring::node_line;
use dr_world_audit::audit::NodeJournal;
use dr_world_audit::{count_past, tell_past};
use std::alloc::{AllocError, Global};
use std::collections::BTreeSet;

/// What came: the UIDs, and with each where it goes on to.
#[derive(Drop)]
struct CameUids {
    uids: BTreeSet<Text>,
    rows: BTreeSet<(Text, Text)>,
}

/// Adds what a line says that came.
fn add_came(came: &mut CameUids, line: &JournalLine) -> Result<(), AllocError> {
    let JournalLine::Arrival {
        caller: _,
        instance,
        to,
        keep: _,
    } = line
    else {
        return Ok(());
    };
    for dest in to.as_slice() {
        came.rows.insert((instance.uid.clone()?, dest.clone()?))?;
    }
    came.uids.insert(instance.uid.clone()?)?;
    Ok(())
}

/// What the lines say that came.
fn came_by(alloc: Global, lines: &[JournalLine]) -> Result<CameUids, AllocError> {
    let mut came = CameUids {
        uids: BTreeSet::new(alloc),
        rows: BTreeSet::new(alloc),
    };
    for line in lines {
        add_came(&mut came, line)?;
    }
    Ok(came)
}

/// What the lines of the node of that site make.
///
/// Errors: NoCall where they are no history; Memory.
fn history_of(alloc: Global, site: &Site, lines: &[JournalLine]) -> Result<History, HistoryFault> {
    let (past, since) = lines.split_at(count_past(lines));
    let mut history = tell_past(alloc, past)?;
    for line in since {
        match history.tell(site, copy_line(line)?) {
            Ok(next) => history = next,
            Err(fault) => return Err(fault),
        }
    }
    Ok(history)
}

/// How many of the UIDs are kept.
fn kept_among(history: &History, uids: &BTreeSet<Text>) -> usize {
    let mut count: usize = 0;
    for uid in uids {
        if history.is_kept(uid) {
            count = count.saturating_add(1);
        }
    }
    count
}

/// The rows that there are of these.
fn rows_among(
    alloc: Global,
    history: &History,
    rows: &BTreeSet<(Text, Text)>,
) -> Result<Vec<Row>, AllocError> {
    let mut all = Vec::new(alloc);
    for at in rows {
        if let Some(progress) = history.row(at) {
            all.push(((at.0.clone()?, at.1.clone()?), progress))?;
        }
    }
    Ok(all)
}

/// How much the node of that site has with these lines.
///
/// Errors: NoCall where they are no history; Memory.
fn figures_by(
    alloc: Global,
    site: &Site,
    others: &[Text],
    lines: &[JournalLine],
) -> Result<Figures, HistoryFault> {
    let came = came_by(alloc, lines)?;
    let history = history_of(alloc, site, lines)?;
    let kept = kept_among(&history, &came.uids);
    let rows = rows_among(alloc, &history, &came.rows)?;
    drop(history);
    Ok(figures_of(others, lines, kept, rows.as_slice()))
}

/// The site of the node whose journal it is.
///
/// Errors: OtherNode where the plan has no such node; Memory.
fn site_of(alloc: Global, sealed: &Sealed, node: &NodeJournal) -> Result<Site, AskFault> {
    match Site::of(alloc, sealed, &node.name) {
        Ok(site) => Ok(site),
        Err(SiteFault::NoNode) => Err(AskFault::OtherNode),
        Err(SiteFault::Memory) => Err(AskFault::Memory),
    }
}

/// Adds the line that tells how much the node has whose journal it is.
///
/// Errors: OtherNode, NoNodesAnswer where the journal is no history; Memory.
fn add_told(
    alloc: Global,
    sealed: &Sealed,
    others: &[Text],
    node: &NodeJournal,
    told: &mut Vec<u8>,
) -> Result<(), AskFault> {
    let site = site_of(alloc, sealed, node)?;
    let figures = match figures_by(alloc, &site, others, node.lines.as_slice()) {
        Ok(figures) => figures,
        Err(HistoryFault::NoCall) => return Err(AskFault::NoNodesAnswer),
        Err(HistoryFault::Memory) => return Err(AskFault::Memory),
    };
    drop(site);
    let line = node_line(alloc, &node.name, &figures)?;
    told.extend_from_slice(line.as_bytes())?;
    Ok(())
}

/// The lines that tell how much the nodes have.
///
/// Errors: those of `add_told`.
pub(crate) fn told_of(
    alloc: Global,
    sealed: &Sealed,
    others: &[Text],
    nodes: &[NodeJournal],
) -> Result<Vec<u8>, AskFault> {
    let mut told = Vec::new(alloc);
    for node in nodes {
        add_told(alloc, sealed, others, node, &mut told)?;
    }
    Ok(told)
}
