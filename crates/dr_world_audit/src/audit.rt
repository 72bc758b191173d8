//! Whether a site's own journals match.
ghost use Rattle.std.specs.Prelude.{◌≡◌, ◌↔◌, Contains, IfErr, IfOk, IsTrue, MatchResult};
ghost use Rattle.std.specs.Prelude.{false, option_copied};
ghost use Rattle.dr_base.specs.Texts.{Text as Words};
ghost use Rattle.dr_plan_model.specs.Networks.{Network};
ghost use Rattle.dr_ledger_history.specs.Lines.{line_of};
ghost use Rattle.dr_world_audit.specs.declared.audit.Mismatch.TheVariants as what;
ghost use Rattle.dr_world_audit.specs.Sites.{AreApart, Audits, FirstUnfair, IsUnfair, TellsNode};
ghost use Rattle.dr_world_audit.specs.Sites.{is_fair as is_fair_outcome, names};
ghost use Rattle.dr_world_audit.specs.Stops.{Compares, IsVerdictOf, ReadsAll, ReadsNode, StopsFor};
ghost use Rattle.dr_world_audit.specs.Stops.{IsFaultOf, IsTwice, Refuses, TestsAnswers};

use crate::comparing::{first_unanswered, first_unsent, in_order, is_ours};
use crate::fault::JournalFault;
use crate::place::HopPlace;
use crate::reading::read_journal;
use crate::trail::Trail;
use dr_base::{Seq, Text};
use dr_cert::Sealed;
use dr_ledger::Outcome;
use dr_ledger_history::JournalLine;
use dr_site::{Site, SiteFault};
use std::alloc::{AllocError, AllocFailed, Global};
use std::collections::BTreeSet;
use thiserror::Error;

/// The journal of one of ours: all its lines, in order.
#[derive(Drop)]
pub struct NodeJournal {
    pub name: Text,
    pub lines: Seq<JournalLine>,
}

/// What doesn't match.
#[derive(Drop)]
pub enum Mismatch {
    /// The node's lines are no history under the plan.
    NoHistory { node: Text },
    /// The node's row of the instance was carried over, and the plan has no such hop for it.
    NoHop { node: Text, uid: Text, to: Text },
    /// What the node was answered for the instance isn't fair.
    NotFair { node: Text, uid: Text, to: Text },
    /// The node notes that the instance was taken there, and there it hasn't arrived.
    NoArrival { node: Text, uid: Text, to: Text },
    /// The instance arrived from there, and had no reason there to be sent.
    NoReason { node: Text, uid: Text, from: Text },
}

/// What an audit comes to.
#[derive(Drop)]
pub enum AuditVerdict {
    Holds,
    No(Mismatch),
}

/// Why there is no verdict.
#[derive(Clone, Copy, PartialEq, Eq, Debug, Error)]
pub enum AuditFault {
    /// No node of the plan has one of the names.
    #[error("NoNode")]
    NoNode,
    /// Two journals are of one node.
    #[error("Twice")]
    Twice,
    #[error("Memory")]
    Memory,
}

impl From<AllocError> for AuditFault {
    ghost use Rattle.std.specs.Prelude.{◌≡◌};
    ghost use Rattle.dr_world_audit.specs.declared.audit.AuditFault.TheVariants.{Memory};

    ghost from_gives = { λ _ e. e ≡ Memory };

    fn from(_: AllocError) -> AuditFault {
        AuditFault::Memory
    }
}

impl<T: Drop> From<AllocFailed<T>> for AuditFault {
    ghost use Rattle.std.specs.Prelude.{◌≡◌};
    ghost use Rattle.dr_world_audit.specs.declared.audit.AuditFault.TheVariants.{Memory};

    ghost from_gives = { λ _ e. e ≡ Memory };

    fn from(_: AllocFailed<T>) -> AuditFault {
        AuditFault::Memory
    }
}

/// The names of our nodes.
fn names_of(alloc: Global, nodes: &[NodeJournal]) -> Result<BTreeSet<Text>, AuditFault>
    ensures same { IfOk result (λ s.
        (n : Words) → Contains s.keys n ↔ Contains (names nodes.now) n) }
    ensures apart { IfOk result (λ _. AreApart nodes.now) }
    ensures twice { IfErr result (IsTwice nodes.now) }
{
    let mut ours = BTreeSet::new(alloc);
    for node in nodes {
        if is_ours(&node.name, &ours) {
            return Err(AuditFault::Twice);
        }
        ours.insert(node.name.clone()?)?;
    }
    Ok(ours)
}

/// Whether the outcome of a try is one that a sound plan leaves room for between two of its nodes:
/// success, out of resources (`A700H`), a conflict (`C0F1H`), no answer, or a data set that can't
/// be read.
pub fn is_fair(outcome: Outcome) -> bool
    ensures { result ≡ is_fair_outcome outcome }
{
    match outcome {
        Outcome::Status(status) => status == 0 || status == 0xA700 || status == 0xC0F1,
        Outcome::Broken => true,
        Outcome::NoContext => false,
        Outcome::Unreadable => true,
    }
}

/// Whether the line settles a row to one of ours by an outcome that isn't fair.
fn is_unfair(ours: &BTreeSet<Text>, line: &JournalLine) -> bool
    ensures yes { IsTrue result → IsUnfair ours.now.keys (line_of line.now) }
    ensures no { result ≡ false → IsUnfair ours.now.keys (line_of line.now) → ⊥ }
{
    match line {
        JournalLine::Settling {
            uid: _,
            dest,
            outcome,
            now: _,
        } => {
            if is_fair(*outcome) {
                return false;
            }
            is_ours(dest, ours)
        }
        JournalLine::Arrival { .. } => false,
        JournalLine::Repeat { .. } => false,
        JournalLine::Requeuing { .. } => false,
        JournalLine::Dropping { .. } => false,
        JournalLine::Forgetting { .. } => false,
        JournalLine::Adoption => false,
    }
}

/// The first such line.
fn first_unfair<'a>(ours: &BTreeSet<Text>, lines: &'a [JournalLine]) -> Option<&'a JournalLine>
    ensures { FirstUnfair ours.now.keys lines.now (option_copied result) }
{
    for line in lines {
        if is_unfair(ours, line) {
            return Some(line);
        }
    }
    None
}

/// Why the reading of all journals ends.
#[derive(Drop)]
enum AuditStop {
    No(Mismatch),
    Fault(AuditFault),
}

impl From<AllocError> for AuditStop {
    ghost use Rattle.std.specs.Prelude.{◌≡◌};
    ghost use Rattle.dr_world_audit.specs.Stops.{for_memory};

    ghost from_gives = { λ _ e. e ≡ for_memory };

    fn from(_: AllocError) -> AuditStop {
        AuditStop::Fault(AuditFault::Memory)
    }
}

/// Tests that what the node was answered by ours is fair.
fn test_answers(ours: &BTreeSet<Text>, node: &NodeJournal) -> Result<(), AuditStop>
    ensures { (plan : Network) → TestsAnswers plan ours.now.keys node.now result }
{
    let Some(line) = first_unfair(ours, node.lines.as_slice()) else {
        return Ok(());
    };
    let mismatch = unfair_at(ours, node, line)?;
    Err(AuditStop::No(mismatch))
}

/// The mismatch of a line that isn't fair.
fn unfair_at(
    _ours: &BTreeSet<Text>,
    node: &NodeJournal,
    line: &JournalLine,
) -> Result<Mismatch, AllocError>
    requires unfair { IsUnfair _ours.now.keys (line_of line.now) }
    requires among { Contains node.now.lines line.now }
    ensures { (plan : Network) → IfOk result (TellsNode plan _ours.now.keys node.now) }
{
    let name = node.name.clone()?;
    match line {
        JournalLine::Settling {
            uid,
            dest,
            outcome: _,
            now: _,
        } => Ok(Mismatch::NotFair {
            node: name,
            uid: uid.clone()?,
            to: dest.clone()?,
        }),
        JournalLine::Arrival { .. } => Ok(Mismatch::NoHistory { node: name }),
        JournalLine::Repeat { .. } => Ok(Mismatch::NoHistory { node: name }),
        JournalLine::Requeuing { .. } => Ok(Mismatch::NoHistory { node: name }),
        JournalLine::Dropping { .. } => Ok(Mismatch::NoHistory { node: name }),
        JournalLine::Forgetting { .. } => Ok(Mismatch::NoHistory { node: name }),
        JournalLine::Adoption => Ok(Mismatch::NoHistory { node: name }),
    }
}

/// The stop for a fault of a journal.
fn stop_of(node: &NodeJournal, fault: JournalFault) -> AuditStop
    ensures { StopsFor node.now fault result }
{
    let name = match node.name.clone() {
        Ok(name) => name,
        Err(AllocError) => return AuditStop::Fault(AuditFault::Memory),
    };
    match fault {
        JournalFault::NoCall => AuditStop::No(Mismatch::NoHistory { node: name }),
        JournalFault::Unfit { uid, to } => AuditStop::No(Mismatch::NoHop {
            node: name,
            uid,
            to,
        }),
        JournalFault::Memory => AuditStop::Fault(AuditFault::Memory),
    }
}

/// Reads the journal of a node.
fn read_node<'a>(
    alloc: Global,
    sealed: &Sealed,
    ours: &BTreeSet<Text>,
    node: &'a NodeJournal,
    trail: &mut Trail<'a>,
) -> Result<(), AuditStop>
    ensures { ReadsNode sealed.now.plan ours.now.keys node.now trail.old trail.new result }
{
    let _plan = sealed.plan();
    let _certificate = sealed.certificate();
    match test_answers(ours, node) {
        Ok(()) => {}
        Err(stop) => return Err(stop),
    }
    let site = match Site::of(alloc, sealed, &node.name) {
        Ok(site) => site,
        Err(SiteFault::NoNode) => return Err(AuditStop::Fault(AuditFault::NoNode)),
        Err(SiteFault::Memory) => return Err(AuditStop::Fault(AuditFault::Memory)),
    };
    match read_journal(
        alloc,
        sealed,
        &site,
        &node.name,
        node.lines.as_slice(),
        trail,
    ) {
        Ok(()) => Ok(()),
        Err(fault) => Err(stop_of(node, fault)),
    }
}

/// Reads the journals of all nodes.
fn read_all<'a>(
    alloc: Global,
    sealed: &Sealed,
    ours: &BTreeSet<Text>,
    nodes: &'a [NodeJournal],
    trail: &mut Trail<'a>,
) -> Result<(), AuditStop>
    ensures { ReadsAll sealed.now.plan ours.now.keys nodes.now trail.old trail.new result }
{
    for node in nodes {
        match read_node(alloc, sealed, ours, node, trail) {
            Ok(()) => {}
            Err(stop) => return Err(stop),
        }
    }
    Ok(())
}

/// The mismatch of a hop that had no reason.
fn unsent_at(hop: &HopPlace<'_>) -> Result<Mismatch, AllocError>
    ensures { IfOk result (λ m. m ≡ what.NoReason hop.now.to hop.now.uid hop.now.from) }
{
    Ok(Mismatch::NoReason {
        node: hop.to_node().clone()?,
        uid: hop.uid().clone()?,
        from: hop.from_node().clone()?,
    })
}

/// The mismatch of a hop that didn't arrive.
fn unanswered_at(hop: &HopPlace<'_>) -> Result<Mismatch, AllocError>
    ensures { IfOk result (λ m. m ≡ what.NoArrival hop.now.from hop.now.uid hop.now.to) }
{
    Ok(Mismatch::NoArrival {
        node: hop.from_node().clone()?,
        uid: hop.uid().clone()?,
        to: hop.to_node().clone()?,
    })
}

/// The first hop that doesn't match: one that came without a reason, or one that was answered and
/// didn't come.
fn compare<'a>(ours: &BTreeSet<Text>, trail: Trail<'a>) -> Result<Option<Mismatch>, AllocError>
    ensures { IfOk result
        (Compares ours.now.keys trail.entry.came.items trail.entry.sent.items
        trail.entry.done.items) }
{
    let Trail { came, sent, done } = trail;
    let sent = in_order(sent);
    if let Some(hop) = first_unsent(ours, came.as_slice(), sent.as_slice()) {
        let mismatch = unsent_at(hop)?;
        return Ok(Some(mismatch));
    }
    let came = in_order(came);
    if let Some(hop) = first_unanswered(ours, done.as_slice(), came.as_slice()) {
        let mismatch = unanswered_at(hop)?;
        return Ok(Some(mismatch));
    }
    Ok(None)
}

/// The verdict where the reading of journals ended.
fn verdict_of(stop: AuditStop) -> Result<AuditVerdict, AuditFault>
    ensures { MatchResult result (IsVerdictOf stop) (IsFaultOf stop) }
{
    match stop {
        AuditStop::No(mismatch) => Ok(AuditVerdict::No(mismatch)),
        AuditStop::Fault(fault) => Err(fault),
    }
}

/// Whether the journals of our nodes, which stand still, are histories of the sealed plan and
/// match: then the four claims of the headline hold of their books. Else what doesn't match.
///
/// Errors: NoNode where the plan has no node of one of the names; Twice where two journals are of
/// one node; Memory.
pub fn audit(
    alloc: Global,
    sealed: &Sealed,
    nodes: &[NodeJournal],
) -> Result<AuditVerdict, AuditFault>
    ensures { MatchResult result (Audits sealed.now.plan nodes.now)
        (Refuses sealed.now.plan nodes.now) }
{
    let _plan = sealed.plan();
    let ours = names_of(alloc, nodes)?;
    let mut trail = Trail {
        came: Vec::new(alloc),
        sent: Vec::new(alloc),
        done: Vec::new(alloc),
    };
    match read_all(alloc, sealed, &ours, nodes, &mut trail) {
        Ok(()) => {}
        Err(stop) => return verdict_of(stop),
    }
    match compare(&ours, trail)? {
        Some(mismatch) => Ok(AuditVerdict::No(mismatch)),
        None => Ok(AuditVerdict::Holds),
    }
}
