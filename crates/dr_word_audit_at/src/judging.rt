//! The audit of journals of nodes that run.
ghost use Rattle.std.specs.Prelude.{◌≡◌, IfOk, MatchOption, length};
ghost use Rattle.dr_world_audit.specs.declared.audit.AuditVerdict.TheVariants as verdict;
ghost use Rattle.dr_word_audit_at.specs.Cuts.{HasNone, IsFor, IsJudged, IsRound, MovesFor};

use crate::cutting::{CutJournals, MissingLine, cut_all, join_all, move_cut};
use crate::moving::first_cuts;
use dr_base::Text;
use dr_cert::Sealed;
use dr_world_audit::audit::{AuditFault, AuditVerdict, Mismatch, NodeJournal, audit};
use std::alloc::{AllocError, Global};

/// The journals that were audited, each cut somewhere, and what the audit comes to.
#[derive(Drop)]
pub struct Judged {
    pub journals: Vec<NodeJournal>,
    pub verdict: AuditVerdict,
}

/// What would mend a mismatch, and at which node it would stand; None where nothing would.
fn missing_of(mismatch: &Mismatch) -> Result<Option<(MissingLine, Text)>, AllocError>
    ensures { IfOk result (λ found. MatchOption found (HasNone mismatch.now)
        (λ both. IsFor mismatch.now both.0 both.1)) }
{
    match mismatch {
        Mismatch::NoHistory { .. } => Ok(None),
        Mismatch::NoHop { .. } => Ok(None),
        Mismatch::NotFair { .. } => Ok(None),
        Mismatch::NoArrival { node, uid, to } => {
            let (uid, from, at) = (uid.clone()?, node.clone()?, to.clone()?);
            Ok(Some((MissingLine::CameFrom { uid, from }, at)))
        }
        Mismatch::NoReason { node, uid, from } => {
            let (uid, to, at) = (uid.clone()?, node.clone()?, from.clone()?);
            Ok(Some((MissingLine::GoesOn { uid, to }, at)))
        }
    }
}

/// Moves the cut of a journal on, so that the mismatch is mended; whether a line mends it.
///
/// Errors: want of memory.
fn further_for(
    mismatch: &Mismatch,
    counts: &mut Vec<usize>,
    read: &[NodeJournal],
) -> Result<bool, AllocError>
    requires { length counts.old.items ≡ length read.now }
    ensures { IfOk result
        (MovesFor read.now (verdict.No mismatch.now) counts.old.items counts.new.items) }
{
    let Some((missing, name)) = missing_of(mismatch)? else {
        return Ok(false);
    };
    Ok(move_cut(&missing, &name, counts, read))
}

/// The same of a verdict.
///
/// Errors: want of memory.
fn further(
    verdict: &AuditVerdict,
    counts: &mut Vec<usize>,
    read: &[NodeJournal],
) -> Result<bool, AllocError>
    requires { length counts.old.items ≡ length read.now }
    ensures { IfOk result
        (MovesFor read.now verdict.now counts.old.items counts.new.items) }
{
    match verdict {
        AuditVerdict::Holds => Ok(false),
        AuditVerdict::No(mismatch) => further_for(mismatch, counts, read),
    }
}

/// What comes of an audit of journals cut somewhere.
#[derive(Drop)]
enum Round {
    /// Nothing behind the cuts mends what doesn't match.
    Over(Judged),
    /// A cut was moved on; these are the journals, uncut.
    Moved(Vec<NodeJournal>),
}

/// Audits the journals cut at these numbers, and moves a cut on where that mends a mismatch.
///
/// Errors: those of `audit`; Memory.
fn try_cuts(
    alloc: Global,
    sealed: &Sealed,
    counts: &mut Vec<usize>,
    read: Vec<NodeJournal>,
) -> Result<Round, AuditFault>
    requires { length counts.old.items ≡ length read.items }
    ensures { IfOk result
        (IsRound sealed.now.plan read.items counts.old.items counts.new.items) }
{
    let cut = cut_all(alloc, counts.as_slice(), read)?;
    let verdict = audit(alloc, sealed, cut.journals.as_slice())?;
    let read = join_all(alloc, cut)?;
    let is_moved = further(&verdict, counts, read.as_slice())?;
    if is_moved {
        return Ok(Round::Moved(read));
    }
    let cut = cut_all(alloc, counts.as_slice(), read)?;
    let CutJournals { journals, rests: _ } = cut;
    Ok(Round::Over(Judged { journals, verdict }))
}

/// Audits journals that were read of nodes that run, of which so many lines were there first. They
/// are cut there; and as long as a line behind the cuts mends what doesn't match, the cut of its
/// journal is put behind the next one. No cut is moved for another reason, and no line is copied.
///
/// Errors: those of `audit`; Memory.
pub fn judge(
    alloc: Global,
    sealed: &Sealed,
    first: Vec<usize>,
    read: Vec<NodeJournal>,
) -> Result<Judged, AuditFault>
    requires { length first.items ≡ length read.items }
    ensures { IfOk result (λ judged.
        IsJudged sealed.now.plan first.items read.items judged.journals.items judged.verdict) }
{
    let mut counts = first_cuts(alloc, read.as_slice(), first.as_slice())?;
    let mut left = read;
    for _round in 0..u64::MAX {
        match try_cuts(alloc, sealed, &mut counts, left)? {
            Round::Over(judged) => return Ok(judged),
            Round::Moved(back) => left = back,
        }
    }
    Err(AuditFault::Memory)
}
