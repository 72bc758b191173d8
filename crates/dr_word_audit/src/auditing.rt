//! The word `audit`.
ghost use Rattle.std.specs.Prelude.{◌≡◌, ◌++◌, IfOk, MatchResult, Ok, map as mapped};
ghost use Rattle.dr_plan_model.specs.Networks.{Network};
ghost use Rattle.dr_run_open.specs.declared.halt.Halt.TheVariants as halts;
ghost use Rattle.dr_world_audit.specs.Sites.{Audits as IsVerdict};
ghost use Rattle.dr_word_audit.specs.Audits.{AreOfNodes, Audits, AuditsBy, IsConclusion, IsToldOf};
ghost use Rattle.dr_word_audit.specs.Audits.{came_of};
ghost use Rattle.dr_word_audit.specs.Endings.{EndsAs, EndsAudit};
ghost use Rattle.dr_word_audit.specs.Figures.{holds_line as first_line};
ghost use Rattle.dr_word_adopt.specs.Names.{text_of};

use crate::audited::Audited;
use crate::figuring::holds_line;
use crate::naming::our_names;
use crate::placing::place_of;
use crate::printing::{mismatch_line, missing_line};
use crate::reading::{Gathered, Gathering, gather};
use dr_base::Text;
use dr_cert::Sealed;
use dr_ledger::Ledger;
use dr_ledger_journal::TellsJournal;
use dr_run_files::{Failure, Files};
use dr_run_open::{Halt, Ledgers, Status, seal_files};
use dr_word_adopt::{Halted, stranger_in, tell_stop, texts_of};
use dr_word_line::SiteFiles;
use dr_world_audit::audit::{AuditFault, AuditVerdict, Mismatch, NodeJournal, audit};
use std::alloc::{AllocError, Global};
use std::io::Write;

/// What is printed where all holds.
fn tell_holds(alloc: Global, count: usize, told: &[u8]) -> Result<Text, AllocError>
    ensures { IfOk result (λ text. text ≡ first_line count ++ told.now) }
{
    let mut out = holds_line(alloc, count)?;
    out.extend_from_slice(told)?;
    Ok(Text::from_vec(out))
}

/// What is printed of a mismatch.
fn tell_mismatch(
    alloc: Global,
    mismatch: &Mismatch,
    journals: &[NodeJournal],
) -> Result<Text, AllocError>
    ensures { IfOk result (IsToldOf mismatch.now journals.now) }
{
    let place = place_of(mismatch, journals);
    let line = mismatch_line(alloc, mismatch, place)?;
    Ok(line)
}

/// What is printed of a verdict.
pub fn tell_verdict(
    alloc: Global,
    verdict: &AuditVerdict,
    journals: &[NodeJournal],
    told: &[u8],
) -> Result<Audited, AllocError>
    ensures { IfOk result (λ audited. (plan : Network)
        → IsVerdict plan journals.now verdict.now
        → IsConclusion plan journals.now told.now audited) }
{
    match verdict {
        AuditVerdict::Holds => {
            let text = tell_holds(alloc, journals.len(), told)?;
            Ok(Audited::Holds(text))
        }
        AuditVerdict::No(mismatch) => {
            let text = tell_mismatch(alloc, mismatch, journals)?;
            Ok(Audited::No(text))
        }
    }
}

/// Compares the journals of nodes of the plan, each once.
///
/// Errors: Memory.
fn judge<'a>(
    alloc: Global,
    sealed: &Sealed,
    journals: &[NodeJournal],
) -> Result<AuditVerdict, Halt<'a>>
    requires { AreOfNodes sealed.now.plan journals.now }
    ensures { MatchResult result (IsVerdict sealed.now.plan journals.now)
        (λ halt. halt ≡ halts.Memory) }
{
    match audit(alloc, sealed, journals) {
        Ok(verdict) => Ok(verdict),
        Err(AuditFault::NoNode) => unreachable!(),
        Err(AuditFault::Twice) => unreachable!(),
        Err(AuditFault::Memory) => Err(Halt::Memory),
    }
}

/// What is concluded of what was read.
///
/// Errors: Memory.
fn conclude<'a, L: Ledger + Drop>(
    alloc: Global,
    sealed: &Sealed,
    all: &Gathered<L>,
) -> Result<Audited, Halt<'a>>
    requires { AreOfNodes sealed.now.plan all.now.journals.items }
    ensures { MatchResult result
        (IsConclusion sealed.now.plan all.now.journals.items all.now.told.items)
        (λ halt. halt ≡ halts.Memory) }
{
    let verdict = match judge(alloc, sealed, all.journals.as_slice()) {
        Ok(verdict) => verdict,
        Err(halt) => return Err(halt),
    };
    let came = tell_verdict(
        alloc,
        &verdict,
        all.journals.as_slice(),
        all.told.as_slice(),
    );
    drop(verdict);
    match came {
        Ok(audited) => Ok(audited),
        Err(AllocError) => Err(Halt::Memory),
    }
}

/// Audits the ledgers in the folder, of all nodes of the sealed plan that aren't among the others.
///
/// Errors: NoNode, where no node has the name of one of the others; those of `gather`; Memory.
fn audit_sealed<'a, O: Ledgers>(
    alloc: Global,
    ledgers: &O,
    folder: &str,
    sealed: &Sealed,
    others: &[Text],
) -> Result<Audited, Halted<'a>>
where
    O::Ledger: TellsJournal,
    ensures { AuditsBy (O.opens ledgers.now) O.Ledger.site O.Ledger.book O.Ledger.stands folder.now
        sealed.now others.now (came_of result) }
{
    if let Some(name) = stranger_in(sealed.plan(), others) {
        return Err(Halted::at(name, Halt::NoNode));
    }
    let names = our_names(alloc, sealed.plan(), others)?;
    let all = match gather(alloc, ledgers, folder, sealed, others, names.as_slice()) {
        Ok(Gathering::All(all)) => all,
        Ok(Gathering::Missing(name)) => {
            let text = missing_line(alloc, &name)?;
            return Ok(Audited::No(text));
        }
        Err(stop) => return Err(stop),
    };
    let came = conclude(alloc, sealed, &all);
    drop(all);
    match came {
        Ok(audited) => Ok(audited),
        Err(halt) => Err(Halted { halt, node: None }),
    }
}

/// The same, where the others are named by words.
fn audit_named<'a, O: Ledgers>(
    alloc: Global,
    ledgers: &O,
    folder: &str,
    sealed: &Sealed,
    others: &[&str],
) -> Result<Audited, Halted<'a>>
where
    O::Ledger: TellsJournal,
    ensures { AuditsBy (O.opens ledgers.now) O.Ledger.site O.Ledger.book O.Ledger.stands folder.now
        sealed.now (mapped text_of others.now) (came_of result) }
{
    let others = texts_of(alloc, others)?;
    audit_sealed(alloc, ledgers, folder, sealed, others.as_slice())
}

/// Audits the ledgers in a folder by the plan in the first file.
///
/// Errors: those of `seal_files` and `audit_named`.
fn audit_given<'a, F: Files, O: Ledgers>(
    alloc: Global,
    files: &F,
    ledgers: &O,
    given: SiteFiles<'a>,
    others: &[&str],
) -> Result<Audited, Halted<'a>>
where
    O::Ledger: TellsJournal,
    ensures { Audits (F.holds files.now) (O.opens ledgers.now) O.Ledger.site O.Ledger.book
        O.Ledger.stands given.entry (mapped text_of others.now) (came_of result) }
{
    match seal_files(alloc, files, given.plan, given.certificate) {
        Ok(sealed) => {
            let came = audit_named(alloc, ledgers, given.folder, &sealed, others);
            drop(sealed);
            came
        }
        Err(halt) => Err(Halted { halt, node: None }),
    }
}

/// Writes what the audit comes to.
pub fn tell_audit<'a, W: Write>(audited: &Audited, output: &mut W) -> Result<Status, Failure<'a>>
    ensures { IfOk result
        (EndsAudit (Ok audited.now) (W.contents output.old) (W.contents output.new)) }
{
    match audited {
        Audited::Holds(text) => {
            output.write_all(text.as_bytes())?;
            Ok(Status::Success)
        }
        Audited::No(text) => {
            output.write_all(text.as_bytes())?;
            Ok(Status::Refused)
        }
    }
}

/// Reads the ledgers in a folder, of all nodes of the plan in the first file but the others, and
/// prints whether the four claims hold of their books: `holds` with how much each node has, or `no`
/// with what doesn't match. No ledger is changed, and none is made.
///
/// Errors: Stream, File.
pub fn audit_files<'a, F: Files, O: Ledgers, W: Write, E: Write>(
    alloc: Global,
    files: &F,
    ledgers: &O,
    given: SiteFiles<'a>,
    others: &[&str],
    output: &mut W,
    faults: &mut E,
) -> Result<Status, Failure<'a>>
where
    O::Ledger: TellsJournal,
    ensures { IfOk result
        (EndsAs (F.holds files.now) (O.opens ledgers.now) O.Ledger.site O.Ledger.book
        O.Ledger.stands given.entry (mapped text_of others.now) (W.contents output.old)
        (W.contents output.new)) }
{
    match audit_given(alloc, files, ledgers, given, others) {
        Ok(audited) => tell_audit(&audited, output),
        Err(stop) => tell_stop(stop, output, faults),
    }
}
