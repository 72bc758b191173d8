//! Whether a report may take the place of what is at a path.
ghost use Rattle.std.specs.Prelude.{◌≡◌, ◌↔◌, IsTrue};
ghost use Rattle.dr_run_report.specs.Places.{HasRoom, IsAmong, IsFileOf, IsOwn, IsTakenBy};
ghost use Rattle.dr_run_report.specs.Places.{JudgesNew, JudgesPlace, TakesName};
ghost use Rattle.dr_run_report.specs.declared.judging.PathTarget.TheVariants.{Nothing};

use crate::names::is_ledger_name;
use dr_base::Text;
use dr_base::same::Same;
use thiserror::Error;

/// What tells a file from all others of the machine: its device, and its number there. A hard link
/// has the same one.
#[derive(PartialEq, Eq, Drop)]
pub struct FileId {
    pub device: u64,
    pub inode: u64,
}

/// What a path leads to.
#[derive(PartialEq, Eq, Drop)]
pub enum PathTarget {
    /// No file.
    Nothing,
    /// A plain file that begins as a report does.
    Report(FileId),
    /// Anything else.
    Other(FileId),
}

/// A name in a folder, whose own path has no link and no dots in it: no folder has two of them.
#[derive(Drop)]
pub struct Spot {
    pub folder: Text,
    pub name: Text,
}

/// Where a path stands, and what it leads to.
#[derive(Drop)]
pub struct ReportPlace {
    pub spot: Spot,
    pub found: PathTarget,
}

/// Why a report, or a copy of the ledger, can't be written to a path.
#[derive(Clone, Copy, PartialEq, Eq, Debug, Error)]
pub enum ReportFault {
    /// The ledger takes the file or the name, or it is the plan or the certificate.
    #[error("Q1 OwnFile")]
    OwnFile,
    /// What is there isn't a report.
    #[error("Q2 NoReport")]
    NoReport,
    /// Something is there, and a copy would take its place.
    #[error("Q3 IsThere")]
    IsThere,
}

fn is_id(this: &FileId, that: &FileId) -> bool
    ensures { IsTrue result ↔ (this.now ≡ that.now) }
{
    this == that
}

fn is_listed(id: &FileId, files: &[FileId]) -> bool
    ensures { IsTrue result ↔ IsFileOf files.now id.now }
{
    for file in files {
        if is_id(file, id) {
            return true;
        }
    }
    false
}

/// Whether what was found is one of the files.
fn is_among(found: &PathTarget, files: &[FileId]) -> bool
    ensures { IsTrue result ↔ IsAmong files.now found.now }
{
    match found {
        PathTarget::Nothing => false,
        PathTarget::Report(id) => is_listed(id, files),
        PathTarget::Other(id) => is_listed(id, files),
    }
}

/// Whether a ledger whose database stands there takes the name of the spot.
fn takes(ledger: &Spot, spot: &Spot) -> bool
    ensures { IsTrue result ↔ TakesName spot.now ledger.now }
{
    ledger.folder.is_same(&spot.folder)
        && is_ledger_name(ledger.name.as_bytes(), spot.name.as_bytes())
}

/// Whether one of the ledger's spots takes the name.
fn is_taken(ledgers: &[Spot], spot: &Spot) -> bool
    ensures { IsTrue result ↔ IsTakenBy ledgers.now spot.now }
{
    for ledger in ledgers {
        if takes(ledger, spot) {
            return true;
        }
    }
    false
}

/// Whether the place is one of the node's own.
fn is_own(ledgers: &[Spot], files: &[FileId], place: &ReportPlace) -> bool
    ensures { IsTrue result ↔ IsOwn ledgers.now files.now place.now }
{
    if is_taken(ledgers, &place.spot) {
        return true;
    }
    is_among(&place.found, files)
}

/// Whether nothing is lost where a report takes the place of what was found.
fn has_room(found: &PathTarget) -> bool
    ensures { IsTrue result ↔ HasRoom found.now }
{
    match found {
        PathTarget::Nothing | PathTarget::Report(_) => true,
        PathTarget::Other(_) => false,
    }
}

/// Whether a report may be written to the place: the ledger's database stands at these spots (as it
/// is named, and where links lead), and these are the
/// node's own files that are there.
///
/// Errors: OwnFile, NoReport.
pub fn judge(ledgers: &[Spot], files: &[FileId], place: &ReportPlace) -> Result<(), ReportFault>
    ensures { JudgesPlace ledgers.now files.now place.now result }
{
    if is_own(ledgers, files, place) {
        return Err(ReportFault::OwnFile);
    }
    if has_room(&place.found) {
        return Ok(());
    }
    Err(ReportFault::NoReport)
}

/// Whether nothing was found.
fn is_nothing(found: &PathTarget) -> bool
    ensures { IsTrue result ↔ (found.now ≡ Nothing) }
{
    match found {
        PathTarget::Nothing => true,
        PathTarget::Report(_) | PathTarget::Other(_) => false,
    }
}

/// Whether a file of a copy of the ledger may be made at the place: the ledger's database stands at
/// these spots (as it is named, and where links lead).
///
/// Errors: OwnFile, IsThere.
pub fn judge_new(ledgers: &[Spot], place: &ReportPlace) -> Result<(), ReportFault>
    ensures { JudgesNew ledgers.now place.now result }
{
    if is_taken(ledgers, &place.spot) {
        return Err(ReportFault::OwnFile);
    }
    if is_nothing(&place.found) {
        return Ok(());
    }
    Err(ReportFault::IsThere)
}
