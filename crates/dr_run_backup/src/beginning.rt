//! Where ledgers are copied.
use crate::copy::LedgerCopy;
use crate::fault::BackupFault;
use crate::pair::path_of;
use dr_run_report::{Paths, test_copy};
use std::alloc::Global;
use std::fs;

/// A file system in which ledgers are copied.
pub trait Backups: Paths {
    /// A copy of the ledger whose database has the first path, to the second: its files are made,
    /// and are empty.
    ///
    /// Errors: IsThere, NoCopy, Memory.
    fn copy_of(
        &self,
        alloc: Global,
        ledger: &str,
        path: &str,
    ) -> Result<LedgerCopy<'_>, BackupFault>;
}

/// The files of the system.
#[derive(Drop)]
pub struct SystemBackups<'a>(pub &'a HostRuntime);

impl<'a> SystemBackups<'a> {
    /// A copy of the ledger whose database has the first path, to the second. The ledger's files
    /// lie where links lead.
    ///
    /// Errors: IsThere, NoCopy, Memory.
    pub fn copy_of(
        &self,
        alloc: Global,
        ledger: &str,
        path: &str,
    ) -> Result<LedgerCopy<'_>, BackupFault> {
        let real = fs::canonicalize(self.0, ledger)?;
        LedgerCopy::begin(self.0, alloc, real.as_str(), path)
    }
}

/// What the file of a ledger's data sets has behind the name of its database.
const DATA: &str = ".data";

/// Whether a file of data sets lies beside the database with that path, where links lead.
///
/// Errors: NoCopy, Memory.
fn has_data<P: Paths>(alloc: Global, paths: &P, ledger: &str) -> Result<bool, BackupFault> {
    let Some(real) = paths.real_path(alloc, ledger)? else {
        return Ok(false);
    };
    let path = path_of(alloc, real.as_str(), DATA)?;
    let found = paths.file_id(path.as_str())?;
    Ok(found.is_some())
}

/// Begins a copy of the ledger whose database has the first path, to the second. That one begins at
/// the root, since who asks stands elsewhere than the node.
///
/// Errors: NoPath; DataFile, before any file is made; OwnFile, IsThere, of each of the files that
/// the copy takes; NoCopy, Memory.
pub fn begin_copy<'x, P: Backups>(
    alloc: Global,
    files: &'x P,
    ledger: &str,
    path: &str,
) -> Result<LedgerCopy<'x>, BackupFault> {
    if !path.starts_with('/') {
        return Err(BackupFault::NoPath);
    }
    if has_data(alloc, files, ledger)? {
        return Err(BackupFault::DataFile);
    }
    test_copy(alloc, files, ledger, path)??;
    files.copy_of(alloc, ledger, path)
}
