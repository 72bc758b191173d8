//! What a running node is seen by: its log, a file with what it has, and copies of its ledger.
use dr_base::Text;
use dr_run_backup::{BackupFault, Backups, LedgerCopy, begin_copy};
use dr_run_files::Files;
use log::kv::Source;
use log::span::Spans;
use log::{Log, Metadata, Record};
use std::alloc::Global;
use std::fmt::Display;
use std::io;

/// A log that may want reports too, and copies of the node's ledger.
pub trait Monitor: Log {
    /// Whether reports are wanted.
    fn wants_reports(&self) -> bool;

    /// Takes what the node has now, as `list` prints it; the report before it goes.
    fn report(&self, alloc: Global, text: &Text) -> io::Result<()>;

    /// Begins a copy of the node's ledger, to that path.
    ///
    /// Errors: NoPath, DataFile, OwnFile, IsThere, NoCopy, Memory.
    fn begin_copy(&self, alloc: Global, path: &str) -> Result<LedgerCopy<'_>, BackupFault>;
}

/// A log with the path of a file, to which reports are written if there is one, and the path of the
/// node's ledger.
#[derive(Drop)]
pub struct FileMonitor<'a, G: Log, F: Files + Backups> {
    pub log: &'a G,
    pub files: &'a F,
    pub path: Option<&'a str>,
    pub ledger: &'a str,
}

impl<'a, G: Log, F: Files + Backups> Log for FileMonitor<'a, G, F> {
    fn enabled(&self, metadata: &Metadata<'_>) -> bool {
        self.log.enabled(metadata)
    }

    fn log<D: Display, K: Source, S: Spans>(&self, record: &Record<'_, D, K, S>) {
        self.log.log(record);
    }

    fn flush(&self) {
        self.log.flush();
    }

    fn target(&self) -> &str {
        self.log.target()
    }
}

impl<'a, G: Log, F: Files + Backups> Monitor for FileMonitor<'a, G, F> {
    fn wants_reports(&self) -> bool {
        self.path.is_some()
    }

    fn report(&self, alloc: Global, text: &Text) -> io::Result<()> {
        match self.path {
            Some(path) => self.files.replace(alloc, path, text.as_bytes()),
            None => Ok(()),
        }
    }

    fn begin_copy(&self, alloc: Global, path: &str) -> Result<LedgerCopy<'_>, BackupFault> {
        begin_copy(alloc, self.files, self.ledger, path)
    }
}
