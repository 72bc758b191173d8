//! The two files of a ledger.
use std::alloc::{AllocError, Global};
use std::fs::{File, OpenOptions};
use std::os::unix::fs::OpenOptionsExt;
use std::{fs, io};

/// The rights to a copy: nobody but its owner may read it.
const OWN: u32 = 0o600;

/// A database, and the log beside it.
#[derive(Drop)]
pub(crate) struct FilePair {
    pub database: File,
    pub log: File,
}

/// A path with something behind it.
pub(crate) fn path_of(alloc: Global, path: &str, end: &str) -> Result<String, AllocError> {
    let mut whole = String::new(alloc);
    whole.push_str(path)?;
    whole.push_str(end)?;
    Ok(whole)
}

/// The files of the ledger whose database has this path, to be read.
pub(crate) fn opened(system: &HostRuntime, alloc: Global, path: &str) -> io::Result<FilePair> {
    let log = path_of(alloc, path, "-wal")?;
    Ok(FilePair {
        database: fs::open(system, path)?,
        log: fs::open(system, log.as_str())?,
    })
}

/// A new file, to be written.
///
/// Errors: AlreadyExists, where something is there; those of the system.
fn made(system: &HostRuntime, path: &str) -> io::Result<File> {
    OpenOptions::new()
        .write(true)
        .create_new(true)
        .mode(OWN)
        .open(system, path)
}

/// New files for a copy of that path, with these ends behind it. Where only the log can be made,
/// it is taken away.
///
/// Errors: AlreadyExists, where something is there; those of the system.
pub(crate) fn made_pair(
    system: &HostRuntime,
    alloc: Global,
    path: &str,
    ends: FileEnds,
) -> io::Result<FilePair> {
    let database = path_of(alloc, path, ends.database)?;
    let name = path_of(alloc, path, ends.log)?;
    let log = made(system, name.as_str())?;
    match made(system, database.as_str()) {
        Ok(database) => Ok(FilePair { database, log }),
        Err(error) => {
            let _gone = fs::remove_file(system, name.as_str());
            Err(error)
        }
    }
}

/// What the files of a copy have behind its path.
#[derive(Clone, Copy)]
pub(crate) struct FileEnds {
    pub database: &'static str,
    pub log: &'static str,
}

/// While it is made.
pub(crate) const UNDER_WAY: FileEnds = FileEnds {
    database: ".part",
    log: "-wal.part",
};

/// When it is whole.
pub(crate) const WHOLE: FileEnds = FileEnds {
    database: "",
    log: "-wal",
};
