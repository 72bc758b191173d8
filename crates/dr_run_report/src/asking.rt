//! What is asked of a file system before a report is written, or a copy is made.
use crate::judging::{FileId, ReportFault, ReportPlace, Spot, judge, judge_new};
use crate::names::is_beside_database;
use std::alloc::{AllocError, Global};
use std::io;
use std::io::ErrorKind;

/// A file system, as far as it is asked. What it answers is claimed by no contract.
pub trait Paths {
    /// Where the path stands, and what it leads to.
    fn place(&self, alloc: Global, path: &str) -> io::Result<ReportPlace>;

    /// The path of the file to which the path leads over all links; None where no file is.
    fn real_path(&self, alloc: Global, path: &str) -> io::Result<Option<String>>;

    /// Which file the path leads to; None where there is none.
    fn file_id(&self, path: &str) -> io::Result<Option<FileId>>;
}

/// The paths of a node's own files.
#[derive(Clone, Copy, Drop)]
pub struct OwnPaths<'a> {
    pub plan: &'a str,
    pub certificate: &'a str,
    pub ledger: &'a str,
}

/// What the files of a ledger that are asked for have behind the name of its database. (Of the
/// parts of a journal only the names are known.)
const TAILS: [&str; 16] = [
    "",
    "-wal",
    "-shm",
    "-journal",
    ".data",
    ".data-wal",
    ".data-shm",
    ".data-journal",
    ".new",
    "-wal.new",
    "-shm.new",
    "-journal.new",
    ".data.new",
    ".data-wal.new",
    ".data-shm.new",
    ".data-journal.new",
];

/// What the file that is written has behind the report's path, before it takes the report's place,
/// and then.
const ENDS: [&str; 2] = [".new", ""];

/// What the files of a copy have behind its path: the database and its log, while they are written,
/// and then.
const COPY_ENDS: [&str; 4] = [".part", "-wal.part", "", "-wal"];

/// A path with something behind it.
fn path_of(alloc: Global, path: &str, tail: &str) -> Result<String, AllocError> {
    let mut whole = String::new(alloc);
    whole.push_str(path)?;
    whole.push_str(tail)?;
    Ok(whole)
}

/// A fault as an error of the file that it is about.
fn error_of(fault: ReportFault) -> io::Error {
    match fault {
        ReportFault::OwnFile => io::Error::new(ErrorKind::InvalidInput, "Q1 OwnFile"),
        ReportFault::NoReport => io::Error::new(ErrorKind::InvalidInput, "Q2 NoReport"),
        ReportFault::IsThere => io::Error::new(ErrorKind::InvalidInput, "Q3 IsThere"),
    }
}

/// The paths of a ledger's database: as it is named, and where links lead.
fn database_paths<P: Paths>(alloc: Global, paths: &P, ledger: &str) -> io::Result<Vec<String>> {
    let mut all = Vec::new(alloc);
    all.push(path_of(alloc, ledger, "")?)?;
    if let Some(real) = paths.real_path(alloc, ledger)? {
        all.push(real)?;
    }
    Ok(all)
}

/// Where these paths stand. One whose folder isn't there has no spot: no database can be there.
fn spots_of<P: Paths>(alloc: Global, paths: &P, all: &[String]) -> io::Result<Vec<Spot>> {
    let mut spots = Vec::new(alloc);
    for path in all {
        match paths.place(alloc, path.as_str()) {
            Ok(ReportPlace { spot, .. }) => spots.push(spot)?,
            Err(error) if error.kind() == ErrorKind::NotFound => {}
            Err(error) => return Err(error),
        }
    }
    Ok(spots)
}

/// Adds the file to which a path leads, if there is one.
fn add_file<P: Paths>(files: &mut Vec<FileId>, paths: &P, path: &str) -> io::Result<()> {
    if let Some(id) = paths.file_id(path)? {
        files.push(id)?;
    }
    Ok(())
}

/// Adds the files of the ledger whose database has this path.
fn add_ledger<P: Paths>(
    alloc: Global,
    files: &mut Vec<FileId>,
    paths: &P,
    database: &str,
) -> io::Result<()> {
    for tail in TAILS {
        let path = path_of(alloc, database, tail)?;
        add_file(files, paths, path.as_str())?;
    }
    Ok(())
}

/// The node's own files, as far as they are there.
fn own_files<P: Paths>(
    alloc: Global,
    paths: &P,
    own: OwnPaths<'_>,
    databases: &[String],
) -> io::Result<Vec<FileId>> {
    let mut files = Vec::new(alloc);
    add_file(&mut files, paths, own.plan)?;
    add_file(&mut files, paths, own.certificate)?;
    for database in databases {
        add_ledger(alloc, &mut files, paths, database.as_str())?;
    }
    Ok(files)
}

/// Tests whether a report may be written to a path: by `judge`, of the path itself and of the one
/// that is written before it takes its place.
///
/// Errors: `Q1 OwnFile` or `Q2 NoReport`; those of the file system, also where the report's folder
/// isn't there; want of memory.
pub fn test_path<P: Paths>(
    alloc: Global,
    paths: &P,
    own: OwnPaths<'_>,
    report: &str,
) -> io::Result<()> {
    let databases = database_paths(alloc, paths, own.ledger)?;
    let spots = spots_of(alloc, paths, databases.as_slice())?;
    let files = own_files(alloc, paths, own, databases.as_slice())?;
    for end in ENDS {
        let path = path_of(alloc, report, end)?;
        let place = paths.place(alloc, path.as_str())?;
        if let Err(fault) = judge(spots.as_slice(), files.as_slice(), &place) {
            return Err(error_of(fault));
        }
    }
    Ok(())
}

/// Tests whether a file of a copy may be made at a path.
///
/// Errors: OwnFile, IsThere; those of the file system.
fn test_new<P: Paths>(
    alloc: Global,
    paths: &P,
    ledgers: &[Spot],
    path: &str,
) -> io::Result<Result<(), ReportFault>> {
    let place = paths.place(alloc, path)?;
    Ok(judge_new(ledgers, &place))
}

/// Whether a database of that path would be taken for the log of another.
fn is_beside_another<P: Paths>(alloc: Global, paths: &P, path: &str) -> io::Result<bool> {
    let place = paths.place(alloc, path)?;
    Ok(is_beside_database(place.spot.name.as_bytes()))
}

/// Tests whether the ledger may be copied to a path: by `judge_new`, of each file that the copy
/// takes, and of those that are written before. The path is no name that would be taken for that of
/// a file beside another database.
///
/// Errors: OwnFile, IsThere; those of the file system, also where the copy's folder isn't there;
/// want of memory.
pub fn test_copy<P: Paths>(
    alloc: Global,
    paths: &P,
    ledger: &str,
    copy: &str,
) -> io::Result<Result<(), ReportFault>> {
    if is_beside_another(alloc, paths, copy)? {
        return Ok(Err(ReportFault::OwnFile));
    }
    let databases = database_paths(alloc, paths, ledger)?;
    let spots = spots_of(alloc, paths, databases.as_slice())?;
    for end in COPY_ENDS {
        let path = path_of(alloc, copy, end)?;
        if let Err(fault) = test_new(alloc, paths, spots.as_slice(), path.as_str())? {
            return Ok(Err(fault));
        }
    }
    Ok(Ok(()))
}
