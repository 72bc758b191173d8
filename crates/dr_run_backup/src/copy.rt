//! A copy of a ledger while it is made.
use crate::fault::BackupFault;
use crate::pair::{FilePair, UNDER_WAY, WHOLE, made_pair, opened, path_of};
use std::alloc::{AllocError, Global};
use std::fs::File;
use std::io::{Read, Seek, SeekFrom, Write};
use std::path::Path;
use std::{fs, io};

/// So many bytes are copied at a time.
const PIECE: usize = 1024 * 1024;

/// The head of a log has so many bytes.
const HEAD: usize = 32;

/// A copy of a ledger while it is made. Its files have ends behind their names until it is whole.
///
/// The database is written by nothing but what brings the log's pages into it, and then the log
/// gets another head. So a database that was copied while calls went on is right beside a log of
/// the same head as before: each page that may have been written meanwhile is in that log, by which
/// an opening goes.
#[derive(Drop)]
pub struct LedgerCopy<'a> {
    system: &'a HostRuntime,
    alloc: Global,
    from: FilePair,
    to: FilePair,
    path: String,
    /// Whether each of its files has the name of its own, too.
    is_log_named: bool,
    is_database_named: bool,
    piece: Vec<u8>,
    head: [u8; HEAD],
    /// What was read of the log.
    log: Vec<u8>,
}

/// A buffer.
///
/// Errors: want of memory.
fn empty_piece(alloc: Global) -> Result<Vec<u8>, AllocError> {
    let mut piece = Vec::new(alloc);
    piece.resize(PIECE, 0)?;
    Ok(piece)
}

/// The first bytes of a log, or zeros where it has fewer.
fn head_of(log: &mut File) -> io::Result<[u8; HEAD]> {
    let (mut head, mut count) = ([0u8; HEAD], 0usize);
    log.seek(SeekFrom::Start(0))?;
    for _ in 0..HEAD {
        let read = log.read(&mut head[count..])?;
        count += read;
    }
    Ok(head)
}

/// Begins a file's copy anew: both are at their first byte, and the copy is empty.
fn begin(from: &mut File, to: &mut File) -> io::Result<()> {
    from.seek(SeekFrom::Start(0))?;
    to.set_len(0)?;
    to.seek(SeekFrom::Start(0))?;
    Ok(())
}

/// Copies the next piece; says whether there was one.
fn copy_next(from: &mut File, to: &mut File, piece: &mut [u8]) -> io::Result<bool> {
    let count = from.read(piece)?;
    if count == 0 {
        return Ok(false);
    }
    to.write_all(&piece[..count])?;
    Ok(true)
}

/// The folder in which a path is.
fn folder_of(path: &str) -> &str {
    match Path::new(path).parent() {
        Some(parent) => parent.as_str(),
        None => "/",
    }
}

impl<'a> LedgerCopy<'a> {
    /// A copy of the ledger whose database has the first path, with no link in it, to the second:
    /// its files are made, and are empty.
    ///
    /// Errors: IsThere, NoCopy, Memory.
    pub(crate) fn begin(
        system: &'a HostRuntime,
        alloc: Global,
        ledger: &str,
        path: &str,
    ) -> Result<LedgerCopy<'a>, BackupFault> {
        let from = opened(system, alloc, ledger)?;
        let (piece, own) = (empty_piece(alloc)?, path_of(alloc, path, "")?);
        let to = made_pair(system, alloc, path, UNDER_WAY)?;
        Ok(LedgerCopy {
            system,
            alloc,
            from,
            to,
            path: own,
            is_log_named: false,
            is_database_named: false,
            piece,
            head: [0; HEAD],
            log: Vec::new(alloc),
        })
    }

    /// Notes the head of the log. No call of the ledger is under way.
    ///
    /// Errors: NoCopy, Memory.
    pub fn note_log(&mut self) -> Result<(), BackupFault> {
        let head = head_of(&mut self.from.log)?;
        self.head = head;
        Ok(())
    }

    /// Whether the log still has the head that was noted. No call of the ledger is under way.
    ///
    /// Errors: NoCopy, Memory.
    pub fn has_same_log(&mut self) -> Result<bool, BackupFault> {
        let head = head_of(&mut self.from.log)?;
        Ok(head == self.head)
    }

    /// Begins the database, from its first byte on.
    ///
    /// Errors: NoCopy, Memory.
    pub fn begin_database(&mut self) -> Result<(), BackupFault> {
        begin(&mut self.from.database, &mut self.to.database)?;
        Ok(())
    }

    /// Copies the next piece of the database; says whether there was one.
    ///
    /// Errors: NoCopy, Memory.
    pub fn copy_database(&mut self) -> Result<bool, BackupFault> {
        let (from, to) = (&mut self.from.database, &mut self.to.database);
        let is_more = copy_next(from, to, self.piece.as_mut_slice())?;
        Ok(is_more)
    }

    /// Begins the log, from its first byte on: there is room in memory for what it has now.
    ///
    /// Errors: NoCopy, Memory.
    pub fn begin_log(&mut self) -> Result<(), BackupFault> {
        let Ok(length) = usize::try_from(self.from.log.metadata()?.len()) else {
            return Err(BackupFault::Memory);
        };
        self.log = Vec::with_capacity(self.alloc, length)?;
        self.from.log.seek(SeekFrom::Start(0))?;
        Ok(())
    }

    /// Reads the next piece of the log into memory; says whether there was one. Nothing is written,
    /// so that a copy's disk that hangs holds up nobody who waits for this.
    ///
    /// Errors: NoCopy, Memory.
    pub fn read_log(&mut self) -> Result<bool, BackupFault> {
        let count = self.from.log.read(self.piece.as_mut_slice())?;
        self.log.extend_from_slice(&self.piece[..count])?;
        Ok(count != 0)
    }

    /// Writes the log that was read.
    ///
    /// Errors: NoCopy, Memory.
    pub fn write_log(&mut self) -> Result<(), BackupFault> {
        self.to.log.write_all(self.log.as_slice())?;
        Ok(())
    }

    /// How many bytes the copy has.
    ///
    /// Errors: NoCopy, Memory.
    pub fn length(&self) -> Result<u64, BackupFault> {
        let database = self.to.database.metadata()?.len();
        let log = self.to.log.metadata()?.len();
        Ok(database.saturating_add(log))
    }

    /// One of its files gets the name with that behind the path, too. Nothing is replaced.
    ///
    /// Errors: AlreadyExists, where something is there; those of the system.
    fn link(&self, end: &str, last: &str) -> io::Result<()> {
        let now = path_of(self.alloc, self.path.as_str(), end)?;
        let then = path_of(self.alloc, self.path.as_str(), last)?;
        fs::hard_link(self.system, now.as_str(), then.as_str())
    }

    /// Both files are on the disk, the log in its place before the database that needs it.
    fn settle(&mut self) -> io::Result<()> {
        self.to.log.sync_all()?;
        self.to.database.sync_all()?;
        self.link(UNDER_WAY.log, WHOLE.log)?;
        self.is_log_named = true;
        self.link(UNDER_WAY.database, WHOLE.database)?;
        self.is_database_named = true;
        fs::open(self.system, folder_of(self.path.as_str()))?.sync_all()
    }

    /// Takes away the file with that end.
    fn remove(&self, end: &str) {
        if let Ok(path) = path_of(self.alloc, self.path.as_str(), end) {
            let _gone = fs::remove_file(self.system, path.as_str());
        }
    }

    /// Takes away the names that its files had while it was made.
    fn remove_parts(&self) {
        self.remove(UNDER_WAY.database);
        self.remove(UNDER_WAY.log);
    }

    /// The copy is whole: it takes its names, and is on the disk. Where that fails, what was made
    /// of it is taken away, and nothing else.
    ///
    /// Errors: IsThere, where something came to one of its names meanwhile; NoCopy, Memory.
    pub fn keep(self) -> Result<(), BackupFault> {
        let mut copy = self;
        match copy.settle() {
            Ok(()) => {
                copy.remove_parts();
                Ok(())
            }
            Err(error) => {
                copy.discard();
                Err(BackupFault::from(error))
            }
        }
    }

    /// There is to be no copy: what was made of it is taken away, the database before its log.
    pub fn discard(self) {
        if self.is_database_named {
            self.remove(WHOLE.database);
        }
        if self.is_log_named {
            self.remove(WHOLE.log);
        }
        self.remove_parts();
    }
}
