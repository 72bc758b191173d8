//! The file of a database's data sets, as an opening comes to it.
use crate::files::Databases;
use dr_store_data::{DataFile, DataFileFault, DataMark};
use sqlite::{File, Files, Unknown};
use sqlite_std_file::{OpenError, open};
use std::alloc::{AllocError, Global};
use std::io::ErrorKind;
use std::random::RandomSource;
use std::{fs, io};

/// What its name has behind that of the database.
const DATA: &str = ".data";

/// What lies beside the database with that path, among these databases.
#[derive(Drop)]
pub struct DataBeside<'x, D: Databases> {
    pub databases: &'x D,
    pub path: &'x str,
}

impl<'x, D: Databases> DataFile for DataBeside<'x, D> {
    type Disk = File;

    fn open(&self, alloc: Global) -> Result<File, DataFileFault> {
        self.databases.open_data(alloc, self.path)
    }

    fn make(&self, alloc: Global) -> Result<File, DataFileFault> {
        self.databases.make_data(alloc, self.path)
    }

    fn draw(&self, _alloc: Global) -> Result<DataMark, DataFileFault> {
        self.databases.draw_mark()
    }
}

/// Why it isn't opened, where the system says so.
fn fault_of(error: &io::Error) -> DataFileFault {
    match error.kind() {
        ErrorKind::OutOfMemory => DataFileFault::Memory,
        _ => DataFileFault::Store,
    }
}

/// The path of the database with that name behind it.
fn path_of(alloc: Global, database: &str) -> Result<String, AllocError> {
    let mut path = String::new(alloc);
    path.push_str(database)?;
    path.push_str(DATA)?;
    Ok(path)
}

/// Its path beside a database of that path.
///
/// Errors: Memory.
pub fn data_name(alloc: Global, database: &str) -> Result<String, DataFileFault> {
    match path_of(alloc, database) {
        Ok(path) => Ok(path),
        Err(AllocError) => Err(DataFileFault::Memory),
    }
}

/// Its path beside a database that is there: where links lead to that.
///
/// Errors: Store, Memory.
pub fn data_path(rt: &HostRuntime, alloc: Global, database: &str) -> Result<String, DataFileFault> {
    let real = match fs::canonicalize(rt, database) {
        Ok(real) => real,
        Err(error) => return Err(fault_of(&error)),
    };
    data_name(alloc, real.as_str())
}

/// How many bytes it has, if it is there.
///
/// Errors: Store, also where what is there is no plain file; Memory.
pub fn data_length(rt: &HostRuntime, path: &str) -> Result<Option<u64>, DataFileFault> {
    match fs::metadata(rt, path) {
        Ok(found) if found.is_file() => Ok(Some(found.len())),
        Ok(_) => Err(DataFileFault::Store),
        Err(error) if error.kind() == ErrorKind::NotFound => Ok(None),
        Err(error) => Err(fault_of(&error)),
    }
}

/// The file with that path, locked, on the disk with its folder; it is made where none is. It is
/// opened as a database with its log, and the log stays empty.
///
/// Errors: InUse, Store, Memory.
pub fn file_of(rt: &HostRuntime, path: &str) -> Result<File, DataFileFault> {
    match open(rt, path, Unknown) {
        Ok(Files { log, db }) => {
            drop(log);
            Ok(db)
        }
        Err(OpenError::Busy) => Err(DataFileFault::InUse),
        Err(OpenError::OutOfMemory) => Err(DataFileFault::Memory),
        Err(OpenError::Io(error)) => Err(fault_of(&error)),
        Err(OpenError::HotJournal) => Err(DataFileFault::Store),
    }
}

/// Fills this with random bytes.
///
/// Errors: Store, Memory.
pub fn draw(rt: &HostRuntime, bytes: &mut [u8]) -> Result<(), DataFileFault> {
    match rt.fill_bytes(bytes) {
        Ok(()) => Ok(()),
        Err(error) => Err(fault_of(&error)),
    }
}
