//! Why a ledger isn't copied.
ghost use Rattle.std.specs.Prelude.{◌≡◌};
ghost use Rattle.dr_run_backup.specs.Faults.{name_of_copy};

use dr_run_report::ReportFault;
use std::alloc::AllocError;
use std::fmt::{Display, Formatter};
use std::io::ErrorKind;
use std::{fmt, io};

/// Why a ledger isn't copied. What was made of the copy is taken away then, as far as the system
/// lets that be done.
#[derive(Clone, Copy, Debug)]
pub enum BackupFault {
    /// The ledger takes the name, or it would belong to the database of another.
    OwnFile,
    /// Something is there already.
    IsThere,
    /// The path is no text, or doesn't begin at the root.
    NoPath,
    /// A copy is being made.
    Busy,
    /// Calls would wait too long for it, or the node comes to its end.
    GivenUp,
    /// A file wasn't read or written.
    NoCopy(io::Error),
    /// The ledger has its data sets in a file of their own, which isn't copied.
    DataFile,
    Memory,
}

impl BackupFault {
    /// Its code and its name, as they are told.
    pub fn name(self) -> &'static str
        ensures { result.now ≡ name_of_copy self }
    {
        match self {
            BackupFault::OwnFile => "Q1 OwnFile",
            BackupFault::IsThere => "Q3 IsThere",
            BackupFault::NoPath => "Q4 NoPath",
            BackupFault::Busy => "Q5 Busy",
            BackupFault::GivenUp => "Q6 GivenUp",
            BackupFault::NoCopy(_) => "Q7 NoCopy",
            BackupFault::DataFile => "Q8 DataFile",
            BackupFault::Memory => "Memory",
        }
    }
}

impl Display for BackupFault {
    fn fmt<W: fmt::Write>(&self, f: &mut Formatter<W>) -> fmt::Result {
        f.write_str(self.name())
    }
}

impl From<io::Error> for BackupFault {
    fn from(error: io::Error) -> BackupFault {
        match error.kind() {
            ErrorKind::OutOfMemory => BackupFault::Memory,
            ErrorKind::AlreadyExists => BackupFault::IsThere,
            _ => BackupFault::NoCopy(error),
        }
    }
}

impl From<AllocError> for BackupFault {
    fn from(_: AllocError) -> BackupFault {
        BackupFault::Memory
    }
}

impl From<ReportFault> for BackupFault {
    fn from(fault: ReportFault) -> BackupFault {
        match fault {
            ReportFault::OwnFile => BackupFault::OwnFile,
            ReportFault::NoReport | ReportFault::IsThere => BackupFault::IsThere,
        }
    }
}
