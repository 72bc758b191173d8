//! Where the files of a past are.
ghost use Rattle.std.specs.Prelude.{List};
ghost use Rattle.dr_ledger.specs.Books.{Line};

use crate::fault::PastFileFault;
use sqlite_disk::Disk;
use std::alloc::Global;

/// The files beside a database that have its sealed lines, each with its number. What they hold is
/// claimed by no clause here.
pub trait PastFiles {
    type Disk: Disk + Drop;

    // All lines that are sealed into these files, before this run and in it, as `Start` has a
    // file's first content. No code can read it. What is proved holds whatever it is, as far as the
    // files show just these lines.
    ghost all_lines: { List Line };

    /// Opens the file of that number, which is there. It makes none.
    ///
    /// Errors: Missing, InUse, Store, Memory.
    fn open(&self, alloc: Global, number: u64) -> Result<Self::Disk, PastFileFault>;

    /// Makes the file of that number, or opens one that a sealing has left that came to nothing,
    /// and syncs its folder.
    ///
    /// Errors: InUse, Store, Memory.
    fn make(&self, alloc: Global, number: u64) -> Result<Self::Disk, PastFileFault>;
}
