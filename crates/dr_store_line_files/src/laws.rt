//! What follows from the definitions alone. Nothing here runs: each function's contract is a law.
ghost use Rattle.dr_store_line_files.specs.Laws.{CrashLeavesLines, FileIsOneOfThem, FilesGoOn};
ghost use Rattle.dr_store_line_files.specs.Laws.{FilesHaveOneList};

use sqlite_disk::Disk;

/// What several files have goes on from seal to seal. What one of them has, which ends behind it,
/// all of them have.
pub fn lines_of_files_go_on()
    ensures on { FilesGoOn }
    ensures one { FileIsOneOfThem }
{}

/// Files have one list of lines from one seal to another.
pub fn files_have_one_list()
    ensures { FilesHaveOneList }
{}

/// A crash leaves the lines that disks keep.
pub fn crashes_leave_lines<D: Disk>()
    ensures { CrashLeavesLines D.Disk }
{}
