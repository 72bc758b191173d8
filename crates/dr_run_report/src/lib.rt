//! Where the report of a running node may be written, and where its ledger may be copied to.
//!
//! A report takes the place of a file. It goes only where no file is, or where what is there begins
//! as a report does; never to a file that the
//! node's ledger takes, nor to its plan or its certificate, by whatever path it is named. `judge`
//! decides that of what the file system
//! answered, which is handed in as values; `test_path` asks the file system, as a trait, and
//! `SystemPaths` is the system's. A copy takes no file's place: it goes only where nothing is
//! (`judge_new`, `test_copy`).
#![tactic(auto)]

mod asking;
mod head;
mod judging;
mod names;
mod system;

pub use asking::{OwnPaths, Paths, test_copy, test_path};
pub use judging::{FileId, ReportFault, ReportPlace};
pub use system::SystemPaths;
