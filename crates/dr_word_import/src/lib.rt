//! The word `import`: a plan to begin with, for a hospital's table of devices.
//!
//! - `import_file` reads the table (`table`), places each row as a device (`device`), writes their
//!   plan (`writing`), and prints it where it reads as a plan.
//! - `specs/Tables.antt` says what devices stand for.
#![tactic(auto)]

mod device;
mod run;
mod table;
mod writing;

pub use run::import_file;
