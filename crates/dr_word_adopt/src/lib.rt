//! The word `adopt`: the ledgers of the nodes of a plan are brought over to another plan, while no
//! node runs.
//!
//! - `adopt_files`: both plans are read and sealed; each node's ledger is opened and looked into;
//!   and only where the next plan goes on with all that they have still to send, each is changed.
//! - `nodes_to_go`: whose ledgers these are. A node of another make has none, and is named.
//!
//! All ledgers stay open from the first look to the last change, so that no node can begin to run
//! in between. None is made: `ShowsFiles` tells whether a file is there.
#![tactic(auto)]

mod adopting;
mod beginning;
mod change;
mod changing;
pub mod laws;
mod looking;
mod names;
mod shown;
mod standing;

pub use adopting::{adopt_files, seal_both, tell_stop, unfit_text};
pub use beginning::nodes_to_go;
pub use change::Halted;
pub use looking::{part_of, parts_of, path_of};
pub use names::{is_among, stranger_in, texts_of};
pub use shown::ShowsFiles;
