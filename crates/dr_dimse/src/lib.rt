//! Commands of the DIMSE services (PS3.7), and messages out of the data values that carry them.
//!
//! `specs/Commands.antt` relates texts to the commands that they spell; `read_command` answers just
//! that. `specs/Written.antt` has the one spelling that `write_command` writes.
//! `specs/Messages.antt` relates lists of presentation data values to messages, and
//! `specs/Taking.antt` says what an `Assembly` makes of one value after the other. `laws` has what
//! follows from the definitions, and `figures` worked figures of them.
#![tactic(auto)]

mod assembly;
mod command;
mod elements;
mod fault;
pub mod figures;
pub mod laws;
mod message;
mod reader;
mod writer;

pub use assembly::Assembly;
pub use command::Command;
pub use fault::DimseFault;
pub use message::{Awaited, Body, Message};
pub use reader::read_command;
pub use writer::{fits, write_command};
