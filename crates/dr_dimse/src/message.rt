//! Messages (PS3.7 section 6.3): a command, and the data set behind it.
use crate::command::Command;
use dr_base::Octets;

/// The data set of a message.
#[derive(Debug, Drop)]
pub enum Body {
    /// Its bytes, at most 67,108,864 (64 MiB).
    Whole(Octets),
    /// It had more bytes; they were dropped.
    TooLarge,
}

/// A whole message.
#[derive(Debug, Drop)]
pub struct Message {
    /// The presentation context.
    pub id: u8,
    /// The command.
    pub command: Command,
    /// The data set, just where the command announces one.
    pub body: Option<Body>,
}

/// Which commands are awaited.
#[derive(Clone, Copy, Debug, PartialEq, Eq)]
pub enum Awaited {
    /// Requests, at the side that accepted the association.
    Requests,
    /// The answer to the request of this message id, at the side that sent it.
    AnswerTo(u16),
    /// None, at a side that has asked nothing.
    Nothing,
}
