//! Calls of the system that ended since nothing happened in time.
use std::io;
use std::io::ErrorKind;

/// Whether a call failed since nothing came, or was taken, in time.
pub fn is_quiet(error: &io::Error) -> bool {
    matches!(
        error.kind(),
        ErrorKind::WouldBlock | ErrorKind::TimedOut | ErrorKind::Interrupted
    )
}
