//! Why a text isn't read.
use thiserror::Error;

/// Why a text isn't read.
#[derive(Clone, Copy, Debug, PartialEq, Eq, Error)]
pub enum ExpectFault {
    /// The bytes aren't a text in TOML, or a field is missing, unknown or ill-formed; with the
    /// number of the line where that shows.
    #[error("X1 Expect {0}")]
    Expect(usize),
    /// There was no memory.
    #[error("Memory")]
    Memory,
}
