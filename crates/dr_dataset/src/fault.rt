//! What is wrong with a data set or a file.
use thiserror::Error;

/// Why a data set isn't read: its first fault, in the order of its bytes.
#[derive(Clone, Copy, Debug, PartialEq, Eq, Error)]
pub enum DataFault {
    /// The bytes end inside an element, a sequence or an item.
    #[error("S1 Truncated")]
    Truncated,
    /// Behind the tag of an element in the explicit syntax there are no two capital letters.
    #[error("S2 BadVr")]
    BadVr,
    /// A tag or a length that can't stand there.
    #[error("S3 BadLength")]
    BadLength,
    /// More than 32 sequences are open.
    #[error("S4 TooDeep")]
    TooDeep,
    /// There was no memory for the values.
    #[error("Memory")]
    Memory,
}

/// Why a Part 10 file isn't read.
#[derive(Clone, Copy, Debug, PartialEq, Eq, Error)]
pub enum FileFault {
    /// There is no `DICM` behind the first 128 bytes.
    #[error("F1 NotDicom")]
    NotDicom,
    /// The file meta information can't be read, or names no transfer syntax.
    #[error("F2 Meta")]
    Meta,
    /// The data set is in a syntax that isn't read here.
    #[error("F3 OtherSyntax")]
    OtherSyntax,
    /// There was no memory; finding the data set takes none, so that it is never answered today.
    #[error("Memory")]
    Memory,
}
