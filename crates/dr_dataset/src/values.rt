//! What is read of data sets and files.
use dr_base::{Syntax, Text};

/// Four values of a data set, without the spaces in front and the spaces and NULs behind; each is
/// empty where the data set has none.
#[derive(Debug, Drop)]
pub struct Attributes {
    /// SOP class UID (0008,0016).
    pub class: Text,
    /// SOP instance UID (0008,0018).
    pub instance: Text,
    /// Modality (0008,0060).
    pub modality: Text,
    /// Station name (0008,1010).
    pub station: Text,
}

/// Where the data set of a Part 10 file is.
#[derive(Clone, Copy, Debug, PartialEq, Eq)]
pub struct Part10 {
    /// Its syntax.
    pub syntax: Syntax,
    /// How many bytes of the file come before it.
    pub start: usize,
}
