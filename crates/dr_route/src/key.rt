//! What a rule reads of an instance.
use dr_base::{Syntax, Text};

/// Four values of an instance: its SOP class UID, the transfer syntax in which it came, its
/// modality (0008,0060) and its station name (0008,1010).
#[derive(Clone, PartialEq, Eq, PartialOrd, Ord, Debug, Drop)]
pub struct Key {
    pub class: Text,
    pub syntax: Syntax,
    pub modality: Text,
    pub station: Text,
}
