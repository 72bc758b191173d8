//! What is expected.
use dr_base::{Seq, Text};
use dr_route::{FieldPattern, Pattern};

/// One row of what is expected: of which instances it speaks, which nodes have to keep each of
/// them, and to which nodes none of them may come.
#[derive(Drop)]
pub struct Expectation {
    /// The node where they enter.
    pub at: Pattern,
    pub class: Pattern,
    /// The UID of the transfer syntax.
    pub syntax: Pattern,
    pub modality: FieldPattern,
    pub station: FieldPattern,
    pub keep: Seq<Text>,
    pub never: Seq<Text>,
}
