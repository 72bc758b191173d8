//! What a line of a script tells.
use crate::foreign::Foreign;
use crate::step::{Side, Step};
use dr_base::{Octets, Text};

/// What a line of a script tells.
#[derive(Drop)]
pub enum Act {
    /// A step of the world.
    Step(Step),
    /// All nodes take the plan in the one file, whose certificate is in the other.
    Adopt {
        plan: Text,
        certificate: Text,
    },
    /// Another maker's product writes at that end of a link: what is on its way from there is these
    /// bytes now.
    Bytes {
        link: u64,
        side: Side,
        bytes: Octets,
    },
    /// A node is another maker's product, or one such does something.
    Foreign(Foreign),
}
