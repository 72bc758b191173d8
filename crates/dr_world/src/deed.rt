//! What is done to a world.
use dr_base::Octets;
use dr_cert::Sealed;
use dr_world_script::{Side, Step};

/// What is done to a world.
#[derive(Drop)]
pub enum Deed {
    /// A step.
    Step(Step),
    /// All nodes are to take this plan.
    Adopt(Sealed),
    /// Another maker's product writes at that end of a link: what is on its way from there is these
    /// bytes now.
    Bytes {
        link: u64,
        side: Side,
        bytes: Octets,
    },
}
