//! What an audit comes to.
use dr_base::Text;

/// What an audit comes to, as it is printed.
#[derive(Drop)]
pub enum Audited {
    /// All holds: how much each node has.
    Holds(Text),
    /// It doesn't: the node, and what is missing.
    No(Text),
}
