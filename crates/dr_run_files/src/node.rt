//! What names a node.

/// What names a node and its ledger: the paths of the plan's text, of its certificate's and of the
/// ledger, and the node's name.
#[derive(Clone, Copy, Debug, Drop)]
pub struct NodeFiles<'a> {
    pub plan: &'a str,
    pub certificate: &'a str,
    pub node: &'a str,
    pub ledger: &'a str,
}
