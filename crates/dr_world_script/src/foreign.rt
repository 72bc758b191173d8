//! What other makers' products do, in words.
use dr_base::Text;
use dr_ledger::Item;

/// What concerns other makers' products.
#[derive(Drop)]
pub enum Foreign {
    /// The node is another maker's product from then on.
    Node { node: Text },
    /// Such a caller of a link sends a C-STORE-RQ with the item's data set (PS3.7 9.1.1).
    Store { link: u64, item: Item },
    /// Such a receiver of a link answers the C-STORE-RQ that it was sent with this status.
    Answer { link: u64, status: u16 },
}

/// The word with which the line of one of these begins.
#[derive(Clone, Copy, PartialEq, Eq, Debug)]
pub enum ForeignWord {
    Node,
    Store,
    Answer,
}
