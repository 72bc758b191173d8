//! The steps of a world of nodes.
use dr_base::Text;
use dr_ledger::Item;

/// An end of a link.
#[derive(Clone, Copy, PartialEq, Eq, Debug)]
pub enum Side {
    /// The end that asked for the association (PS3.7 D.3.1, PS3.8 7.1).
    Requestor,
    /// The end that was asked for it.
    Acceptor,
}

/// A step of a world of nodes. Links are numbered from 1 in the order in which they are opened.
#[derive(Drop)]
pub enum Step {
    /// An item enters at the node itself.
    Submit { node: Text, item: Item },
    /// One node asks another for an association, over a new link.
    Open { from: Text, to: Text },
    /// One node comes to no link to another: the first row that is due is due later.
    Away { from: Text, to: Text },
    /// The requestor sends the first row that is due.
    Push { link: u64 },
    /// At most so many bytes that are on their way to the reader come to it, and none beyond the
    /// PDU at their front.
    Move { link: u64, reader: Side, most: u64 },
    /// That end aborts.
    Abort { link: u64, side: Side },
    /// The requestor asks for the release of the association.
    Release { link: u64 },
    /// The connection is lost, with what is on its way.
    Close { link: u64 },
    /// That end gives up waiting, where it has waited long enough.
    Late { link: u64, side: Side },
    /// The node stops and starts again: its links are lost, its book isn't.
    Restart { node: Text },
    /// A held row of the node's queue is queued again.
    Requeue { node: Text, uid: Text, dest: Text },
    /// A held row of the node's queue is given up.
    Drop { node: Text, uid: Text, dest: Text },
    /// The node forgets what it has of an instance that is over.
    Forget { node: Text, uid: Text },
    /// So many milliseconds pass.
    Tick { milliseconds: u64 },
    /// The node's ledger is to refuse the next call that would write.
    RefuseStore { node: Text },
}

/// The word with which the line of a step begins.
#[derive(Clone, Copy, PartialEq, Eq, Debug)]
pub enum Word {
    Submit,
    Open,
    Away,
    Push,
    Move,
    Abort,
    Release,
    Close,
    Late,
    Restart,
    Requeue,
    Drop,
    Forget,
    Tick,
    Refuse,
}
