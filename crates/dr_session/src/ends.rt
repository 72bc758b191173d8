//! One end without the bytes that it keeps, and what happens at it.
use crate::boxed::BoxedCore;
use crate::listening::Listener;
use crate::negotiated::Negotiated;
use dr_base::{Octets, Seq, Text};
use dr_dimse::Command;
use dr_ledger::Item;
use dr_nego::NegoFault;
use dr_pdu::{Abort, AssociateAc, AssociateRj, AssociateRq, Pdv};
use dr_site::Site;
use dr_ulstate::Next;

/// When something happens, in milliseconds, and how many other associations the node has accepted
/// and not left.
#[derive(Clone, Copy, PartialEq, Eq, Debug)]
pub struct Moment {
    pub now: u64,
    pub others: usize,
}

/// What happens at an end: a PDU is heard (a P-DATA-TF counts as its values, one after the other),
/// the bytes are no PDU, the link ends, time has passed, or something is asked of it.
#[derive(Drop)]
pub enum Input {
    Request(AssociateRq),
    Acceptance(AssociateAc),
    Rejection(AssociateRj),
    /// One value of a P-DATA-TF.
    Value(Pdv),
    /// A P-DATA-TF without values.
    NoValue,
    ReleaseRq,
    ReleaseRp,
    Abort(Abort),
    /// Bytes that are no PDU of a known type.
    Unknown,
    /// Bytes that are a PDU of a known type, but not a valid one.
    Invalid,
    Ended,
    Late,
    AbortAsked,
    ReleaseAsked,
    PushAsked,
}

/// What a data set was read as.
#[derive(Drop)]
pub enum Found {
    Read(Item),
    /// It was read, and lacks its class or its UID.
    Nameless,
    Unreadable,
    TooLarge,
}

/// What an input comes to, for an end that knows what it agreed on and what is under way.
#[derive(Drop)]
pub enum Told {
    /// An input that isn't looked into.
    Plain(Input),
    /// A value that ends no message.
    Quiet,
    /// A value that can't be part of a message that is awaited.
    Fault,
    /// A value in a context that wasn't accepted.
    Strange,
    /// A C-STORE-RQ with its data set, in a context of that class.
    Store {
        context: u8,
        of: Text,
        id: u16,
        class: Text,
        instance: Text,
        found: Found,
    },
    /// Any other message, in a context of that class.
    Whole {
        context: u8,
        of: Text,
        command: Command,
    },
    /// What an acceptance agrees on.
    Agreement(Result<Negotiated, NegoFault>),
}

/// What comes over a link.
#[derive(Drop)]
pub enum Heard {
    Bytes(Octets),
    /// The other side closed the transport connection.
    End,
    /// Nothing came for as long as the link waits.
    Late,
    /// The other side was silent for too long, or brought too little of what it had begun.
    Idle,
    /// There is no room for more of the data set that is under way.
    Crowded,
    /// The link failed.
    Fault,
    /// There was no memory for what came.
    Memory,
}

/// How an association ended.
#[derive(Clone, Copy, PartialEq, Eq, Debug)]
pub enum Ended {
    /// An A-ASSOCIATE-RJ was written, or read as the answer.
    Rejected(AssociateRj),
    /// An A-ABORT was read or written.
    Aborted,
    /// An A-RELEASE-RP was read or written.
    Released,
    Closed,
}

/// How an end is over.
#[derive(Clone, Copy, PartialEq, Eq, Debug)]
pub enum Over {
    Ended(Ended),
    /// A store failed in the midst.
    Desk,
    Memory,
}

/// What the owner of a link does for its end.
#[derive(Drop)]
pub enum LinkAction {
    Write(Octets),
    Close,
}

/// What a requestor asks its acceptor for.
#[derive(Clone, Copy, PartialEq, Eq)]
pub enum Requested {
    Store,
    Echo,
}

/// A request that awaits its response: that of the same service, with this message id, in this
/// presentation context.
#[derive(Drop)]
pub struct Pending {
    pub id: u16,
    pub context: u8,
    pub asked: Requested,
    /// The instance that was sent; an echo has none.
    pub uid: Text,
}

/// What tells how the association ended.
#[derive(Clone, Copy, PartialEq, Eq, Debug)]
pub struct Marks {
    pub rejection: Option<AssociateRj>,
    pub aborted: bool,
    pub released: bool,
    pub desk_failed: bool,
}

/// One end, without the bytes that it keeps.
#[derive(Drop)]
pub struct Core {
    /// Of its node; the requestor of an echo has none.
    pub site: Option<Site>,
    /// The other end's title: empty at an acceptor that has heard no request.
    pub peer: Text,
    pub phase: Next,
    /// What a requestor has proposed.
    pub proposed: Option<AssociateRq>,
    pub agreed: Option<Negotiated>,
    pub assembly: Listener,
    pub pending: Option<Pending>,
    /// The last message id.
    pub last: u16,
    /// Since when a requestor awaits an answer, in milliseconds.
    pub awaits: Option<u64>,
    /// A push has found no row due.
    pub dry: bool,
    pub marks: Marks,
}

/// What is done at an input, and the end after it.
#[derive(Drop)]
pub struct Effect {
    pub acts: Seq<LinkAction>,
    pub core: BoxedCore,
}
