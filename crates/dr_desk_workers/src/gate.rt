//! What a session's worker tells of it, and points at which the session may be held.
ghost use Rattle.std.specs.Prelude.{◌≡◌};

use crate::door::Door;
use dr_base::Text;
use dr_ledger::{Arrived, Instance, LedgerFault};
use dr_pdu::{AssociateAc, AssociateRq};
use dr_session::{Ended, SessionFault};
use std::sync::ledger::Ledger;

/// A connection on which no association is asked for has so many milliseconds, where nothing else
/// is said: those of a session's own timer.
pub const REQUEST: u64 = 30_000;

/// How far a session is.
#[derive(Clone, Copy, PartialEq, Eq, Debug)]
pub enum Point {
    /// Its connection was taken from the channel.
    Taken,
    /// An arrival was answered by the desk; the reply isn't sent yet.
    Stored,
    /// That reply was sent.
    Answered,
}

/// What came of a session: how many instances the desk took, as new or again, and refused, and how
/// long it was, in milliseconds since its connection came.
#[derive(Clone, Copy, PartialEq, Eq, Debug)]
pub struct Tally {
    pub accepted: u64,
    pub refused: u64,
    pub milliseconds: u64,
}

/// Where a session may be held, and is seen. It is called without the desk's lock, and may wait.
pub trait Gate {
    /// So many workers have begun, and the system gives no thread for one more that is needed. The
    /// thread that starts them serves in its place, and no other is started.
    fn lacks(&self, _begun: usize) {}

    /// An association may be asked for, and so many others are open: those that the door counts.
    /// The door is locked now, and stays so until the request is answered or more is waited for. So
    /// who waits here holds up all who ask for an association. The session is told this number.
    fn counted<D: Ledger>(&self, _session: u64, _others: usize, _door: &Door<D>)
        requires { _others ≡ _door.now.tally.total }
    {}

    fn at(&self, session: u64, point: Point);

    /// The desk answered the arrival of this instance from a caller.
    fn arrived(
        &self,
        session: u64,
        caller: &Text,
        instance: &Instance,
        answer: Result<Arrived, LedgerFault>,
    );

    /// An arrival was answered, by which there may be new rows for these nodes; None stands for
    /// all.
    fn queued(&self, _dests: Option<&[Text]>) {}

    /// The first arrival of this instance from a caller was answered, by which there may be new
    /// rows of it for these nodes.
    fn brought(&self, _uid: &Text, _dests: &[Text]) {}

    /// An association was asked for, and accepted by this answer, or not.
    fn asked(&self, _session: u64, _request: &AssociateRq, _answer: Option<&AssociateAc>) {}

    /// A response of this status was sent. Where there was no memory to read it, nothing is told.
    fn responded(&self, _session: u64, _status: u16) {}

    /// There is no room for the data set that comes: it is let go, and will be answered A700H.
    fn crowded(&self, _session: u64) {}

    /// The session is over.
    fn ended(&self, session: u64, ended: Result<Ended, SessionFault>, tally: Tally);

    /// How many milliseconds a caller has, from when a worker takes its connection, to its whole
    /// request (PS3.8 9.1.5).
    fn awaits(&self) -> u64 {
        REQUEST
    }

    /// Whether all sessions are to end: each ends, as by a fault of its link, at what it hears
    /// next.
    fn is_over(&self) -> bool {
        false
    }

    /// Whether no association is to begin any more: a connection that hasn't asked for one ends, as
    /// by a fault of its link, at what it hears next.
    fn is_closing(&self) -> bool {
        false
    }
}
