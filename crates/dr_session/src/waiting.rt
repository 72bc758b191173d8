//! A connection that waits for its request.
ghost use Rattle.dr_session.specs.Waits.{ClosesAfterWaiting};

use crate::port::DeskPort;

/// A connection is late 30,000 ms behind the moment when it came, however long it had waited to be
/// served.
pub fn closes_after_waiting<P: DeskPort>()
    ensures { ClosesAfterWaiting P.step }
{}
