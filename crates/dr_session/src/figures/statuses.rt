//! The statuses of the response to a C-STORE-RQ, in their order.
ghost use Rattle.dr_session.specs.Statuses.{ClassIsFirst, SizeIsBeforeReading, ReadingIsBeforeUids};
ghost use Rattle.dr_session.specs.Statuses.{LackingIsDiffering, UidsAreBeforeArrival};
ghost use Rattle.dr_session.specs.Statuses.{RepliesDecide};

/// Of two causes that stand at once the first counts: the class, the size, what can't be read, the
/// UIDs, the desk's reply.
pub fn statuses_in_order()
    ensures class { ClassIsFirst }
    ensures size { SizeIsBeforeReading }
    ensures reading { ReadingIsBeforeUids }
    ensures lacking { LackingIsDiffering }
    ensures uids { UidsAreBeforeArrival }
    ensures replies { RepliesDecide }
{}
